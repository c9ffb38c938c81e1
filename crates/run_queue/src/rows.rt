// The rows of a run: filling them, and testing the queue.
ghost use Rattle.std.specs.Prelude.{◌≡◌, ◌≤◌, length};

use crate::{line, rules};
use settle::{Bank, Batch};
use std::io;

// How many batches wait, and the place of the one that joined last.
#[derive(Clone, Copy)]
pub struct Standing {
    pub waiting: usize,
    pub last: usize,
}

// What stands after the first of four letters: credit A, cash A and a space.
const OTHER_LETTERS: u64 = 4_276_512;

const FIRST_LETTER: u64 = 16_777_216;

fn index(x: u64) -> usize
    ensures { result ≡ x }
{
    x as usize
}

fn put(row: &mut [u64], i: usize, value: u64) {
    if let Some(place) = row.get_mut(i) {
        *place = value;
    }
}

// A batch with no payments yet stands at a place and at the queue's tail.
fn join(
    batches: &mut [u64],
    memory: &mut [u64],
    queue: &mut [u64],
    standing: Standing,
    place: usize,
) -> Standing {
    let waiting = standing.waiting;
    if place < Batch::LIVE && waiting < Batch::LIVE {
        put(batches, place * Batch::WIDTH + Batch::PAYMENTS_THERE, 0);
        queue::wake_batch(memory, place);
        put(queue, waiting, place as u64);
        return Standing {
            waiting: waiting + 1,
            last: place,
        };
    }
    standing
}

fn letters(letter: u64) -> u64 {
    if letter == 0 {
        return 0;
    }
    if letter < 256 {
        letter * FIRST_LETTER + OTHER_LETTERS
    } else {
        0
    }
}

fn read(row: &[u64], i: usize) -> u64 {
    row.get(i).copied().unwrap_or(0)
}

// One more payment of the batch at a place.
fn pay(batches: &mut [u64], place: usize, bank: u64, cents: u64, letter: u64) {
    if place < Batch::LIVE {
        let start = place * Batch::WIDTH;
        let count = read(batches, start + Batch::PAYMENTS_THERE);
        if count < 100 {
            let at = start + Batch::PAYMENT + Batch::PAYMENT_WIDTH * index(count);
            put(batches, at, bank);
            put(batches, at + 1, cents);
            put(batches, at + 2, letters(letter));
            put(batches, start + Batch::PAYMENTS_THERE, count + 1);
        }
    }
}

// The letter of a debit of the bank is changed.
fn restate(batches: &mut [u64], at: usize, bank: u64, letter: u64) {
    if read(batches, at) == bank && at < 100_000 && read(batches, at + 2) != 0 {
        put(batches, at + 2, letters(letter));
    }
}

fn status(batches: &mut [u64], place: usize, bank: u64, letter: u64) {
    if place < Batch::LIVE {
        let first = place * Batch::WIDTH + Batch::PAYMENT;
        for i in 0..Batch::PAYMENTS {
            restate(batches, first + Batch::PAYMENT_WIDTH * i, bank, letter);
        }
    }
}

// The plain or the quick test, where the rows keep the rules.
fn test(
    quick: bool,
    balances: &mut [u64; 64],
    sublimits: &[u64; 64],
    batches: &[u64; 11168],
    memory: &mut [u64; 32],
    queue: &mut [u64; 32],
    waiting: usize,
    tries: &mut [u64; 528],
) -> queue::Reached {
    let none = queue::Reached { waiting, tried: 0 };
    if Batch::LIVE < waiting {
        return none;
    }
    if !rules::total_fits(balances) {
        return none;
    }
    if !rules::all_good(batches, queue, waiting) {
        return none;
    }
    queue::run(
        quick, balances, sublimits, batches, memory, queue, waiting, tries, 0,
    )
}

// A test, and what it leaves in four lines.
fn tell(
    rt: &impl Print,
    quick: bool,
    standing: Standing,
    balances: &mut [u64; 64],
    sublimits: &[u64; 64],
    batches: &[u64; 11168],
    memory: &mut [u64; 32],
    queue: &mut [u64; 32],
    tries: &mut [u64; 528],
) -> io::Result<Standing> {
    let waiting = standing.waiting;
    let reached = test(
        quick, balances, sublimits, batches, memory, queue, waiting, tries,
    );
    line::write(rt, b't', tries, reached.tried)?;
    line::write(rt, b'q', queue, reached.waiting)?;
    line::write(rt, b'm', memory, Batch::LIVE)?;
    line::write(rt, b'b', balances, 40)?;
    Ok(Standing {
        waiting: reached.waiting,
        last: standing.last,
    })
}

// A line of the script.
#[derive(Clone, Copy)]
pub struct Line {
    pub op: u64,
    pub a: u64,
    pub b: u64,
    pub c: u64,
}

fn line_at(numbers: &[u64], i: usize) -> Line {
    if i < 100_000 {
        let at = i * 4;
        Line {
            op: read(numbers, at),
            a: read(numbers, at + 1),
            b: read(numbers, at + 2),
            c: read(numbers, at + 3),
        }
    } else {
        Line {
            op: 0,
            a: 0,
            b: 0,
            c: 0,
        }
    }
}

// A line that changes batches and queue.
fn change(
    line: Line,
    standing: Standing,
    batches: &mut [u64; 11168],
    memory: &mut [u64; 32],
    queue: &mut [u64; 32],
) -> Standing {
    let op = line.op;
    match op {
        4 => join(batches, memory, queue, standing, index(line.a)),
        5 => {
            pay(batches, standing.last, line.a, line.b, line.c);
            standing
        }
        6 => {
            status(batches, index(line.a), line.b, line.c);
            queue::wake_batch(memory, index(line.a));
            standing
        }
        _ => standing,
    }
}

// Does what a line says.
fn step(
    rt: &impl Print,
    line: Line,
    standing: Standing,
    balances: &mut [u64; 64],
    sublimits: &mut [u64; 64],
    batches: &mut [u64; 11168],
    memory: &mut [u64; 32],
    queue: &mut [u64; 32],
    tries: &mut [u64; 528],
) -> io::Result<Standing> {
    let op = line.op;
    match op {
        1 => {
            balances.fill(0);
            sublimits.fill(0);
            memory.fill(0);
            Ok(Standing {
                waiting: 0,
                last: 0,
            })
        }
        2 => {
            put(balances, index(line.a), line.b);
            Ok(standing)
        }
        3 => {
            put(sublimits, index(line.a), line.b);
            queue::wake_bank(memory, line.a);
            Ok(standing)
        }
        7 => tell(
            rt, false, standing, balances, sublimits, batches, memory, queue, tries,
        ),
        8 => tell(
            rt, true, standing, balances, sublimits, batches, memory, queue, tries,
        ),
        _ => Ok(change(line, standing, batches, memory, queue)),
    }
}

// The whole script.
pub fn run(rt: &impl Print, numbers: &[u64], count: usize) -> io::Result<()> {
    let mut balances = [0u64; 64];
    let mut sublimits = [0u64; 64];
    let mut batches = [0u64; 11168];
    let mut memory = [0u64; 32];
    let mut queue = [0u64; 32];
    let mut tries = [0u64; 528];
    let mut standing = Standing {
        waiting: 0,
        last: 0,
    };
    let lines = count / 4;
    for i in 0..lines {
        let line = line_at(numbers, i);
        standing = step(
            rt,
            line,
            standing,
            &mut balances,
            &mut sublimits,
            &mut batches,
            &mut memory,
            &mut queue,
            &mut tries,
        )?;
    }
    Ok(())
}

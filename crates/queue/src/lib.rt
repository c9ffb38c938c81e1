// The queue and its two tests, over lent rows: balances, sub-limits, the batches' rows, the quick test's memory, the queue and the tries.
#![tactic(auto)]

ghost use Rattle.std.specs.Prelude.{◌≡◌, true, false, map, ℕ, ◌+◌, ◌*◌, ◌≤◌, ◌<◌, eqb, length, get_or, set, take};
ghost use Rattle.settle.specs.Payments.{payment_at, row_payments};
ghost use Rattle.settle.specs.Settlement.{accounts};
ghost use Rattle.settle.specs.Rules.{Ranged, Books, Good};
ghost use Rattle.queue.specs.Tests.{omits, turned, turn, walk, test, fuel};
ghost use Rattle.queue.specs.Memory.{wake, credited, marked_by, marked, is_marked};
ghost use Rattle.queue.specs.Rows.{Stands, AllGood, Noted, Walked, Tested, most};

// What a batch's memory is after something happened to a bank: 0 has it tried, else it is held at the bank one below.
fn woken(held: u64, bank: u64) -> u64
    ensures { result ≡ wake (eqb bank) held }
{
    if held == 0 {
        return 0;
    }
    if held - 1 == bank { 0 } else { held }
}

// A bank has had a credit settled, or an accepted sub-limit change: batches held at it are tried again.
pub fn wake_bank(memory: &mut [u64], bank: u64)
    ensures { memory.new ≡ map (wake (eqb bank)) memory.old }
{
    for held in memory.iter_mut() {
        *held = woken(*held, bank);
    }
}

// A batch has had an accepted status change, has ended, or stands anew at its place.
pub fn wake_batch(memory: &mut [u64], place: usize)
    ensures { memory.new ≡ set memory.old place 0 }
{
    if place < memory.len() {
        memory[place] = 0;
    }
}

// One settled payment: the bank of a credit of any amount gets a mark.
fn mark_paid(marks: &mut [bool], batches: &[u64], at: usize)
    requires { (at + 3 ≤ length batches.now) × (get_or batches.now at 0 < length marks.old) }
    ensures { marks.new ≡ marked_by (payment_at batches.now at) marks.old }
{
    let bank = batches[at] as usize;
    if batches[at + 2] == 0 {
        marks[bank] = true;
    }
}

// The banks that the batch at a place credits get their marks.
fn mark_credited(marks: &mut [bool], batches: &[u64], place: usize)
    requires { Stands batches.now place × Ranged (row_payments batches.now place) × (length marks.old ≡ 64) }
    ensures { marks.new ≡ marked (row_payments batches.now place) marks.old }
{
    let first = place * settle::Batch::WIDTH + settle::Batch::PAYMENT;
    let n = batches[place * settle::Batch::WIDTH + settle::Batch::PAYMENTS_THERE] as usize;
    for i in 0..n {
        mark_paid(marks, batches, first + i * settle::Batch::PAYMENT_WIDTH);
    }
}

// What a batch's memory is after something happened to the banks with a mark.
fn woken_by(held: u64, marks: &[bool]) -> u64
    ensures { result ≡ wake (is_marked marks.now) held }
{
    if held == 0 {
        return 0;
    }
    let bank = (held - 1) as usize;
    if bank < marks.len() && marks[bank] {
        return 0;
    }
    held
}

// Batches held at a bank with a mark are tried again.
fn wake_marked(memory: &mut [u64], marks: &[bool])
    ensures { memory.new ≡ map (wake (is_marked marks.now)) memory.old }
{
    for held in memory.iter_mut() {
        *held = woken_by(*held, marks);
    }
}

// The settled batch at a place: its credits wake, in one pass over its payments and one over the memory.
pub fn wake_credited(memory: &mut [u64], batches: &[u64], place: usize)
    requires { Stands batches.now place × Ranged (row_payments batches.now place) }
    ensures { memory.new ≡ map (wake (credited (row_payments batches.now place))) memory.old }
{
    let mut marks = [false; settle::Bank::MOST];
    mark_credited(&mut marks, batches, place);
    wake_marked(memory, &marks);
}

// What the turn of a queued batch came to.
#[derive(Clone, Copy)]
pub enum Step {
    Omitted,
    Failed,
    Passed,
}

// Whether the quick test omits the batch at a place.
fn omits(quick: bool, memory: &[u64], place: usize) -> bool
    requires { place < length memory.now }
    ensures { result ≡ omits quick memory.now place }
{
    quick && 0 < memory[place]
}

// The turn of one batch: it is omitted, or tried and, where it passes, settled. A failed try of the quick test is remembered.
fn attempt(
    quick: bool,
    balances: &mut [u64],
    sublimits: &[u64],
    batches: &[u64],
    memory: &mut [u64],
    place: usize,
) -> Step
    requires books { Books balances.old sublimits.now }
    requires good { Good batches.now place }
    requires memory_len { length memory.old ≡ 32 }
    ensures { turned result (accounts balances.new sublimits.now) memory.new ≡ turn quick (row_payments batches.now) (accounts balances.old sublimits.now) memory.old place }
{
    if omits(quick, memory, place) {
        return Step::Omitted;
    }
    let verdict = settle::first_uncovered(balances, sublimits, batches, place);
    match verdict {
        settle::Verdict::Passes => {
            settle::settle(balances, batches, place);
            wake_credited(memory, batches, place);
            Step::Passed
        }
        settle::Verdict::Stops(bank) => {
            if quick {
                memory[place] = bank + 1;
                Step::Failed
            } else {
                Step::Failed
            }
        }
    }
}

// How many batches wait, and the place reached in the row of tries.
#[derive(Clone, Copy)]
pub struct Reached {
    pub waiting: usize,
    pub tried: usize,
}

// Notes a turn: a batch that stays is moved up in the queue, and a try is written, twice the place, plus 1 for a pass.
fn note(
    step: Step,
    place: u64,
    queue: &mut [u64],
    waiting: usize,
    tries: &mut [u64],
    tried: usize,
) -> Reached
    requires { (place < 32) × (waiting < length queue.old) × (tried < length tries.old) }
    ensures { Noted step place queue.old waiting tries.old tried queue.new result.waiting tries.new result.tried }
{
    match step {
        Step::Omitted => {
            queue[waiting] = place;
            Reached {
                waiting: waiting + 1,
                tried,
            }
        }
        Step::Failed => {
            queue[waiting] = place;
            tries[tried] = 2 * place;
            Reached {
                waiting: waiting + 1,
                tried: tried + 1,
            }
        }
        Step::Passed => {
            tries[tried] = 2 * place + 1;
            Reached {
                waiting,
                tried: tried + 1,
            }
        }
    }
}

// One walk over the queue, from its head.
fn walk(
    quick: bool,
    balances: &mut [u64],
    sublimits: &[u64],
    batches: &[u64],
    memory: &mut [u64],
    queue: &mut [u64],
    waiting: usize,
    tries: &mut [u64],
    tried: usize,
) -> Reached
    requires books { Books balances.old sublimits.now }
    requires all_good { AllGood batches.now (take waiting queue.old) }
    requires memory_len { (length memory.old ≡ 32) × (waiting ≤ length queue.old) × (tried + waiting ≤ length tries.old) }
    ensures { Walked (walk quick (row_payments batches.now) (accounts balances.old sublimits.now) memory.old (take waiting queue.old)) sublimits.now queue.old tries.old tried balances.new memory.new queue.new result.waiting tries.new result.tried }
{
    let mut kept = 0;
    let mut at = tried;
    for i in 0..waiting {
        let place = queue[i];
        let step = attempt(quick, balances, sublimits, batches, memory, place as usize);
        let reached = note(step, place, queue, kept, tries, at);
        kept = reached.waiting;
        at = reached.tried;
    }
    Reached {
        waiting: kept,
        tried: at,
    }
}

// The plain or the quick test: walks until one settles nothing.
pub fn run(
    quick: bool,
    balances: &mut [u64],
    sublimits: &[u64],
    batches: &[u64],
    memory: &mut [u64],
    queue: &mut [u64],
    waiting: usize,
    tries: &mut [u64],
    tried: usize,
) -> Reached
    requires books { Books balances.old sublimits.now }
    requires all_good { AllGood batches.now (take waiting queue.old) }
    requires memory_len { (length memory.old ≡ 32) × (waiting ≤ length queue.old) × (tried + most waiting ≤ length tries.old) }
    ensures { Tested (test quick (row_payments batches.now) (fuel (take waiting queue.old)) (accounts balances.old sublimits.now) memory.old (take waiting queue.old)) sublimits.now queue.old waiting tries.old tried balances.new memory.new queue.new result.waiting tries.new result.tried }
{
    let mut left = waiting;
    let mut at = tried;
    // Kept: nothing is counted here. It ends with a walk that settles nothing.
    loop {
        let reached = walk(
            quick, balances, sublimits, batches, memory, queue, left, tries, at,
        );
        at = reached.tried;
        let kept = reached.waiting;
        if kept == left {
            return Reached {
                waiting: kept,
                tried: at,
            };
        }
        left = kept;
    }
}

// Runs of settlements on the row of records. Standard input has lines, each a letter and its numbers:
//
//     a PLACE CODE FLAGS BALANCE LIMIT    an account, made of values that nobody has tested
//     w INDEX VALUE                       a word of the batches' table
//     s PLACE                             the batch at a place is settled
//     p                                   the accounts that have a code are printed
//
// `a` and `s` are answered with 00, or with the number of the refusal.
#![tactic(auto)]

use call_records::Account;
use chars::Refusal;
use cli_files::numbers::Numbers;
use cli_files::{Console, numbers};

const WORDS: usize = 11_168;

fn index(x: u64) -> usize {
    x as usize
}

fn answer(console: &Console, letter: char, place: u64, number: u64) {
    cli_print::line(console, format_args!("{letter} {place} {number:02}"));
}

fn refuse(console: &Console, letter: char, place: u64, why: Refusal) {
    answer(console, letter, place, why.number());
}

fn store(console: &Console, row: &mut [Account; 64], place: u64, account: Account) {
    let i = index(place);
    if i < Account::ROW {
        row[i] = account;
        answer(console, 'a', place, 0);
    } else {
        refuse(console, 'a', place, Refusal::OutOfRange);
    }
}

fn open_account(console: &Console, row: &mut [Account; 64], n: Numbers) {
    match Account::new(n.b, n.c, n.d, n.e) {
        Ok(account) => store(console, row, n.a, account),
        Err(why) => refuse(console, 'a', n.a, why),
    }
}

fn set_word(words: &mut [u64], at: usize, value: u64) {
    if let Some(word) = words.get_mut(at) {
        *word = value;
    }
}

fn settle(console: &Console, row: &mut [Account; 64], batches: &[u64], place: u64) {
    let left = settle_records::settle_batch(*row, batches, index(place));
    let after = left.row;
    *row = after;
    match left.answer {
        Ok(()) => answer(console, 's', place, 0),
        Err(why) => refuse(console, 's', place, why),
    }
}

fn show(console: &Console, row: &[Account; 64]) {
    for (i, account) in row.iter().enumerate() {
        let Account {
            code,
            flags,
            balance,
            sublimit,
            ..
        } = *account;
        if code != 0 {
            cli_print::line(
                console,
                format_args!("{i} {code} {flags} {balance} {sublimit}"),
            );
        }
    }
}

fn read_line(console: &Console, line: &[u8], row: &mut [Account; 64], batches: &mut [u64]) {
    if line.len() == 0 {
        return;
    }
    let n = numbers::last(line);
    match line[0] {
        b'a' => open_account(console, row, n),
        b'p' => show(console, row),
        b's' => settle(console, row, batches, n.e),
        b'w' => set_word(batches, index(n.d), n.e),
        _ => (),
    }
}

fn run(console: &Console, text: &[u8]) {
    let mut batches = [0u64; WORDS];
    let none = Account {
        code: 0,
        flags: 0,
        balance: 0,
        sublimit: 0,
        waiting: 0,
    };
    let mut row = [none; 64];
    for line in text.split(|&byte| byte == b'\n') {
        read_line(console, line, &mut row, &mut batches);
    }
}

fn main(rt: HostRuntime) {
    let mut text = [0u8; 65536];
    let length = cli_files::read_full(&mut rt.stdin(), &mut text);
    let console = Console::new(rt.stdout(), rt.stderr());
    run(&console, &text[..length]);
    console.tell_status(&rt);
}

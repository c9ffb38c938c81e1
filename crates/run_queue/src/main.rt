// Runs of the queue. Standard input is a script of numbers, four to a line; standard output tells what the two tests make of it.
//
//     1 0 0 0                  begin anew
//     2 BANK CENTS 0           a bank's balance
//     3 BANK CENTS 0           an accepted sub-limit change
//     4 PLACE 0 0              a batch joins the queue's tail
//     5 BANK CENTS LETTER      one more payment of the batch that joined last; LETTER 0 is a credit
//     6 PLACE BANK LETTER      an accepted status change
//     7 0 0 0                  the plain test
//     8 0 0 0                  the quick test
//
// After a test stand four lines: tries, places that wait, memory, and balances of the first banks.
#![tactic(auto)]

mod line;
mod rows;
mod rules;

use std::io;

fn main(rt: HostRuntime) -> io::Result<()> {
    let mut text = [0u8; 65536];
    let length = cli_files::read_full(&mut rt.stdin(), &mut text);
    let mut numbers = [0u64; 8192];
    let count = line::read(&text[..length], &mut numbers);
    rows::run(&rt, &numbers, count)
}

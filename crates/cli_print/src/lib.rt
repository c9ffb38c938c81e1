// Words and numbers on standard output, as the programs tell them.
#![tactic(auto)]

use chars::Refusal;
use cli_files::Console;
use std::fmt::Display;

mod rows;
mod words;

pub use rows::{Row, begin};
pub use words::{EsaLetter, Letters, LongCode, ShortCode};

pub fn text(console: &Console, b: &[u8]) {
    cli_files::print(console, b);
}

// The first n bytes.
pub fn first(console: &Console, b: &[u8], n: usize) {
    if n <= b.len() {
        text(console, &b[..n]);
    }
}

// What is told on a line of its own.
pub fn line(console: &Console, what: impl Display + Drop) {
    let mut row = begin(console);
    row.put(what);
    row.print_line();
}

pub fn refused(console: &Console, why: Refusal) {
    line(console, format_args!("refused {:02}", why.number()));
    cli_files::tell_refusal(console);
}

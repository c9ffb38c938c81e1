// The book whose account is given.
use book_read::Book;
use cli_book::{BookAccount, Wanted};
use cli_files::Console;
use std::fmt;
use std::fmt::Write;

// Whether an account is one of a book, by its first line.
pub fn is_book(s: &[u8]) -> bool {
    text_scan::lit(s, cli_request::first_line(s), b"accepted book").is_some()
}

// What a line of a book's account should say.
#[derive(Clone, Copy)]
struct Words(Wanted);

impl fmt::Display for Words {
    fn fmt<W: fmt::Write>(&self, f: &mut fmt::Formatter<W>) -> fmt::Result {
        f.write_str(match self.0 {
            Wanted::Title => "accepted book",
            Wanted::Date => "date and the six digits of a true date, YYMMDD",
            Wanted::Stream => "stream CODE ADMINISTRATOR",
            Wanted::StreamOrBank =>
                "stream CODE ADMINISTRATOR or bank CODE active|suspended BALANCE SUBLIMIT STREAM..",
            Wanted::BankOrTotal =>
                "bank CODE active|suspended BALANCE SUBLIMIT STREAM.. or total CENTS",
            Wanted::Sum => "the sum of the balances",
            Wanted::Nothing => "no further line",
        })
    }
}

// The bytes of a book that the book's check finds sound.
fn show(console: &Console, book: &[u8]) {
    match book_read::check(book) {
        Err(why) => crate::say_refused(console, why),
        Ok(()) => cli_print::text(console, book),
    }
}

fn show_first(console: &Console, out: &[u8], n: usize) {
    if n <= out.len() {
        show(console, &out[..n]);
    }
}

fn write_book(console: &Console, account: BookAccount) {
    let streams = account.streams;
    let banks = account.banks;
    let row = streams.row;
    let codes = banks.codes;
    let flags = banks.flags;
    let balances = banks.balances;
    let sublimits = banks.sublimits;
    let book = Book {
        day: account.day,
        streams: streams.n,
        banks: banks.n,
    };
    let mut out = [0u8; 2560];
    match book_write::write(&mut out, book, &row, &codes, &flags, &balances, &sublimits) {
        Err(why) => crate::say_refused(console, why),
        Ok(n) => show_first(console, &out, n),
    }
}

// The account whose first line is the file's line `first`.
pub fn compose(console: &Console, s: &[u8], first: usize) {
    let account = cli_book::read_account(s);
    match account.stop {
        Err((at, wanted)) => crate::say_expecting(console, s, first, at, Words(wanted)),
        Ok(()) => write_book(console, account),
    }
}

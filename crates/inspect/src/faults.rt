// Where a refused book breaks, in words.
use book_explain::{Flaw, Spot};
use cli_files::Console;
use std::fmt;
use std::fmt::Write;

// What is wrong there.
#[derive(Clone, Copy)]
struct Words(Flaw);

impl fmt::Display for Words {
    fn fmt<W: fmt::Write>(&self, f: &mut fmt::Formatter<W>) -> fmt::Result {
        f.write_str(match self.0 {
            Flaw::WrongLength => "the length is not 2 to 5 blocks of 512 bytes",
            Flaw::WrongSum => "the check does not fit",
            Flaw::WrongHead => "the head is not that of this block",
            Flaw::WrongCount => "the count of entries is out of range",
            Flaw::UntrueDate => "the date is not a true one",
            Flaw::AfterDate => "the bytes behind the date are not zero",
            Flaw::Unused => "unused bytes are not zero",
            Flaw::NoCode => "the code is not four of A-Z 0-9",
            Flaw::NotAbove => "the code is not above the one before",
            Flaw::NoAdministrator => "the administrator is 0",
            Flaw::WrongFlag => "the flag is neither 0 nor 1",
            Flaw::NoStream => "a stream bit has no stream",
            Flaw::EntryZeros => "bytes that must be zero are not",
            Flaw::HighBalance => "the balance is out of range",
            Flaw::HighSublimit => "the sub-limit is out of range",
            Flaw::HighTotal => "the total of the balances is out of range",
        })
    }
}

// Where it is: in the whole book, in a block, or in an entry of a block.
#[derive(Clone, Copy)]
struct Place(Spot);

impl fmt::Display for Place {
    fn fmt<W: fmt::Write>(&self, f: &mut fmt::Formatter<W>) -> fmt::Result {
        let Spot { block, entry, flaw } = self.0;
        match flaw {
            Flaw::WrongLength | Flaw::HighTotal => f.write_str("the book"),
            Flaw::WrongSum
            | Flaw::WrongHead
            | Flaw::WrongCount
            | Flaw::UntrueDate
            | Flaw::AfterDate
            | Flaw::Unused => write!(f, "block {block}"),
            _ => write!(f, "block {block}, entry {entry}"),
        }
    }
}

// The first test that a book fails.
pub fn show(console: &Console, s: &[u8]) {
    if let Err(spot) = book_explain::find(s) {
        cli_print::line(
            console,
            format_args!("at {}: {}", Place(spot), Words(spot.flaw)),
        );
    }
}

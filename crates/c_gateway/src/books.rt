// Where a book breaks, for a program in C.
ghost use Rattle.std.specs.Prelude.{◌≡◌, ◌≤◌, length};
ghost use Rattle.std.proofs.lemmas.List.Edits.{sets};
ghost use Rattle.c_gateway.specs.Faults.{flaw_number, spot_words, finding_number, finding_words, fault_number, fault_row};

use book_explain::{Flaw, Spot};
use chars::Refusal;

// Words of the row of a fault, and which is which.
pub const FAULT_WORDS: usize = 3;

pub const FAULT_BLOCK: usize = 0;

pub const FAULT_ENTRY: usize = 1;

pub const FAULT_TEST: usize = 2;

// The tests of a book, in the order in which they are made.
pub const TEST_LENGTH: u64 = 1;

pub const TEST_CHECK: u64 = 2;

pub const TEST_HEAD: u64 = 3;

pub const TEST_COUNT: u64 = 4;

pub const TEST_DATE: u64 = 5;

pub const TEST_AFTER_DATE: u64 = 6;

pub const TEST_UNUSED: u64 = 7;

pub const TEST_CODE: u64 = 8;

pub const TEST_ORDER: u64 = 9;

pub const TEST_ADMINISTRATOR: u64 = 10;

pub const TEST_FLAG: u64 = 11;

pub const TEST_STREAM_BIT: u64 = 12;

pub const TEST_ZEROS: u64 = 13;

pub const TEST_BALANCE: u64 = 14;

pub const TEST_SUB_LIMIT: u64 = 15;

pub const TEST_TOTAL: u64 = 16;

fn flaw_number(f: Flaw) -> u64
    ensures { result ≡ flaw_number f }
{
    match f {
        Flaw::WrongLength => TEST_LENGTH,
        Flaw::WrongSum => TEST_CHECK,
        Flaw::WrongHead => TEST_HEAD,
        Flaw::WrongCount => TEST_COUNT,
        Flaw::UntrueDate => TEST_DATE,
        Flaw::AfterDate => TEST_AFTER_DATE,
        Flaw::Unused => TEST_UNUSED,
        Flaw::NoCode => TEST_CODE,
        Flaw::NotAbove => TEST_ORDER,
        Flaw::NoAdministrator => TEST_ADMINISTRATOR,
        Flaw::WrongFlag => TEST_FLAG,
        Flaw::NoStream => TEST_STREAM_BIT,
        Flaw::EntryZeros => TEST_ZEROS,
        Flaw::HighBalance => TEST_BALANCE,
        Flaw::HighSublimit => TEST_SUB_LIMIT,
        Flaw::HighTotal => TEST_TOTAL,
    }
}

fn put_words(row: &mut [u64], block: u64, entry: u64, test: u64)
    requires { 3 ≤ length row.old }
    ensures { row.new ≡ sets row.old 0 (spot_words block entry test) }
{
    row[FAULT_BLOCK] = block;
    row[FAULT_ENTRY] = entry;
    row[FAULT_TEST] = test;
}

fn put_spot(row: &mut [u64], p: Spot) -> u64
    requires { 3 ≤ length row.old }
    ensures { (result ≡ finding_number (Err p)) × (row.new ≡ sets row.old 0 (finding_words (Err p))) }
{
    let flaw = p.flaw;
    put_words(row, p.block as u64, p.entry as u64, flaw_number(flaw));
    flaw.refusal().number()
}

fn put_finding(row: &mut [u64], f: Result<(), Spot>) -> u64
    requires { 3 ≤ length row.old }
    ensures { (result ≡ finding_number f) × (row.new ≡ sets row.old 0 (finding_words f)) }
{
    match f {
        Ok(()) => {
            put_words(row, 0, 0, 0);
            0
        }
        Err(p) => put_spot(row, p),
    }
}

// Finds where a book breaks: the number of its check, and block, entry and test of the first rule that
// it breaks in the row, zeros for a sound book. A row that is too short is not touched, whatever the book.
pub fn purmagheli_find_book_fault(book: &[u8], row: &mut [u64]) -> u64
    ensures { (result ≡ fault_number book.now row.old) × (row.new ≡ fault_row book.now row.old) }
{
    if row.len() < FAULT_WORDS {
        return Refusal::ShortBuffer.number();
    }
    put_finding(row, book_explain::find(book))
}

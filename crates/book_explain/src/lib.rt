// Where a book breaks: the block, the entry and the test that decide the number of the book's check.
#![tactic(auto)]

ghost use Rattle.std.specs.Prelude.{◌≡◌, ℕ, List, [], ◌∷◌, ◌+◌, ◌*◌, ◌-◌, ◌≤◌, ◌<◌};
ghost use Rattle.book_explain.specs.Faults.{Test, Finding, test, first_failed, refusal_of, head_tests, date_tests, stream_entry, money_tests, bank_entry, entry_tests, stream_tests, bank_tests, bank_block_tests, book_finding};

use book_read::Book;
use chars::Refusal;

// The tests of a book, in the order in which they are made.
#[derive(Clone, Copy)]
pub enum Flaw {
    WrongLength,
    WrongSum,
    WrongHead,
    WrongCount,
    UntrueDate,
    AfterDate,
    Unused,
    NoCode,
    NotAbove,
    NoAdministrator,
    WrongFlag,
    NoStream,
    EntryZeros,
    HighBalance,
    HighSublimit,
    HighTotal,
}

impl Flaw {
    // The refusal of the book's check that the test gives where it fails.
    pub fn refusal(self) -> Refusal
        ensures { result ≡ refusal_of self }
    {
        match self {
            Flaw::WrongLength => Refusal::BookLength,
            Flaw::WrongSum => Refusal::BookCheck,
            Flaw::WrongHead => Refusal::BookHeader,
            Flaw::WrongCount => Refusal::BookHeader,
            Flaw::UntrueDate => Refusal::BookHeader,
            Flaw::AfterDate => Refusal::BookHeader,
            Flaw::Unused => Refusal::BookHeader,
            Flaw::NoCode => Refusal::OutOfRange,
            Flaw::NotAbove => Refusal::OutOfRange,
            Flaw::NoAdministrator => Refusal::OutOfRange,
            Flaw::WrongFlag => Refusal::OutOfRange,
            Flaw::NoStream => Refusal::OutOfRange,
            Flaw::EntryZeros => Refusal::OutOfRange,
            Flaw::HighBalance => Refusal::OutOfRange,
            Flaw::HighSublimit => Refusal::OutOfRange,
            Flaw::HighTotal => Refusal::BookTotal,
        }
    }
}

// A test that fails: the block, the entry in it (0 where the test is not one of an entry), and which test.
#[derive(Clone, Copy)]
pub struct Spot {
    pub block: usize,
    pub entry: usize,
    pub flaw: Flaw,
}

// One test of the book.
#[tactic(auto, unfolding(crate::specs::Faults::first_failed))]
fn test(block: usize, entry: usize, holds: bool, flaw: Flaw) -> Result<(), Spot>
    ensures { result ≡ first_failed (test block entry holds flaw ∷ []) }
{
    if holds {
        Ok(())
    } else {
        Err(Spot { block, entry, flaw })
    }
}

// The check of block k, and the bytes of its head.
#[tactic(auto, unfolding(crate::specs::Faults::first_failed))]
fn head_found(s: &[u8], k: usize, letter: u8, blocks: u8) -> Result<(), Spot>
    requires { k < 5 }
    ensures { result ≡ first_failed (head_tests s.now k letter blocks) }
{
    let at = Book::BLOCK * k;
    test(k, 0, book_read::check_right(s, at), Flaw::WrongSum)?;
    test(
        k,
        0,
        book_read::head_right(s, at, letter, k as u8, blocks),
        Flaw::WrongHead,
    )
}

// The count of streams, the date and the two bytes behind it.
#[tactic(auto, unfolding(crate::specs::Faults::first_failed))]
fn date_found(s: &[u8]) -> Result<(), Spot>
    ensures { result ≡ first_failed (date_tests s.now) }
{
    let n = book_read::entries(s, 0);
    test(0, 0, 1 <= n && n <= Book::STREAMS, Flaw::WrongCount)?;
    test(0, 0, book_read::date_in(s).is_some(), Flaw::UntrueDate)?;
    test(0, 0, book_read::zeros(s, 14, 2), Flaw::AfterDate)
}

// Entry i of the block of streams, behind an entry with the code before.
#[tactic(auto, unfolding(crate::specs::Faults::first_failed))]
fn stream_found(s: &[u8], i: usize, before: u64, at: usize) -> Result<(), Spot>
    requires { at ≤ 16384 }
    ensures { result ≡ first_failed (stream_entry s.now i before at) }
{
    test(0, i, text_scan::code(s, at, 4).is_some(), Flaw::NoCode)?;
    test(0, i, before < codes::short_code(s, at), Flaw::NotAbove)?;
    test(0, i, 1 <= book_read::byte(s, at + 4), Flaw::NoAdministrator)?;
    test(0, i, book_read::zeros(s, at + 5, 3), Flaw::EntryZeros)
}

// Balance and sub-limit of entry i of block k.
#[tactic(auto, unfolding(crate::specs::Faults::first_failed))]
fn money_found(s: &[u8], k: usize, i: usize, at: usize) -> Result<(), Spot>
    requires { at ≤ 16384 }
    ensures { result ≡ first_failed (money_tests s.now k i at) }
{
    test(
        k,
        i,
        book_read::little_at(s, at + 8, 8) <= Book::MOST,
        Flaw::HighBalance,
    )?;
    test(
        k,
        i,
        book_read::little_at(s, at + 16, 8) <= Book::MOST,
        Flaw::HighSublimit,
    )
}

// Entry i of block k, one of banks, behind an entry with the code before.
#[tactic(auto, unfolding(crate::specs::Faults::first_failed))]
fn bank_found(
    s: &[u8],
    streams: usize,
    k: usize,
    i: usize,
    before: u64,
    at: usize,
) -> Result<(), Spot>
    requires { at ≤ 16384 }
    ensures { result ≡ first_failed (bank_entry s.now streams k i before at) }
{
    let bits = book_read::byte(s, at + 5) as u64;
    test(k, i, text_scan::code(s, at, 4).is_some(), Flaw::NoCode)?;
    test(k, i, before < codes::short_code(s, at), Flaw::NotAbove)?;
    test(k, i, book_read::byte(s, at + 4) <= 1, Flaw::WrongFlag)?;
    test(
        k,
        i,
        book_read::bits_past(streams, bits) == 0,
        Flaw::NoStream,
    )?;
    test(k, i, book_read::zeros(s, at + 6, 2), Flaw::EntryZeros)?;
    money_found(s, k, i, at)
}

// n entries from a place on, each judged by its number, the code before it and its place.
fn entries_found<F: Fn(usize, u64, usize) -> Result<(), Spot>>(
    s: &[u8],
    from: usize,
    width: usize,
    first: u64,
    n: usize,
    found: F,
) -> Result<(), Spot>
    requires bounds { (from ≤ 4096) × (width ≤ 24) × (n < 256) }
    requires callable { (i before at : ℕ) → at ≤ 16384 → F.pre found i before at }
    ensures { (tests : ℕ → ℕ → ℕ → List Test) → ((i before at : ℕ) (r : Finding) → at ≤ 16384 → F.post found i before at r → r ≡ first_failed (tests i before at)) → result ≡ first_failed (entry_tests s.now width tests 0 first from n) }
{
    let mut before = first;
    for i in 0..n {
        let at = from + width * i;
        found(i, before, at)?;
        before = codes::short_code(s, at);
    }
    Ok(())
}

fn streams_found(s: &[u8], n: usize) -> Result<(), Spot>
    requires { n < 256 }
    ensures { result ≡ first_failed (entry_tests s.now 8 (stream_entry s.now) 0 0 16 n) }
{
    entries_found(
        s,
        Book::STREAMS_AT,
        Book::STREAM,
        0,
        n,
        |i, before, at| stream_found(s, i, before, at),
    )
}

// The first n entries of block k, one of banks, behind a block whose last code is the one before.
fn banks_found(s: &[u8], streams: usize, k: usize, first: u64, n: usize) -> Result<(), Spot>
    requires { (k < 5) × (n < 256) }
    ensures { result ≡ first_failed (entry_tests s.now 24 (bank_entry s.now streams k) 0 first (512 * k + 8) n) }
{
    let from = Book::BLOCK * k + Book::BANKS_AT;
    entries_found(
        s,
        from,
        Book::BANK,
        first,
        n,
        |i, before, at| bank_found(s, streams, k, i, before, at),
    )
}

#[tactic(auto, unfolding(crate::specs::Faults::stream_tests, crate::specs::Faults::first_failed))]
fn stream_block(s: &[u8], blocks: u8) -> Result<(), Spot>
    ensures { result ≡ first_failed (stream_tests s.now blocks) }
{
    head_found(s, 0, b'S', blocks)?;
    date_found(s)?;
    let n = book_read::entries(s, 0);
    let unused = book_read::unused_right(s, 0, Book::STREAMS_AT + Book::STREAM * n);
    test(0, 0, unused, Flaw::Unused)?;
    streams_found(s, n)
}

#[tactic(auto, unfolding(crate::specs::Faults::bank_tests, crate::specs::Faults::first_failed))]
fn bank_block(s: &[u8], blocks: usize, k: usize) -> Result<(), Spot>
    requires { (blocks ≤ 5) × (1 ≤ k) × (k < 5) }
    ensures { result ≡ first_failed (bank_tests s.now blocks k) }
{
    head_found(s, k, b'B', blocks as u8)?;
    let at = Book::BLOCK * k;
    let n = book_read::entries(s, at);
    test(
        k,
        0,
        book_read::banks_counted(blocks, k, n),
        Flaw::WrongCount,
    )?;
    let unused = book_read::unused_right(s, at, Book::BANKS_AT + Book::BANK * n);
    test(k, 0, unused, Flaw::Unused)?;
    let streams = book_read::entries(s, 0);
    banks_found(s, streams, k, book_read::code_before(s, k), n)
}

fn bank_blocks(s: &[u8], blocks: usize) -> Result<(), Spot>
    requires { (1 ≤ blocks) × (blocks ≤ 5) }
    ensures { result ≡ first_failed (bank_block_tests s.now blocks 1 (blocks - 1)) }
{
    for k in 1..blocks {
        bank_block(s, blocks, k)?;
    }
    Ok(())
}

// The first test of the book that fails, in the order of the book's check.
pub fn find(book: &[u8]) -> Result<(), Spot>
    ensures { result ≡ book_finding book.now }
{
    let blocks = book.len() / Book::BLOCK;
    if book.len() % Book::BLOCK != 0 || blocks < 2 || 5 < blocks {
        let (block, entry, flaw) = (0, 0, Flaw::WrongLength);
        return Err(Spot { block, entry, flaw });
    }
    stream_block(book, blocks as u8)?;
    bank_blocks(book, blocks)?;
    let total = book_read::total_right(book, book_read::bank_count(book, blocks));
    test(0, 0, total, Flaw::HighTotal)
}

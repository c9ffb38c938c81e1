// The book: blocks of 512 bytes with the date, the streams and the banks. Its check and its reading.
#![tactic(auto)]

ghost use Rattle.std.specs.Prelude.{◌≡◌, ℕ, Bool, true, ◌&&◌, eqb, min, ◌+◌, ◌*◌, ◌-◌, ◌≤◌, ◌<◌, ◌^◌, length, get_or, set, drop, replicate, Ok};
ghost use Rattle.std.proofs.lemmas.List.Edits.{sets};
ghost use Rattle.book_read.specs.Block.{first_broken, little, entries_at, head_right, zeros_at, unused_right, header_right, check_right, entries_right};
ghost use Rattle.checksum.specs.Sum.{block_sum};
ghost use Rattle.book_read.specs.Accounts.{stream_at, bank_at, stream_row, field_of, day_in, room_for, rows_of, filled_book, read_book};
ghost use Rattle.book_read.specs.Book.{each, code_right, date_in, streams_counted, banks_counted, stream_right, bits_past, balance_at, bank_right, stream_rules, code_before, bank_rules, bank_blocks, bank_place, bank_count, total_right, book_check};

use chars::Refusal;

// The day, and how many streams and banks a book has.
#[derive(Clone, Copy)]
pub struct Book {
    pub day: u64,
    pub streams: usize,
    pub banks: usize,
}

impl Book {
    // How each block begins.
    pub const MARK: [u8; 2] = *b"BF";

    // Bytes of a block, of its words before the check, and of a stream's and a bank's entry.
    pub const BLOCK: usize = 512;

    pub const CHECKED: usize = 508;

    pub const STREAM: usize = 8;

    pub const BANK: usize = 24;

    // Where the entries of streams and of banks begin in their block.
    pub const STREAMS_AT: usize = 16;

    pub const BANKS_AT: usize = 8;

    // Banks in a full block, and streams and banks at the most.
    pub const ENTRIES: usize = 20;

    pub const STREAMS: usize = 8;

    pub const BANKS: usize = 64;

    // Cents of a balance, of a sub-limit and of the balances' total at the most.
    pub const MOST: u64 = 6_400_000_000_000_000;
}

// The byte at a place; 0 past the end.
pub fn byte(s: &[u8], at: usize) -> u8
    ensures { result ≡ get_or s.now at 0 }
{
    if at < s.len() { s[at] } else { 0 }
}

// The w bytes at a place as a number, little-endian; those past the end are 0.
pub fn little_at(s: &[u8], at: usize, w: usize) -> u64
    requires { (at ≤ 65536) × (w ≤ 8) }
    ensures { result ≡ little w (drop at s.now) }
{
    let mut v: u64 = 0;
    for i in (0..w).rev() {
        v = v * 256 + u64::from(byte(s, at + i));
    }
    v
}

// Eight bytes that are there.
fn eight_at(s: &[u8], at: usize) -> u64
    requires { at + 8 ≤ length s.now }
    ensures { result ≡ little 8 (drop at s.now) }
{
    u64::from_le_bytes([
        s[at],
        s[at + 1],
        s[at + 2],
        s[at + 3],
        s[at + 4],
        s[at + 5],
        s[at + 6],
        s[at + 7],
    ])
}

// The cents at a place: eight bytes, at once where they are there.
fn money_at(s: &[u8], at: usize) -> u64
    requires { at ≤ 65536 }
    ensures { result ≡ little 8 (drop at s.now) }
{
    if at + 8 <= s.len() {
        return eight_at(s, at);
    }
    little_at(s, at, 8)
}

// To the end, whatever it meets: several bytes are then looked at at once, and nearly all of them are zero.
fn all_zero(s: &[u8], at: usize, n: usize) -> bool
    requires { at + n ≤ length s.now }
    ensures { result ≡ zeros_at s.now at n }
{
    let mut all = true;
    for j in at..at + n {
        all &= s[j] == 0;
    }
    all
}

// Whether n zeros stand at a place.
pub fn zeros(s: &[u8], at: usize, n: usize) -> bool
    ensures { result ≡ zeros_at s.now at n }
{
    if n <= s.len() && at <= s.len() - n {
        all_zero(s, at, n)
    } else {
        n == 0
    }
}

#[tactic(auto, unfolding(crate::specs::Block::check_right))]
pub fn check_right(s: &[u8], at: usize) -> bool
    requires { at ≤ 2560 }
    ensures { result ≡ check_right s.now at }
{
    little_at(s, at + Book::CHECKED, 4) == checksum::block_sum(s, at) as u64
}

// How many entries the block at a place says that it has.
pub fn entries(s: &[u8], at: usize) -> usize
    requires { at ≤ 2560 }
    ensures value { result ≡ entries_at s.now at }
    ensures small { result < 256 }
{
    byte(s, at + 4) as usize
}

#[tactic(auto, using(crate::proofs::Leaves::head_is))]
pub fn head_right(s: &[u8], at: usize, letter: u8, number: u8, blocks: u8) -> bool
    requires { at ≤ 2560 }
    ensures { result ≡ head_right s.now at letter number blocks }
{
    let head = [
        Book::MARK[0],
        Book::MARK[1],
        letter,
        number,
        byte(s, at + 4),
        blocks,
        0,
        0,
    ];
    text_scan::lit(s, at, &head).is_some()
}

// From the end of the entries to the check.
#[tactic(auto, using(crate::proofs::Leaves::unused_none), unfolding(crate::specs::Block::unused_right))]
pub fn unused_right(s: &[u8], at: usize, end: usize) -> bool
    requires { (at ≤ 2560) × (end ≤ 8192) }
    ensures { result ≡ unused_right s.now at end }
{
    Book::CHECKED <= end || zeros(s, at + end, Book::CHECKED - end)
}

// The header of a block whose counts were judged before, and its unused bytes.
#[tactic(auto, unfolding(crate::specs::Block::header_right))]
fn header_right(
    s: &[u8],
    at: usize,
    letter: u8,
    number: u8,
    blocks: u8,
    counted: bool,
    first: usize,
    width: usize,
) -> bool
    requires { (at ≤ 2560) × (first ≤ 16) × (width ≤ 24) }
    ensures { result ≡ header_right s.now at letter number blocks counted first width }
{
    head_right(s, at, letter, number, blocks)
        && counted
        && unused_right(s, at, first + width * entries(s, at))
}

// The day number of the book's date.
#[tactic(auto, unfolding(crate::specs::Book::date_in))]
pub fn date_in(s: &[u8]) -> Option<u64>
    ensures { result ≡ date_in s.now }
{
    let (v, _) = text_scan::number(s, 8, 6)?;
    dates::day_of(v)
}

#[tactic(auto, unfolding(crate::specs::Book::streams_counted))]
fn streams_counted(s: &[u8]) -> bool
    ensures { result ≡ streams_counted s.now }
{
    let n = entries(s, 0);
    1 <= n && n <= Book::STREAMS && date_in(s).is_some() && zeros(s, 14, 2)
}

#[tactic(auto, unfolding(crate::specs::Book::banks_counted))]
pub fn banks_counted(blocks: usize, k: usize, n: usize) -> bool
    requires { (1 ≤ k) × (k < 5) × (n < 256) }
    ensures { result ≡ banks_counted blocks k n }
{
    if k + 1 < blocks {
        return n == Book::ENTRIES;
    }
    1 <= n && n <= Book::ENTRIES && Book::ENTRIES * (k - 1) + n <= Book::BANKS
}

#[tactic(auto, unfolding(crate::specs::Book::stream_right))]
fn stream_right(s: &[u8], at: usize) -> bool
    requires { at ≤ 16384 }
    ensures { result ≡ stream_right s.now at }
{
    text_scan::code(s, at, 4).is_some() && 1 <= byte(s, at + 4) && zeros(s, at + 5, 3)
}

// The bits past the first n.
pub fn bits_past(n: usize, bits: u64) -> u64
    ensures { result ≡ bits_past n bits }
{
    let mut rest = bits;
    for _ in 0..n {
        rest /= 2;
    }
    rest
}

#[tactic(auto, unfolding(crate::specs::Book::bank_right))]
fn bank_right(s: &[u8], streams: usize, at: usize) -> bool
    requires { at ≤ 16384 }
    ensures { result ≡ bank_right s.now streams at }
{
    text_scan::code(s, at, 4).is_some()
        && byte(s, at + 4) <= 1
        && bits_past(streams, u64::from(byte(s, at + 5))) == 0
        && zeros(s, at + 6, 2)
        && money_at(s, at + 8) <= Book::MOST
        && money_at(s, at + 16) <= Book::MOST
}

// n entries from a place on: each has a code above the one before it and is right by itself.
fn entries_right<F: Fn(usize) -> bool>(
    s: &[u8],
    from: usize,
    width: usize,
    first: u64,
    n: usize,
    right: F,
) -> bool
    requires bounds { (from ≤ 4096) × (width ≤ 24) × (n < 256) }
    requires callable { (at : ℕ) → at ≤ 16384 → F.pre right at }
    ensures { (r : ℕ → Bool) → ((at : ℕ) (b : Bool) → at ≤ 16384 → F.post right at b → b ≡ r at) → result ≡ entries_right s.now width r first from n }
{
    let mut before = first;
    for i in 0..n {
        let at = from + width * i;
        let code = codes::short_code(s, at);
        if code <= before || !right(at) {
            return false;
        }
        before = code;
    }
    true
}

fn streams_right(s: &[u8], n: usize) -> bool
    requires { n < 256 }
    ensures { result ≡ entries_right s.now 8 (stream_right s.now) 0 16 n }
{
    entries_right(
        s,
        Book::STREAMS_AT,
        Book::STREAM,
        0,
        n,
        |at| stream_right(s, at),
    )
}

fn banks_right(s: &[u8], streams: usize, first: u64, from: usize, n: usize) -> bool
    requires { (from ≤ 4096) × (n < 256) }
    ensures { result ≡ entries_right s.now 24 (bank_right s.now streams) first from n }
{
    entries_right(
        s,
        from,
        Book::BANK,
        first,
        n,
        |at| bank_right(s, streams, at),
    )
}

// The first rule that the block of streams breaks.
#[tactic(auto, unfolding(crate::specs::Book::stream_rules, crate::specs::Block::first_broken))]
fn stream_block(s: &[u8], blocks: u8) -> Result<(), Refusal>
    ensures { result ≡ first_broken (stream_rules s.now blocks) }
{
    if !check_right(s, 0) {
        return Err(Refusal::BookCheck);
    }
    if !header_right(
        s,
        0,
        b'S',
        0,
        blocks,
        streams_counted(s),
        Book::STREAMS_AT,
        Book::STREAM,
    ) {
        return Err(Refusal::BookHeader);
    }
    if !streams_right(s, entries(s, 0)) {
        return Err(Refusal::OutOfRange);
    }
    Ok(())
}

// The code of the last bank of the block before; 0 before the first.
#[tactic(auto, unfolding(crate::specs::Book::code_before))]
pub fn code_before(s: &[u8], k: usize) -> u64
    requires { k < 5 }
    ensures { result ≡ code_before s.now k }
{
    if k <= 1 {
        return 0;
    }
    codes::short_code(s, Book::BLOCK * k - 48)
}

// The first rule that block k, one of banks, breaks.
#[tactic(auto, unfolding(crate::specs::Book::bank_rules, crate::specs::Block::first_broken))]
fn bank_block(s: &[u8], blocks: usize, k: usize) -> Result<(), Refusal>
    requires { (blocks ≤ 5) × (1 ≤ k) × (k < 5) }
    ensures { result ≡ first_broken (bank_rules s.now blocks k) }
{
    let at = Book::BLOCK * k;
    let n = entries(s, at);
    if !check_right(s, at) {
        return Err(Refusal::BookCheck);
    }
    let counted = banks_counted(blocks, k, n);
    if !header_right(
        s,
        at,
        b'B',
        k as u8,
        blocks as u8,
        counted,
        Book::BANKS_AT,
        Book::BANK,
    ) {
        return Err(Refusal::BookHeader);
    }
    if !banks_right(s, entries(s, 0), code_before(s, k), at + Book::BANKS_AT, n) {
        return Err(Refusal::OutOfRange);
    }
    Ok(())
}

// The first rule that a block of banks breaks.
fn bank_blocks(s: &[u8], blocks: usize) -> Result<(), Refusal>
    requires { (1 ≤ blocks) × (blocks ≤ 5) }
    ensures { result ≡ first_broken (bank_blocks s.now blocks 1 (blocks - 1)) }
{
    for k in 1..blocks {
        bank_block(s, blocks, k)?;
    }
    Ok(())
}

// The place of a bank's entry.
#[tactic(auto, unfolding(crate::specs::Book::bank_place))]
fn bank_place(i: usize) -> usize
    requires { i < 400 }
    ensures value { result ≡ bank_place i }
    ensures small { result ≤ 11000 }
{
    Book::BLOCK * (i / Book::ENTRIES + 1) + (Book::BANK * (i % Book::ENTRIES) + Book::BANKS_AT)
}

pub fn total_right(s: &[u8], n: usize) -> bool
    requires { n < 400 }
    ensures { result ≡ total_right s.now n }
{
    let mut total: u64 = 0;
    for i in 0..n {
        let balance = money_at(s, bank_place(i) + 8);
        if Book::MOST - total < balance {
            return false;
        }
        total += balance;
    }
    true
}

// How many banks a book of so many blocks has.
#[tactic(auto, unfolding(crate::specs::Book::bank_count))]
pub fn bank_count(s: &[u8], blocks: usize) -> usize
    requires { (2 ≤ blocks) × (blocks ≤ 5) }
    ensures value { result ≡ bank_count s.now blocks }
    ensures small { result < 400 }
{
    Book::ENTRIES * (blocks - 2) + entries(s, Book::BLOCK * (blocks - 1))
}

// The first rule that a book breaks: length 11; by block check 12, header 13, entries 14; total 15.
pub fn check(book: &[u8]) -> Result<(), Refusal>
    ensures { result ≡ book_check book.now }
{
    if book.len() % Book::BLOCK != 0 {
        return Err(Refusal::BookLength);
    }
    let blocks = book.len() / Book::BLOCK;
    if blocks < 2 || 5 < blocks {
        return Err(Refusal::BookLength);
    }
    stream_block(book, blocks as u8)?;
    bank_blocks(book, blocks)?;
    if !total_right(book, bank_count(book, blocks)) {
        return Err(Refusal::BookTotal);
    }
    Ok(())
}

// A column of the banks' rows. Flags are one number: 1 if the bank is suspended, and twice its stream bits.
#[derive(Clone, Copy)]
pub enum Field {
    Code,
    Flags,
    Balance,
    Sublimit,
}

// One field of the bank's entry at a place.
fn field_at(s: &[u8], at: usize, field: Field) -> u64
    requires { at ≤ 16384 }
    ensures { result ≡ field_of field (bank_at s.now at) }
{
    match field {
        Field::Code => codes::short_code(s, at),
        Field::Flags => u64::from(byte(s, at + 4)) + 2 * u64::from(byte(s, at + 5)),
        Field::Balance => money_at(s, at + 8),
        Field::Sublimit => money_at(s, at + 16),
    }
}

// One field of the first n banks into the first n places of a row.
fn read_column(s: &[u8], n: usize, field: Field, out: &mut [u64])
    requires { (n ≤ 64) × (64 ≤ length out.old) }
    ensures { out.new ≡ sets out.old 0 (each (λ i. field_of field (bank_at s.now (bank_place i))) 0 n) }
{
    for i in 0..n {
        out[i] = field_at(s, bank_place(i), field);
    }
}

// Code and administrator of the first n streams into the first places of a row.
fn read_streams(s: &[u8], n: usize, out: &mut [u64])
    requires { (n ≤ 8) × (16 ≤ length out.old) }
    ensures { out.new ≡ sets out.old 0 (stream_row (each (λ i. stream_at s.now (8 * i + 16)) 0 n)) }
{
    for i in 0..n {
        let at = Book::STREAM * i + Book::STREAMS_AT;
        out[2 * i] = codes::short_code(s, at);
        out[2 * i + 1] = u64::from(byte(s, at + 4));
    }
}

// The day number of the book's date; 0 for none.
#[tactic(auto, unfolding(crate::specs::Accounts::day_in))]
fn day_in(s: &[u8]) -> u64
    ensures { result ≡ day_in s.now }
{
    date_in(s).unwrap_or(0)
}

// Whether rows of these lengths hold 8 streams and 64 banks.
#[tactic(auto, unfolding(crate::specs::Accounts::room_for))]
fn rows_fit(streams: usize, codes: usize, flags: usize, balances: usize, sublimits: usize) -> bool
    ensures { result ≡ room_for streams codes flags balances sublimits }
{
    2 * Book::STREAMS <= streams
        && Book::BANKS <= codes
        && Book::BANKS <= flags
        && Book::BANKS <= balances
        && Book::BANKS <= sublimits
}

// The streams and banks of a sound book into the rows.
fn fill(
    book: &[u8],
    streams: &mut [u64],
    codes: &mut [u64],
    flags: &mut [u64],
    balances: &mut [u64],
    sublimits: &mut [u64],
) -> Book
    requires book_value { book_check book.now ≡ Ok tt }
    requires sublimits_value { room_for (length streams.old) (length codes.old) (length flags.old) (length balances.old) (length sublimits.old) ≡ true }
    ensures { record { rows = rows_of streams.new codes.new flags.new balances.new sublimits.new; answer = result } ≡ filled_book book.now (rows_of streams.old codes.old flags.old balances.old sublimits.old) }
{
    let n = entries(book, 0);
    let banks = bank_count(book, book.len() / Book::BLOCK);
    read_streams(book, n, streams);
    read_column(book, banks, Field::Code, codes);
    read_column(book, banks, Field::Flags, flags);
    read_column(book, banks, Field::Balance, balances);
    read_column(book, banks, Field::Sublimit, sublimits);
    Book {
        day: day_in(book),
        streams: n,
        banks,
    }
}

// The book's date, streams and banks into rows: code and administrator of each stream, a column for each field of the banks.
// 07 for rows that do not hold 8 streams and 64 banks, then 11 to 15; a refusal changes nothing, nor does reading past the counts.
pub fn read(
    book: &[u8],
    streams: &mut [u64],
    codes: &mut [u64],
    flags: &mut [u64],
    balances: &mut [u64],
    sublimits: &mut [u64],
) -> Result<Book, Refusal>
    ensures { record { rows = rows_of streams.new codes.new flags.new balances.new sublimits.new; answer = result } ≡ read_book book.now (rows_of streams.old codes.old flags.old balances.old sublimits.old) }
{
    if !rows_fit(
        streams.len(),
        codes.len(),
        flags.len(),
        balances.len(),
        sublimits.len(),
    ) {
        return Err(Refusal::ShortBuffer);
    }
    check(book)?;
    Ok(fill(book, streams, codes, flags, balances, sublimits))
}

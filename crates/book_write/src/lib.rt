// The closing book: its bytes into a lent buffer.
#![tactic(auto)]

ghost use Rattle.std.specs.Prelude.{◌≡◌, min, ◌+◌, ◌*◌, ◌-◌, ◌≤◌, ◌<◌, length, set, replicate};
ghost use Rattle.std.proofs.lemmas.List.Edits.{sets};
ghost use Rattle.checksum.specs.Sum.{block_sum};
ghost use Rattle.book_read.specs.Accounts.{rows_of};
ghost use Rattle.book_read.specs.Book.{each};
ghost use Rattle.book_write.specs.Closing.{little_of, stream_bytes, bank_bytes, joined, sealed_at, stream_block, bank_block, bank_blocks_of, blocks_for, holding_columns, holding_rows, write_book, stream_of, bank_of, Reaching};

use book_read::Book;
use chars::Refusal;

// One byte, if the buffer holds that place.
fn put_byte(out: &mut [u8], at: usize, b: u8)
    ensures { out.new ≡ set out.old at b }
{
    if at < out.len() {
        out[at] = b;
    }
}

// w bytes of a number, little-endian.
fn put_little(out: &mut [u8], at: usize, v: u64, w: usize)
    requires { (at ≤ 65536) × (w ≤ 8) }
    ensures { out.new ≡ sets out.old at (little_of w v) }
{
    let mut rest = v;
    for i in 0..w {
        put_byte(out, at + i, (rest % 256) as u8);
        rest /= 256;
    }
}

// n zeros.
fn put_zeros(out: &mut [u8], at: usize, n: usize)
    requires { (at ≤ 65536) × (n ≤ 512) }
    ensures { out.new ≡ sets out.old at (replicate n 0) }
{
    for i in 0..n {
        put_byte(out, at + i, 0);
    }
}

// A stream's entry.
fn put_stream(out: &mut [u8], at: usize, code: u64, sender: u64)
    requires { at ≤ 4096 }
    ensures { out.new ≡ sets out.old at (stream_bytes (record { code = code; sender = sender })) }
{
    text_put::short_code(out, at, code);
    text_put::bytes(out, at + 4, &[(sender % 256) as u8, 0, 0, 0]);
}

// A bank's entry.
fn put_bank(out: &mut [u8], at: usize, code: u64, flags: u64, balance: u64, sublimit: u64)
    requires { at ≤ 4096 }
    ensures { out.new ≡ sets out.old at (bank_bytes (record { code = code; flags = flags; balance = balance; sublimit = sublimit })) }
{
    text_put::short_code(out, at, code);
    text_put::bytes(
        out,
        at + 4,
        &[(flags % 2) as u8, (flags / 2 % 256) as u8, 0, 0],
    );
    put_little(out, at + 8, balance, 8);
    put_little(out, at + 16, sublimit, 8);
}

// The check of the block at a place.
fn put_check(out: &mut [u8], at: usize)
    requires { at ≤ 4096 }
    ensures { out.new ≡ sets out.old (at + 508) (little_of 4 (block_sum out.old at)) }
{
    let sum = checksum::block_sum(out, at) as u64;
    put_little(out, at + Book::CHECKED, sum, 4);
}

// The unused bytes and the check of the block at a place whose entries end at `end`.
fn seal(out: &mut [u8], at: usize, end: usize)
    requires { (at ≤ 4096) × (end ≤ 508) }
    ensures { out.new ≡ sealed_at out.old at end }
{
    put_zeros(out, at + end, Book::CHECKED - end);
    put_check(out, at);
}

// The entries of the first n streams of a row.
fn put_streams(out: &mut [u8], row: &[u64], n: usize)
    requires { (n ≤ 8) × (2 * n ≤ length row.now) }
    ensures { out.new ≡ sets out.old 16 (joined stream_bytes (each (stream_of row.now) 0 n)) }
{
    for i in 0..n {
        put_stream(
            out,
            Book::STREAMS_AT + Book::STREAM * i,
            row[2 * i],
            row[2 * i + 1],
        );
    }
}

// The entries of n banks from the one numbered `from` on.
fn put_banks(
    out: &mut [u8],
    at: usize,
    codes: &[u64],
    flags: &[u64],
    balances: &[u64],
    sublimits: &[u64],
    from: usize,
    n: usize,
)
    requires at_bound { (at ≤ 2600) × (n ≤ 20) }
    requires reaching { Reaching (from + n) codes.now flags.now balances.now sublimits.now }
    ensures { out.new ≡ sets out.old at (joined bank_bytes (each (bank_of codes.now flags.now balances.now sublimits.now) from n)) }
{
    for i in 0..n {
        let b = from + i;
        put_bank(
            out,
            at + Book::BANK * i,
            codes[b],
            flags[b],
            balances[b],
            sublimits[b],
        );
    }
}

// The block of streams.
fn put_stream_block(out: &mut [u8], day: u64, row: &[u64], n: usize, blocks: usize)
    requires { (n ≤ 8) × (2 * n ≤ length row.now) × (blocks ≤ 5) × (512 ≤ length out.old) }
    ensures { out.new ≡ sets out.old 0 (stream_block day (each (stream_of row.now) 0 n) blocks) }
{
    text_put::bytes(
        out,
        0,
        &[
            Book::MARK[0],
            Book::MARK[1],
            b'S',
            0,
            n as u8,
            blocks as u8,
            0,
            0,
        ],
    );
    text_put::digits(out, 8, dates::date_of(day), 6);
    text_put::bytes(out, 14, &[0, 0]);
    put_streams(out, row, n);
    seal(out, 0, Book::STREAMS_AT + Book::STREAM * n);
}

// Block k, with n banks from the one numbered `from` on.
fn put_bank_block(
    out: &mut [u8],
    blocks: usize,
    k: usize,
    codes: &[u64],
    flags: &[u64],
    balances: &[u64],
    sublimits: &[u64],
    from: usize,
    n: usize,
)
    requires blocks_bound { (blocks ≤ 5) × (k < 5) × (n ≤ 20) × (512 * k + 512 ≤ length out.old) }
    requires reaching { Reaching (from + n) codes.now flags.now balances.now sublimits.now }
    ensures { out.new ≡ sets out.old (512 * k) (bank_block blocks k (each (bank_of codes.now flags.now balances.now sublimits.now) from n)) }
{
    let at = Book::BLOCK * k;
    text_put::bytes(
        out,
        at,
        &[
            Book::MARK[0],
            Book::MARK[1],
            b'B',
            k as u8,
            n as u8,
            blocks as u8,
            0,
            0,
        ],
    );
    put_banks(
        out,
        at + Book::BANKS_AT,
        codes,
        flags,
        balances,
        sublimits,
        from,
        n,
    );
    seal(out, at, Book::BANKS_AT + Book::BANK * n);
}

// The blocks of the banks.
fn put_bank_blocks(
    out: &mut [u8],
    blocks: usize,
    codes: &[u64],
    flags: &[u64],
    balances: &[u64],
    sublimits: &[u64],
    banks: usize,
)
    requires blocks_value { (blocks ≡ blocks_for banks) × (banks ≤ 64) × (512 * blocks ≤ length out.old) }
    requires reaching { Reaching banks codes.now flags.now balances.now sublimits.now }
    ensures { out.new ≡ sets out.old 512 (bank_blocks_of blocks 1 (blocks - 1) (each (bank_of codes.now flags.now balances.now sublimits.now) 0 banks)) }
{
    for k in 1..blocks {
        let from = Book::ENTRIES * (k - 1);
        put_bank_block(
            out,
            blocks,
            k,
            codes,
            flags,
            balances,
            sublimits,
            from,
            in_block(banks - from),
        );
    }
}

// How many of the banks that are left go into the next block.
fn in_block(left: usize) -> usize
    ensures { result ≡ min 20 left }
{
    left.min(Book::ENTRIES)
}

// Whether rows of these lengths hold so many streams and banks, and they are in range.
#[tactic(auto, unfolding(crate::specs::Closing::holding_rows))]
fn rows_hold(
    book: Book,
    streams: usize,
    codes: usize,
    flags: usize,
    balances: usize,
    sublimits: usize,
) -> bool
    ensures { result ≡ holding_rows book streams codes flags balances sublimits }
{
    let n = book.streams;
    let m = book.banks;
    1 <= n
        && n <= Book::STREAMS
        && 1 <= m
        && m <= Book::BANKS
        && 2 * n <= streams
        && columns_hold(m, codes, flags, balances, sublimits)
}

// Whether columns of these lengths hold m banks.
#[tactic(auto, unfolding(crate::specs::Closing::holding_columns))]
fn columns_hold(m: usize, codes: usize, flags: usize, balances: usize, sublimits: usize) -> bool
    ensures { result ≡ holding_columns m codes flags balances sublimits }
{
    m <= codes && m <= flags && m <= balances && m <= sublimits
}

// The closing book of a day: its date, and the streams and banks of the rows, as many as `book` says.
// 06 for counts out of range or rows that are too short, then 07 for a buffer under the book's own length; then nothing is written.
pub fn write(
    out: &mut [u8],
    book: Book,
    streams: &[u64],
    codes: &[u64],
    flags: &[u64],
    balances: &[u64],
    sublimits: &[u64],
) -> Result<usize, Refusal>
    ensures { record { out = out.new; answer = result } ≡ write_book out.old book (rows_of streams.now codes.now flags.now balances.now sublimits.now) }
{
    if !rows_hold(
        book,
        streams.len(),
        codes.len(),
        flags.len(),
        balances.len(),
        sublimits.len(),
    ) {
        return Err(Refusal::BrokenTables);
    }
    let banks = book.banks;
    let blocks = (banks + 19) / Book::ENTRIES + 1;
    if out.len() < Book::BLOCK * blocks {
        return Err(Refusal::ShortBuffer);
    }
    put_stream_block(out, book.day, streams, book.streams, blocks);
    put_bank_blocks(out, blocks, codes, flags, balances, sublimits, banks);
    Ok(Book::BLOCK * blocks)
}

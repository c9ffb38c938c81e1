// The account of a book, as it is told of an accepted one, read into the rows that a book is written from.
#![tactic(auto)]

ghost use Rattle.std.specs.Prelude.{◌≡◌, ◌+◌, ◌≤◌, ◌<◌, eqb};
ghost use Rattle.dates.specs.Dates.{sum};
ghost use Rattle.cli_book.specs.Account.{cents_at, title_at, date_at, administrator_at, stream_at, streams_at, named_at, bit_on, bits_at, AtMostOne, standing_at, money_at, bank_at, banks_at, total_at, end_at, unread, rows_at, book_account};

// The bits of the streams that were named, and the place past their names.
#[derive(Clone, Copy)]
pub struct Bits {
    pub bits: u64,
    pub at: usize,
}

#[derive(Clone, Copy)]
pub struct Entry {
    pub code: u64,
    pub flags: u64,
    pub balance: u64,
    pub sublimit: u64,
}

// What a line is to say.
#[derive(Clone, Copy)]
pub enum Wanted {
    Title,
    Date,
    Stream,
    StreamOrBank,
    BankOrTotal,
    Sum,
    Nothing,
}

// Codes and administrators of the first n streams, and the place past their lines.
#[derive(Clone, Copy)]
pub struct Streams {
    pub row: [u64; 16],
    pub n: usize,
    pub at: usize,
}

// The columns of the first n banks, and the place past their lines.
#[derive(Clone, Copy)]
pub struct Banks {
    pub codes: [u64; 64],
    pub flags: [u64; 64],
    pub balances: [u64; 64],
    pub sublimits: [u64; 64],
    pub n: usize,
    pub at: usize,
}

// The rows are as far as the account was read: to its end, or to the line at a place that does not say what was wanted. Those of
// an account that is not read to its end hold nothing.
#[derive(Clone, Copy)]
pub struct BookAccount {
    pub day: u64,
    pub streams: Streams,
    pub banks: Banks,
    pub stop: Result<(), (usize, Wanted)>,
}

// Cents, with no needless zero before them: no number of more than 18 digits is one.
#[tactic(auto, unfolding(crate::specs::Account::cents_at))]
fn read_cents(s: &[u8], at: usize) -> Option<(u64, usize)>
    ensures { result ≡ cents_at s.now at }
{
    let cents = text_scan::digits(s, at, 18);
    if !cli_request::is_plain(s, at, cents.end) {
        return None;
    }
    Some((cents.value, cents.end))
}

// The first line.
#[tactic(auto, unfolding(crate::specs::Account::title_at))]
fn read_title(s: &[u8], at: usize) -> Option<usize>
    ensures { result ≡ title_at s.now at }
{
    let a = text_scan::lit(s, at, b"accepted book")?;
    cli_request::line_over(s, a)
}

// The line of a true date: its day number.
#[tactic(auto, unfolding(crate::specs::Account::date_at))]
fn read_date(s: &[u8], at: usize) -> Option<(u64, usize)>
    ensures { result ≡ date_at s.now at }
{
    let a = text_scan::lit(s, at, b"date ")?;
    let (v, b) = text_scan::number(s, a, 6)?;
    let k = dates::day_of(v)?;
    let c = cli_request::line_over(s, b)?;
    Some((k, c))
}

// An administrator is a byte of the book.
#[tactic(auto, unfolding(crate::specs::Account::administrator_at))]
fn read_administrator(s: &[u8], at: usize) -> Option<(u64, usize)>
    ensures { result ≡ administrator_at s.now at }
{
    let (v, e) = read_cents(s, at)?;
    if 255 < v {
        return None;
    }
    Some((v, e))
}

#[tactic(auto, unfolding(crate::specs::Account::stream_at))]
fn read_stream(s: &[u8], at: usize) -> Option<(u64, u64, usize)>
    ensures { result ≡ stream_at s.now at }
{
    let a = text_scan::lit(s, at, b"stream ")?;
    let b = text_scan::code(s, a, 4)?;
    let c = text_scan::lit(s, b, b" ")?;
    let (v, d) = read_administrator(s, c)?;
    let e = cli_request::line_over(s, d)?;
    Some((codes::short_code(s, a), v, e))
}

// Up to eight lines of streams.
fn read_streams(s: &[u8], at: usize) -> Streams
    ensures { result ≡ streams_at s.now at }
{
    let mut row = [0u64; 16];
    let mut here = at;
    for n in 0..8 {
        match read_stream(s, here) {
            None => {
                return Streams { row, n, at: here };
            }
            Some((code, administrator, next)) => {
                row[2 * n] = code;
                row[2 * n + 1] = administrator;
                here = next;
            }
        }
    }
    Streams {
        row,
        n: 8,
        at: here,
    }
}

// A space and this code.
#[tactic(auto, unfolding(crate::specs::Account::named_at))]
fn read_named(s: &[u8], at: usize, code: u64) -> Option<usize>
    ensures { result ≡ named_at s.now at code }
{
    let a = text_scan::lit(s, at, b" ")?;
    let b = text_scan::code(s, a, 4)?;
    if codes::short_code(s, a) != code {
        return None;
    }
    Some(b)
}

// A stream's bit more where it is named next.
#[tactic(auto, unfolding(crate::specs::Account::bit_on))]
fn add_bit(s: &[u8], b: Bits, code: u64, bit: u64) -> Bits
    requires { b.bits + bit < 512 }
    ensures value { result ≡ bit_on s.now b code bit }
    ensures small { result.bits ≤ b.bits + bit }
{
    match read_named(s, b.at, code) {
        Some(e) => Bits {
            bits: b.bits + bit,
            at: e,
        },
        None => b,
    }
}

// The bits of the streams that a bank's line names, in the streams' order.
fn read_bits(s: &[u8], at: usize, row: [u64; 16]) -> Bits
    ensures value { result ≡ bits_at s.now at row }
    ensures small { result.bits < 256 }
{
    let mut found = Bits { bits: 0, at };
    let mut bit: u64 = 1;
    for i in 0..8 {
        found = add_bit(s, found, row[2 * i], bit);
        bit = 2 * bit;
    }
    found
}

// 0 for an active bank, 1 for one that is suspended.
#[tactic(auto, unfolding(crate::specs::Account::standing_at))]
fn read_standing(s: &[u8], at: usize) -> Option<(u64, usize)>
    ensures value { result ≡ standing_at s.now at }
    ensures small { AtMostOne result }
{
    if let Some(a) = text_scan::lit(s, at, b" active ") {
        return Some((0, a));
    }
    if let Some(a) = text_scan::lit(s, at, b" suspended ") {
        return Some((1, a));
    }
    None
}

#[tactic(auto, unfolding(crate::specs::Account::money_at))]
fn read_money(s: &[u8], at: usize) -> Option<(u64, u64, usize)>
    ensures { result ≡ money_at s.now at }
{
    let (balance, a) = read_cents(s, at)?;
    let b = text_scan::lit(s, a, b" ")?;
    let (sublimit, c) = read_cents(s, b)?;
    Some((balance, sublimit, c))
}

#[tactic(auto, unfolding(crate::specs::Account::bank_at))]
fn read_bank(s: &[u8], at: usize, row: [u64; 16]) -> Option<(Entry, usize)>
    ensures { result ≡ bank_at s.now at row }
{
    let a = text_scan::lit(s, at, b"bank ")?;
    let b = text_scan::code(s, a, 4)?;
    let (standing, c) = read_standing(s, b)?;
    let (balance, sublimit, d) = read_money(s, c)?;
    let found = read_bits(s, d, row);
    let e = cli_request::line_over(s, found.at)?;
    let entry = Entry {
        code: codes::short_code(s, a),
        flags: standing + 2 * found.bits,
        balance,
        sublimit,
    };
    Some((entry, e))
}

// Up to 64 lines of banks.
fn read_banks(s: &[u8], at: usize, row: [u64; 16]) -> Banks
    ensures { result ≡ banks_at s.now at row }
{
    let mut codes = [0u64; 64];
    let mut flags = [0u64; 64];
    let mut balances = [0u64; 64];
    let mut sublimits = [0u64; 64];
    let mut here = at;
    for n in 0..64 {
        match read_bank(s, here, row) {
            None => {
                return Banks {
                    codes,
                    flags,
                    balances,
                    sublimits,
                    n,
                    at: here,
                };
            }
            Some((b, next)) => {
                codes[n] = b.code;
                flags[n] = b.flags;
                balances[n] = b.balance;
                sublimits[n] = b.sublimit;
                here = next;
            }
        }
    }
    Banks {
        codes,
        flags,
        balances,
        sublimits,
        n: 64,
        at: here,
    }
}

// The line of the total.
#[tactic(auto, unfolding(crate::specs::Account::total_at))]
fn read_total(s: &[u8], at: usize) -> Option<(u64, usize)>
    ensures { result ≡ total_at s.now at }
{
    let a = text_scan::lit(s, at, b"total ")?;
    let (v, b) = read_cents(s, a)?;
    let c = cli_request::line_over(s, b)?;
    Some((v, c))
}

// Whether a number is the sum of the balances; each is taken off it, so that no sum can be too large.
fn is_sum(balances: [u64; 64], total: u64) -> bool
    ensures { result ≡ eqb total (sum balances) }
{
    let mut rest = total;
    for balance in balances {
        if rest < balance {
            return false;
        }
        rest -= balance;
    }
    rest == 0
}

// What follows the banks: the total, and nothing behind it; or the line that does not say so, and what was wanted there.
#[tactic(auto, unfolding(crate::specs::Account::end_at))]
fn read_end(s: &[u8], at: usize, balances: [u64; 64]) -> Result<(), (usize, Wanted)>
    ensures { result ≡ end_at s.now at balances }
{
    let (total, a) = read_total(s, at).ok_or((at, Wanted::BankOrTotal))?;
    if !is_sum(balances, total) {
        return Err((at, Wanted::Sum));
    }
    if a < s.len() {
        return Err((a, Wanted::Nothing));
    }
    Ok(())
}

#[tactic(auto, unfolding(crate::specs::Account::unread))]
fn unread(at: usize, wanted: Wanted) -> BookAccount
    ensures { result ≡ unread at wanted }
{
    let none = [0u64; 64];
    BookAccount {
        day: 0,
        streams: Streams {
            row: [0u64; 16],
            n: 0,
            at: 0,
        },
        banks: Banks {
            codes: none,
            flags: none,
            balances: none,
            sublimits: none,
            n: 0,
            at: 0,
        },
        stop: Err((at, wanted)),
    }
}

// What follows the date.
#[tactic(auto, unfolding(crate::specs::Account::rows_at))]
fn read_rows(s: &[u8], at: usize, day: u64) -> BookAccount
    ensures { result ≡ rows_at s.now at day }
{
    let streams = read_streams(s, at);
    if streams.n < 1 {
        return unread(at, Wanted::Stream);
    }
    let row = streams.row;
    let banks = read_banks(s, streams.at, row);
    if banks.n < 1 {
        return unread(streams.at, Wanted::StreamOrBank);
    }
    let balances = banks.balances;
    let stop = read_end(s, banks.at, balances);
    BookAccount {
        day,
        streams,
        banks,
        stop,
    }
}

// The day and the rows that an account of a book tells.
#[tactic(auto, unfolding(crate::specs::Account::book_account))]
pub fn read_account(s: &[u8]) -> BookAccount
    ensures { result ≡ book_account s.now }
{
    let first = cli_request::first_line(s);
    let Some(a) = read_title(s, first) else {
        return unread(first, Wanted::Title);
    };
    let Some((day, b)) = read_date(s, a) else {
        return unread(a, Wanted::Date);
    };
    read_rows(s, b, day)
}

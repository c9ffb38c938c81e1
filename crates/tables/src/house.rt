// The table rules of streams, banks and their money: each test is true exactly where its rule holds.
ghost use Rattle.std.specs.Prelude.{◌≡◌, true, false, cond, ℕ, ◌+◌, ◌*◌, ◌^◌, ◌≤◌, ◌<◌, eqb, length, take, drop};
ghost use Rattle.chars.specs.Words.{Says};
ghost use Rattle.book_read.specs.Book.{each};
ghost use Rattle.book_write.specs.Closing.{stream_of};
ghost use Rattle.settle.specs.Rules.{sum};
ghost use Rattle.book_read.specs.Range.{Each, is_short, Rising, stream_codes};
ghost use Rattle.model.specs.Rules.{RightHouse};
ghost use Rattle.tables.specs.House.{house_on, AllShort, AllZero, Sublimits, Flagged, Lengths, RightStreams, RightBanks, ZeroPast, RightMoney};

use crate::Desk;
use settle::Bank;

// The number after the last of four characters.
const SHORT_END: u64 = 4_294_967_296;

const MOST_STREAMS: usize = 8;

const MOST_SENDER: u64 = 255;

// "4 of A-Z 0-9", as a number.
#[tactic(auto, unfolding(codes::specs::Codes::short_text, codes::specs::Codes::unpacked))]
fn is_short(v: u64) -> bool
    ensures { result ≡ is_short v }
{
    v < SHORT_END
        && chars::is_code(codes::short_byte(v, 0))
        && chars::is_code(codes::short_byte(v, 1))
        && chars::is_code(codes::short_byte(v, 2))
        && chars::is_code(codes::short_byte(v, 3))
}

pub fn codes_right(row: &[u64]) -> bool
    ensures { Says (AllShort row.now) result }
{
    row.iter().all(|code| is_short(*code))
}

// "Codes rise strictly."
pub fn codes_rise(row: &[u64]) -> bool
    ensures { Says (Rising row.now) result }
{
    for i in 1..row.len() {
        if row[i] <= row[i - 1] {
            return false;
        }
    }
    true
}

// A flag has no bit past the streams' and its own.
pub fn flags_right(row: &[u64], streams: usize) -> bool
    requires { streams ≤ 8 }
    ensures { Says (Flagged streams row.now) result }
{
    let end = bits_end(streams);
    row.iter().all(|flag| *flag / 2 < end)
}

// The number after the last of so many bits.
fn bits_end(streams: usize) -> u64
    requires { streams ≤ 8 }
    ensures { result ≡ 2 ^ streams }
{
    1 << streams
}

pub fn sublimits_right(row: &[u64]) -> bool
    ensures { Says (Sublimits row.now) result }
{
    row.iter().all(|sublimit| *sublimit <= Bank::RICHEST)
}

// "total in range"
pub fn total_right(row: &[u64]) -> bool
    ensures { Says (sum row.now ≤ 6400000000000000) result }
{
    let mut room = Bank::RICHEST;
    for balance in row {
        if room < *balance {
            return false;
        }
        room -= *balance;
    }
    true
}

// To the end, whatever it meets: several words are then looked at at once, and nearly all rows are zero.
pub fn zero(row: &[u64]) -> bool
    ensures { Says (AllZero row.now) result }
{
    let mut any: u64 = 0;
    for word in row {
        any |= *word;
    }
    any == 0
}

fn stream_codes_right(row: &[u64], n: usize) -> bool
    requires { (n ≤ 8) × (length row.now ≡ 16) }
    ensures { Says (Each (λ x. is_short x.code ≡ true) (each (stream_of row.now) 0 n)) result }
{
    for i in 0..n {
        if !is_short(row[2 * i]) {
            return false;
        }
    }
    true
}

fn administrators_right(row: &[u64], n: usize) -> bool
    requires { (n ≤ 8) × (length row.now ≡ 16) }
    ensures { Says (Each (λ x. (1 ≤ x.sender) × (x.sender ≤ 255)) (each (stream_of row.now) 0 n)) result }
{
    for i in 0..n {
        let sender = row[2 * i + 1];
        if sender < 1 || MOST_SENDER < sender {
            return false;
        }
    }
    true
}

fn streams_rise(row: &[u64], n: usize) -> bool
    requires { (n ≤ 8) × (length row.now ≡ 16) }
    ensures { Says (Rising (stream_codes (each (stream_of row.now) 0 n))) result }
{
    for i in 1..n {
        if row[2 * i] <= row[2 * (i - 1)] {
            return false;
        }
    }
    true
}

#[tactic(auto, using(book_read::proofs::Filling::each_length))]
fn streams_right(row: &[u64], n: usize) -> bool
    requires { length row.now ≡ 16 }
    ensures { Says (RightStreams (each (stream_of row.now) 0 n)) result }
{
    n <= MOST_STREAMS
        && stream_codes_right(row, n)
        && administrators_right(row, n)
        && streams_rise(row, n)
}

pub fn lengths_right(codes: &[u64], flags: &[u64], balances: &[u64], sublimits: &[u64]) -> bool
    ensures { Says (Lengths codes.now flags.now balances.now sublimits.now) result }
{
    codes.len() == Bank::MOST
        && flags.len() == Bank::MOST
        && balances.len() == Bank::MOST
        && sublimits.len() == Bank::MOST
}

// Of the banks in use: "banks ascending by code".
fn banks_right(codes: &[u64], flags: &[u64], streams: usize, banks: usize) -> bool
    requires { (streams ≤ 8) × (banks ≤ length codes.now) × (banks ≤ length flags.now) }
    ensures { Says (RightBanks streams banks codes.now flags.now) result }
{
    codes_right(&codes[..banks])
        && codes_rise(&codes[..banks])
        && flags_right(&flags[..banks], streams)
}

// "account records past it zero"
fn zero_past(
    codes: &[u64],
    flags: &[u64],
    balances: &[u64],
    sublimits: &[u64],
    banks: usize,
) -> bool
    requires lengths { Lengths codes.now flags.now balances.now sublimits.now }
    requires banks_bound { banks ≤ 64 }
    ensures { Says (ZeroPast banks codes.now flags.now balances.now sublimits.now) result }
{
    zero(&codes[banks..])
        && zero(&flags[banks..])
        && zero(&balances[banks..])
        && zero(&sublimits[banks..])
}

fn money_right(balances: &[u64], sublimits: &[u64]) -> bool
    ensures { Says (RightMoney balances.now sublimits.now) result }
{
    sublimits_right(sublimits) && total_right(balances)
}

// All rules of the house.
pub fn house_right(
    desk: Desk,
    codes: &[u64],
    flags: &[u64],
    balances: &[u64],
    sublimits: &[u64],
) -> bool
    ensures { Says (RightHouse (house_on desk codes.now flags.now) balances.now sublimits.now) result }
{
    let streams = desk.streams;
    lengths_right(codes, flags, balances, sublimits)
        && streams_right(&streams, desk.n)
        && desk.banks <= Bank::MOST
        && banks_right(codes, flags, desk.n, desk.banks)
        && zero_past(codes, flags, balances, sublimits, desk.banks)
        && money_right(balances, sublimits)
}

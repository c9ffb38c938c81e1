// The values of a request's fields, each read at the place where it begins: the number that a value stands for, 0 where it stands for none, and the place
// after it; or why there is no such value.
#![tactic(auto)]

ghost use Rattle.std.specs.Prelude.{◌≡◌, ◌+◌, ◌<◌, drop, get_or};
ghost use Rattle.text_values.specs.Values.{no_part, text_of, code_of, reference_at, forbidden_at, numeral_at, word_at, bin_at, numbers_at, count_in, date_at, time_at, side_at, amount_at, hundredths, count_at};
ghost use Rattle.text_values.specs.Letters.{is_status, is_fourth, judged_at, letters_at};

use chars::Refusal;
use codes::Code;

// Where a value stands in the text.
#[derive(Clone, Copy)]
pub struct Part {
    pub start: usize,
    pub end: usize,
}

impl Part {
    // Of a value that the text does not have.
    pub fn nowhere() -> Part
        ensures { result ≡ no_part }
    {
        Part { start: 0, end: 0 }
    }
}

// The part of the text itself.
pub fn text_of(s: &[u8], p: Part) -> &[u8]
    ensures { result.now ≡ text_of s.now p }
{
    let start = p.start;
    let end = p.end;
    if end < start {
        &s[..0]
    } else if end <= s.len() {
        &s[start..end]
    } else {
        rest(s, start)
    }
}

// The text from a place on.
fn rest(s: &[u8], at: usize) -> &[u8]
    ensures { result.now ≡ drop at s.now }
{
    if at <= s.len() { &s[at..] } else { &s[..0] }
}

// The code of a reference or a BIN that stands in a part of the text.
pub fn code_of(s: &[u8], p: Part) -> Code
    ensures { result ≡ code_of s.now p }
{
    let t = text_of(s, p);
    codes::long_code(t, 0, t.len())
}

// The names that no reference begins with.
#[tactic(auto, unfolding(crate::specs::Values::forbidden_at))]
fn forbidden(s: &[u8], at: usize) -> bool
    ensures { result ≡ forbidden_at s.now at }
{
    text_scan::lit(s, at, b"RITS").is_some()
        || text_scan::lit(s, at, b"ACLR").is_some()
        || text_scan::lit(s, at, b"ASXC").is_some()
}

#[tactic(auto, unfolding(crate::specs::Values::reference_at))]
pub fn read_reference(s: &[u8], at: usize) -> Result<(u64, usize), Refusal>
    ensures { result ≡ reference_at s.now at }
{
    let e = text_scan::codes(s, at, 16);
    if e == at || forbidden(s, at) {
        return Err(Refusal::Malformed);
    }
    Ok((0, e))
}

// Just n digits.
#[tactic(auto, unfolding(crate::specs::Values::numeral_at))]
pub fn read_numeral(s: &[u8], at: usize, n: usize) -> Result<(u64, usize), Refusal>
    ensures { result ≡ numeral_at s.now at n }
{
    let (v, e) = text_scan::number(s, at, n).ok_or(Refusal::Malformed)?;
    Ok((v, e))
}

// Just n of A-Z 0-9, and the number of the first four.
#[tactic(auto, unfolding(crate::specs::Values::word_at))]
pub fn read_word(s: &[u8], at: usize, n: usize) -> Result<(u64, usize), Refusal>
    ensures { result ≡ word_at s.now at n }
{
    let e = text_scan::code(s, at, n).ok_or(Refusal::Malformed)?;
    Ok((codes::short_code(s, at), e))
}

// The characters of the stream, which stands elsewhere in the text, and four digits.
#[tactic(auto, unfolding(crate::specs::Values::bin_at))]
pub fn read_bin(s: &[u8], at: usize, stream: Part) -> Result<(u64, usize), Refusal>
    ensures { result ≡ bin_at s.now at stream }
{
    let a = text_scan::lit(s, at, text_of(s, stream)).ok_or(Refusal::Malformed)?;
    let (_, e) = text_scan::number(s, a, 4).ok_or(Refusal::Malformed)?;
    Ok((0, e))
}

// nn/nn, and the first of the two, the message's number.
#[tactic(auto, unfolding(crate::specs::Values::numbers_at, crate::specs::Values::numbered))]
pub fn read_numbers(s: &[u8], at: usize) -> Result<(u64, usize), Refusal>
    ensures { result ≡ numbers_at s.now at }
{
    let (n, a) = text_scan::number(s, at, 2).ok_or(Refusal::Malformed)?;
    let b = text_scan::lit(s, a, b"/").ok_or(Refusal::Malformed)?;
    let (m, e) = text_scan::number(s, b, 2).ok_or(Refusal::Malformed)?;
    if n < 1 || m < n || 10 < m {
        return Err(Refusal::Malformed);
    }
    Ok((n, e))
}

// The second of nn/nn, the batch's count.
#[tactic(auto, unfolding(crate::specs::Values::count_in))]
pub fn count_in(v: &[u8]) -> u64
    ensures { result ≡ count_in v.now }
{
    match text_scan::number(v, 3, 2) {
        Some((m, _)) => m,
        None => 0,
    }
}

// A true date, and its day number.
#[tactic(auto, unfolding(crate::specs::Values::date_at))]
pub fn read_date(s: &[u8], at: usize) -> Result<(u64, usize), Refusal>
    ensures { result ≡ date_at s.now at }
{
    let (v, e) = text_scan::number(s, at, 6).ok_or(Refusal::Malformed)?;
    let d = dates::day_of(v).ok_or(Refusal::Malformed)?;
    Ok((d, e))
}

// A time of the day, and its minute.
#[tactic(auto, unfolding(crate::specs::Values::time_at))]
pub fn read_time(s: &[u8], at: usize) -> Result<(u64, usize), Refusal>
    ensures { result ≡ time_at s.now at }
{
    let (v, e) = text_scan::number(s, at, 4).ok_or(Refusal::Malformed)?;
    let m = clock::minute_of(v).ok_or(Refusal::Malformed)?;
    Ok((m, e))
}

// 0 for a credit, 1 for a debit.
#[tactic(auto, unfolding(crate::specs::Values::side_at))]
pub fn read_side(s: &[u8], at: usize) -> Result<(u64, usize), Refusal>
    ensures { result ≡ side_at s.now at }
{
    if let Some(e) = text_scan::lit(s, at, b"CR") {
        return Ok((0, e));
    }
    if let Some(e) = text_scan::lit(s, at, b"DR") {
        return Ok((1, e));
    }
    Err(Refusal::Malformed)
}

// The digits after a comma in hundredths: one digit is tenths.
#[tactic(auto, unfolding(crate::specs::Values::hundredths))]
fn in_hundredths(b: usize, f: text_scan::Run) -> u64
    requires { f.value < 100 }
    ensures value { result ≡ hundredths b f }
    ensures small { result < 1000 }
{
    let e = f.end;
    if b < e && e - b == 1 {
        f.value * 10
    } else {
        f.value
    }
}

// AUD, and the amount in cents.
#[tactic(auto, unfolding(crate::specs::Values::amount_at))]
pub fn read_amount(s: &[u8], at: usize) -> Result<(u64, usize), Refusal>
    ensures { result ≡ amount_at s.now at }
{
    let a = text_scan::lit(s, at, b"AUD").ok_or(Refusal::Malformed)?;
    let w = text_scan::digits(s, a, 10);
    let e = w.end;
    if e == a {
        return Err(Refusal::Malformed);
    }
    let b = text_scan::lit(s, e, b",").ok_or(Refusal::Malformed)?;
    let f = text_scan::digits(s, b, 2);
    Ok((w.value * 100 + in_hundredths(b, f), f.end))
}

// A, D, P or a space.
fn is_status(b: u8) -> bool
    ensures { result ≡ is_status b }
{
    matches!(b, b'A' | b'D' | b'P' | b' ')
}

// A space or A-Z.
#[tactic(auto, unfolding(crate::specs::Letters::is_fourth))]
fn is_fourth(b: u8) -> bool
    ensures { result ≡ is_fourth b }
{
    b == b' ' || chars::is_letter(b)
}

// The byte so far past a place, 0 past the end.
fn byte(s: &[u8], at: usize, off: usize) -> u8
    ensures { result ≡ get_or s.now (at + off) 0 }
{
    if at < s.len() {
        if off < s.len() - at {
            return s[at + off];
        }
    }
    0
}

// Four letters from left to right, of which the first wrong one decides; e is the place after them.
#[tactic(auto, unfolding(crate::specs::Letters::judged_at))]
fn judge(s: &[u8], at: usize, e: usize) -> Result<(u64, usize), Refusal>
    ensures { result ≡ judged_at s.now at e }
{
    if !is_status(byte(s, at, 0)) {
        return Err(Refusal::WrongEsa);
    }
    if !is_status(byte(s, at, 1)) || !is_status(byte(s, at, 2)) {
        return Err(Refusal::WrongLetter);
    }
    if !is_fourth(byte(s, at, 3)) {
        return Err(Refusal::Malformed);
    }
    Ok((codes::short_code(s, at), e))
}

// The letters for ESA, credit, cash and the unused place, as they stand.
#[tactic(auto, using(crate::proofs::Laws::letters_from), unfolding(crate::specs::Letters::letters_at))]
pub fn read_letters(s: &[u8], at: usize) -> Result<(u64, usize), Refusal>
    ensures { result ≡ letters_at s.now at }
{
    let e = text_scan::line_end(s, at, 4).ok_or(Refusal::Malformed)?;
    if e - at == 4 {
        judge(s, at, e)
    } else {
        Err(Refusal::Malformed)
    }
}

// The number of payments, which must be n.
#[tactic(auto, unfolding(crate::specs::Values::count_at))]
pub fn read_count(s: &[u8], at: usize, n: u64) -> Result<(u64, usize), Refusal>
    ensures { result ≡ count_at s.now at n }
{
    if text_scan::lit(s, at, b"0").is_some() {
        return Err(Refusal::Malformed);
    }
    let w = text_scan::digits(s, at, 2);
    if w.end == at || w.value != n {
        return Err(Refusal::Malformed);
    }
    Ok((n, w.end))
}

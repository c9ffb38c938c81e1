// One line of a script: the call that it asks for, or where it is none and what was expected there.
#![tactic(auto)]

ghost use Rattle.std.specs.Prelude.{◌≡◌, ◌<◌, ℕ, Bool, cond, get_or, drop, Some, None};
ghost use Rattle.cli_script.specs.Lines.{on_word, is_blank, until, word_start, word_end, is_end, word_at, is_word, is_long, with_digit, number_from, number_at};
ghost use Rattle.cli_script.specs.Lines.{seconds_of, pair_at, time_at, clock_at, bank_at, letter_at, date_at, bin_at, ended, open_at, message_at, sublimit_at};
ghost use Rattle.cli_script.specs.Lines.{status_at, tick_at, close_at, closing_at, first_call, next_call, line_in};

use codes::Code;

// What a line asks for. A file's name is a word: it begins at a place.
#[derive(Clone, Copy)]
pub enum Line {
    Skip,
    Clear,
    // Clock and file.
    Open(u64, usize),
    // Clock, sender and file.
    Message(u64, u64, usize),
    // Clock, bank and cents.
    SubLimit(u64, u64, u64),
    // Clock, bank, BIN and letter.
    Status(u64, u64, Code, u64),
    Tick(u64),
    Close(u64),
    // Clock, date and file.
    Closing(u64, u64, usize),
    Show,
    Why,
    // What was expected at the first word from a place on.
    NotACall(usize, Wanted),
}

// What a line should have in some place.
#[derive(Clone, Copy)]
pub enum Wanted {
    Command,
    Clock,
    Sender,
    Bank,
    Cents,
    BinCode,
    Letter,
    Date,
    FileName,
    LineEnd,
}

// A number that is no date.
const NO_DATE: u64 = 1_000_000;

// A CR before the line feed is a blank, too.
#[tactic(auto, unfolding(crate::specs::Lines::is_blank))]
fn is_blank(b: u8) -> bool
    ensures { result ≡ is_blank b }
{
    b == b'\t' || b == b'\r' || b == b' '
}

// The next place from a place on whose byte passes a test, or the end of the line.
fn next_that<F: Fn(u8) -> bool>(s: &[u8], at: usize, stops: F) -> usize
    requires { F.IsAlwaysCallable stops }
    ensures { (f : ℕ → Bool) → ((b : ℕ) (r : Bool) → b < 256 → F.post stops b r → r ≡ f b) → result ≡ until f at (drop at s.now) }
{
    for i in at..s.len() {
        if stops(s[i]) {
            return i;
        }
    }
    at.max(s.len())
}

// The next byte from a place on that is no blank, or the end of the line.
#[tactic(auto, unfolding(crate::specs::Lines::word_start))]
pub fn word_start(s: &[u8], at: usize) -> usize
    ensures { result ≡ word_start s.now at }
{
    next_that(s, at, |b| !is_blank(b))
}

// Where the word at a place ends: at the next blank, or with the line.
#[tactic(auto, unfolding(crate::specs::Lines::word_end))]
pub fn word_end(s: &[u8], at: usize) -> usize
    ensures { result ≡ word_end s.now at }
{
    next_that(s, at, is_blank)
}

// No word begins at this place: the line ends, or a comment begins.
#[tactic(auto, unfolding(crate::specs::Lines::is_end))]
fn is_end(s: &[u8], at: usize) -> bool
    ensures { result ≡ is_end s.now at }
{
    s.len() <= at || s[at] == b'#'
}

// The next word from a place on: where it begins, and the place past it.
#[tactic(auto, unfolding(crate::specs::Lines::word_at))]
fn word(s: &[u8], at: usize) -> Option<(usize, usize)>
    ensures { result ≡ word_at s.now at }
{
    let a = word_start(s, at);
    if is_end(s, a) {
        return None;
    }
    Some((a, word_end(s, a)))
}

// Whether a word is this one.
#[tactic(auto, unfolding(crate::specs::Lines::is_word))]
fn is_word(s: &[u8], a: usize, e: usize, name: &[u8]) -> bool
    ensures { result ≡ is_word s.now a e name.now }
{
    text_scan::lit(s, a, name) == Some(e)
}

// Whether a word has just so many bytes.
#[tactic(auto, unfolding(crate::specs::Lines::is_long))]
fn is_long(a: usize, e: usize, n: usize) -> bool
    ensures { result ≡ is_long a e n }
{
    e.saturating_sub(a) == n
}

// A number with one more digit.
#[tactic(auto, unfolding(crate::specs::Lines::with_digit))]
fn with_digit(v: u64, b: u8) -> Option<u64>
    ensures { result ≡ with_digit v b }
{
    if !chars::is_digit(b) {
        return None;
    }
    v.checked_mul(10)?.checked_add(chars::digit_value(b))
}

// The number whose digits stand from a place on, and the place past its word.
fn number_from(s: &[u8], at: usize) -> Option<(u64, usize)>
    ensures { result ≡ number_from at 0 (drop at s.now) }
{
    let mut v = 0;
    for i in at..s.len() {
        let b = s[i];
        if is_blank(b) {
            return Some((v, i));
        }
        v = with_digit(v, b)?;
    }
    Some((v, at.max(s.len())))
}

#[tactic(auto, unfolding(crate::specs::Lines::number_at))]
fn read_number(s: &[u8], at: usize) -> Option<(u64, usize)>
    ensures { result ≡ number_at s.now at }
{
    let (a, _) = word(s, at)?;
    number_from(s, a)
}

// Hours, minutes and seconds as seconds of the day; the word ends at a place.
#[tactic(auto, unfolding(crate::specs::Lines::seconds_of))]
fn seconds_of(hours: u64, minutes: u64, seconds: u64, e: usize) -> Option<(u64, usize)>
    ensures { result ≡ seconds_of hours minutes seconds e }
{
    if 23 < hours || 59 < minutes || 59 < seconds {
        return None;
    }
    Some((3600 * hours + 60 * minutes + seconds, e))
}

// Two digits and a colon.
#[tactic(auto, unfolding(crate::specs::Lines::pair_at))]
fn read_pair(s: &[u8], at: usize) -> Option<(u64, usize)>
    ensures { result ≡ pair_at s.now at }
{
    let (value, b) = text_scan::number(s, at, 2)?;
    let c = text_scan::lit(s, b, b":")?;
    Some((value, c))
}

// A word HH:MM:SS.
#[tactic(auto, unfolding(crate::specs::Lines::time_at))]
fn read_time(s: &[u8], a: usize, e: usize) -> Option<(u64, usize)>
    ensures { result ≡ time_at s.now a e }
{
    let (hours, b) = read_pair(s, a)?;
    let (minutes, c) = read_pair(s, b)?;
    let (seconds, d) = text_scan::number(s, c, 2)?;
    if d != e {
        return None;
    }
    seconds_of(hours, minutes, seconds, e)
}

// Seconds of the day, as a number or as HH:MM:SS.
#[tactic(auto, unfolding(crate::specs::Lines::clock_at))]
fn read_clock(s: &[u8], at: usize) -> Option<(u64, usize)>
    ensures { result ≡ clock_at s.now at }
{
    let (a, e) = word(s, at)?;
    if let Some((clock, _)) = read_time(s, a, e) {
        return Some((clock, e));
    }
    number_from(s, a)
}

// The next word from a place on, of just so many bytes.
fn word_of(s: &[u8], at: usize, n: usize) -> Option<(usize, usize)>
    ensures { result ≡ on_word (word_at s.now at) None (λ a e. cond (is_long a e n) (Some (a, e)) None) }
{
    let (a, e) = word(s, at)?;
    if is_long(a, e, n) { Some((a, e)) } else { None }
}

#[tactic(auto, unfolding(crate::specs::Lines::bank_at))]
fn read_bank(s: &[u8], at: usize) -> Option<(u64, usize)>
    ensures { result ≡ bank_at s.now at }
{
    let (a, e) = word_of(s, at, 4)?;
    Some((codes::short_code(s, a), e))
}

#[tactic(auto, unfolding(crate::specs::Lines::bin_at))]
fn read_bin(s: &[u8], at: usize) -> Option<(Code, usize)>
    ensures { result ≡ bin_at s.now at }
{
    let (a, e) = word_of(s, at, 8)?;
    Some((codes::long_code(s, a, 8), e))
}

fn wide(b: u8) -> u64
    ensures { result ≡ b }
{
    b as u64
}

// 0 past the end.
fn byte(s: &[u8], at: usize) -> u64
    ensures { result ≡ get_or s.now at 0 }
{
    if at < s.len() { wide(s[at]) } else { 0 }
}

#[tactic(auto, unfolding(crate::specs::Lines::letter_at))]
fn read_letter(s: &[u8], at: usize) -> Option<(u64, usize)>
    ensures { result ≡ letter_at s.now at }
{
    let (a, e) = word_of(s, at, 1)?;
    Some((byte(s, a), e))
}

// Six bytes that are no digits are no date.
#[tactic(auto, unfolding(crate::specs::Lines::date_at))]
fn read_date(s: &[u8], at: usize) -> Option<(u64, usize)>
    ensures { result ≡ date_at s.now at }
{
    let (a, e) = word_of(s, at, 6)?;
    match text_scan::number(s, a, 6) {
        Some((date, _)) => Some((date, e)),
        None => Some((NO_DATE, e)),
    }
}

// A line without a further word, or one that goes on and is no call.
#[tactic(auto, unfolding(crate::specs::Lines::ended))]
fn ended(s: &[u8], at: usize, line: Line) -> Line
    ensures { result ≡ ended s.now at line }
{
    if is_end(s, word_start(s, at)) {
        return line;
    }
    Line::NotACall(at, Wanted::LineEnd)
}

#[tactic(auto, unfolding(crate::specs::Lines::open_at))]
fn read_open(s: &[u8], at: usize) -> Line
    ensures { result ≡ open_at s.now at }
{
    let Some((clock, a)) = read_clock(s, at) else {
        return Line::NotACall(at, Wanted::Clock);
    };
    let Some((file, e)) = word(s, a) else {
        return Line::NotACall(a, Wanted::FileName);
    };
    ended(s, e, Line::Open(clock, file))
}

#[tactic(auto, unfolding(crate::specs::Lines::message_at))]
// Kept beside `read_sublimit` and `read_closing`: each names the words that its command has, in their order.
fn read_message(s: &[u8], at: usize) -> Line
    ensures { result ≡ message_at s.now at }
{
    let Some((clock, a)) = read_clock(s, at) else {
        return Line::NotACall(at, Wanted::Clock);
    };
    let Some((sender, b)) = read_number(s, a) else {
        return Line::NotACall(a, Wanted::Sender);
    };
    let Some((file, e)) = word(s, b) else {
        return Line::NotACall(b, Wanted::FileName);
    };
    ended(s, e, Line::Message(clock, sender, file))
}

#[tactic(auto, unfolding(crate::specs::Lines::sublimit_at))]
fn read_sublimit(s: &[u8], at: usize) -> Line
    ensures { result ≡ sublimit_at s.now at }
{
    let Some((clock, a)) = read_clock(s, at) else {
        return Line::NotACall(at, Wanted::Clock);
    };
    let Some((bank, b)) = read_bank(s, a) else {
        return Line::NotACall(a, Wanted::Bank);
    };
    let Some((cents, e)) = read_number(s, b) else {
        return Line::NotACall(b, Wanted::Cents);
    };
    ended(s, e, Line::SubLimit(clock, bank, cents))
}

#[tactic(auto, unfolding(crate::specs::Lines::status_at))]
fn read_status(s: &[u8], at: usize) -> Line
    ensures { result ≡ status_at s.now at }
{
    let Some((clock, a)) = read_clock(s, at) else {
        return Line::NotACall(at, Wanted::Clock);
    };
    let Some((bank, b)) = read_bank(s, a) else {
        return Line::NotACall(a, Wanted::Bank);
    };
    let Some((bin, c)) = read_bin(s, b) else {
        return Line::NotACall(b, Wanted::BinCode);
    };
    let Some((letter, e)) = read_letter(s, c) else {
        return Line::NotACall(c, Wanted::Letter);
    };
    ended(s, e, Line::Status(clock, bank, bin, letter))
}

#[tactic(auto, unfolding(crate::specs::Lines::tick_at))]
fn read_tick(s: &[u8], at: usize) -> Line
    ensures { result ≡ tick_at s.now at }
{
    let Some((clock, e)) = read_clock(s, at) else {
        return Line::NotACall(at, Wanted::Clock);
    };
    ended(s, e, Line::Tick(clock))
}

#[tactic(auto, unfolding(crate::specs::Lines::close_at))]
fn read_close(s: &[u8], at: usize) -> Line
    ensures { result ≡ close_at s.now at }
{
    let Some((clock, e)) = read_clock(s, at) else {
        return Line::NotACall(at, Wanted::Clock);
    };
    ended(s, e, Line::Close(clock))
}

#[tactic(auto, unfolding(crate::specs::Lines::closing_at))]
fn read_closing(s: &[u8], at: usize) -> Line
    ensures { result ≡ closing_at s.now at }
{
    let Some((clock, a)) = read_clock(s, at) else {
        return Line::NotACall(at, Wanted::Clock);
    };
    let Some((date, b)) = read_date(s, a) else {
        return Line::NotACall(a, Wanted::Date);
    };
    let Some((file, e)) = word(s, b) else {
        return Line::NotACall(b, Wanted::FileName);
    };
    ended(s, e, Line::Closing(clock, date, file))
}

#[tactic(auto, unfolding(crate::specs::Lines::next_call))]
fn next_call(s: &[u8], a: usize, e: usize) -> Line
    ensures { result ≡ next_call s.now a e }
{
    if is_word(s, a, e, b"status") {
        return read_status(s, e);
    }
    if is_word(s, a, e, b"tick") {
        return read_tick(s, e);
    }
    if is_word(s, a, e, b"close") {
        return read_close(s, e);
    }
    if is_word(s, a, e, b"closing") {
        return read_closing(s, e);
    }
    Line::NotACall(a, Wanted::Command)
}

#[tactic(auto, unfolding(crate::specs::Lines::first_call))]
fn first_call(s: &[u8], a: usize, e: usize) -> Line
    ensures { result ≡ first_call s.now a e }
{
    if is_word(s, a, e, b"open") {
        return read_open(s, e);
    }
    if is_word(s, a, e, b"message") {
        return read_message(s, e);
    }
    if is_word(s, a, e, b"sublimit") {
        return read_sublimit(s, e);
    }
    next_call(s, a, e)
}

// What a line asks for. A line without a word is skipped.
#[tactic(auto, unfolding(crate::specs::Lines::line_in))]
pub fn read_line(s: &[u8]) -> Line
    ensures { result ≡ line_in s.now }
{
    let Some((a, e)) = word(s, 0) else {
        return Line::Skip;
    };
    if is_word(s, a, e, b"clear") {
        return ended(s, e, Line::Clear);
    }
    if is_word(s, a, e, b"show") {
        return ended(s, e, Line::Show);
    }
    if is_word(s, a, e, b"why") {
        return ended(s, e, Line::Why);
    }
    first_call(s, a, e)
}

// Steps over a text at a place: a fixed string, a run of A-Z 0-9, a number, the end of a line.
#![tactic(auto)]

ghost use Rattle.std.specs.Prelude.{◌≡◌, ◌<◌, take, drop};
ghost use Rattle.text_scan.specs.Scan.{lit_at, codes_at, code_at, digits_at, number_at, line_end_at, most, ten, Fits};

// A place in a text.
#[derive(Clone, Copy)]
pub struct Cursor {
    pub at: usize,
}

impl Cursor {
    // Where a text begins.
    pub const START: usize = 0;

    pub fn new() -> Cursor
        ensures { result.at ≡ 0 }
    {
        Cursor { at: Self::START }
    }
}

// The bytes that stand from a place on, at most `max` of them.
fn window(s: &[u8], at: usize, max: usize) -> &[u8]
    ensures { result.now ≡ take max (drop at s.now) }
{
    if s.len() <= at {
        return &[];
    }
    &s[at..at + max.min(s.len() - at)]
}

// The fixed string `tag` at a place. Kept as a loop: `==` of slices is a call, and costs the reader of a request a fifth of its instructions more.
pub fn lit(s: &[u8], at: usize, tag: &[u8]) -> Option<usize>
    ensures { result ≡ lit_at s.now at tag.now }
{
    if s.len().saturating_sub(at) < tag.len() {
        return None;
    }
    for i in 0..tag.len() {
        if s[at + i] != tag[i] {
            return None;
        }
    }
    Some(at + tag.len())
}

// Past the A-Z 0-9 that stand at a place, at most `max` of them.
pub fn codes(s: &[u8], at: usize, max: usize) -> usize
    ensures { result ≡ codes_at s.now at max }
{
    let here = window(s, at, max);
    for (i, b) in here.iter().enumerate() {
        if !chars::is_code(*b) {
            return at + i;
        }
    }
    at + here.len()
}

// Past just `n` of A-Z 0-9.
pub fn code(s: &[u8], at: usize, n: usize) -> Option<usize>
    ensures { result ≡ code_at s.now at n }
{
    if s.len().saturating_sub(at) < n {
        return None;
    }
    let end = codes(s, at, n);
    if end - at == n { Some(end) } else { None }
}

// Past the digits that stand at a place, and the number that they make.
#[derive(Clone, Copy)]
pub struct Run {
    pub end: usize,
    pub value: u64,
}

// At most `max` digits, and never more than 18: so many fit a u64.
pub fn digits(s: &[u8], at: usize, max: usize) -> Run
    ensures value { result ≡ digits_at s.now at (most max) }
    ensures small { result.value < ten (most max) }
{
    let mut v: u64 = 0;
    let here = window(s, at, max.min(18));
    for (i, b) in here.iter().enumerate() {
        if !chars::is_digit(*b) {
            return Run {
                end: at + i,
                value: v,
            };
        }
        v = v * 10 + chars::digit_value(*b);
    }
    Run {
        end: at + here.len(),
        value: v,
    }
}

// Just `n` digits, at most 18.
pub fn number(s: &[u8], at: usize, n: usize) -> Option<(u64, usize)>
    ensures value { result ≡ number_at s.now at n }
    ensures small { Fits n result }
{
    if n > 18 {
        return None;
    }
    if s.len().saturating_sub(at) < n {
        return None;
    }
    let run = digits(s, at, n);
    if run.end - at == n {
        Some((run.value, run.end))
    } else {
        None
    }
}

// Where the first CR LF at or after a place stands, no more than `max` bytes on.
pub fn line_end(s: &[u8], at: usize, max: usize) -> Option<usize>
    ensures { result ≡ line_end_at s.now at max }
{
    for j in at..s.len() {
        if let Some(_) = lit(s, j, b"\r\n") {
            return Some(j);
        }
        if j - at == max {
            return None;
        }
    }
    None
}

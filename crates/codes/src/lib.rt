// Codes as numbers, big-endian: four characters as one, one to sixteen as two.
#![tactic(auto)]

ghost use Rattle.std.specs.Prelude.{◌≡◌, ◌+◌, ◌≤◌, ◌<◌, ◌^◌, length, get_or, take, drop};
ghost use Rattle.codes.specs.Codes.{no_code, packed, short_at, long_at, unpacked, short_text, spelled, long_text};

// A reference or a BIN: its characters filled up to sixteen with zeros, eight in each number.
#[derive(Clone, Copy)]
pub struct Code {
    pub high: u64,
    pub low: u64,
}

impl Code {
    pub const LONGEST: usize = 16;

    pub const HALF: usize = 8;

    pub const SHORT: usize = 4;

    // Of a field that is not there.
    pub fn nothing() -> Code
        ensures { result ≡ no_code }
    {
        Code { high: 0, low: 0 }
    }
}

// The i-th of the n bytes that stand at a place, 0 where there is none.
fn byte(s: &[u8], at: usize, n: usize, i: usize) -> u8
    ensures { result ≡ get_or (take n (drop at s.now)) i 0 }
{
    if i < n && at < s.len() && i < s.len() - at {
        s[at + i]
    } else {
        0
    }
}

// Of the n bytes at a place the w from the one numbered `from` on, as a number.
fn pack(s: &[u8], at: usize, n: usize, from: usize, w: usize) -> u64
    requires { (from ≤ 8) × (w ≤ 8) }
    ensures value { result ≡ packed w (drop from (take n (drop at s.now))) }
    ensures small { result < 256 ^ w }
{
    let mut v: u64 = 0;
    for i in 0..w {
        v = v * 256 + u64::from(byte(s, at, n, from + i));
    }
    v
}

// The four bytes at a place as a number; those past the end are 0.
pub fn short_code(s: &[u8], at: usize) -> u64
    ensures value { result ≡ short_at s.now at }
    ensures small { result < 4294967296 }
{
    pack(s, at, Code::SHORT, 0, Code::SHORT)
}

// The n bytes at a place, sixteen at the most, as a code; those past the end are 0.
pub fn long_code(s: &[u8], at: usize, n: usize) -> Code
    ensures { result ≡ long_at s.now at n }
{
    Code {
        high: pack(s, at, n, 0, Code::HALF),
        low: pack(s, at, n, Code::HALF, Code::HALF),
    }
}

// The i-th of the w bytes of a number, eight at the most; 0 past them.
fn byte_of(v: u64, w: usize, i: usize) -> u8
    requires { w ≤ 8 }
    ensures { result ≡ get_or (unpacked w v) i 0 }
{
    if w <= i {
        return 0;
    }
    ((v >> (8 * (w - 1 - i))) % 256) as u8
}

// The i-th character of a bank or a stream; 0 past the fourth.
pub fn short_byte(v: u64, i: usize) -> u8
    ensures { result ≡ get_or (short_text v) i 0 }
{
    byte_of(v, Code::SHORT, i)
}

impl Code {
    // The i-th of the sixteen bytes; 0 past them.
    pub fn byte(self, i: usize) -> u8
        ensures { result ≡ get_or (spelled self) i 0 }
    {
        if i < Code::HALF {
            return byte_of(self.high, Code::HALF, i);
        }
        byte_of(self.low, Code::HALF, i - Code::HALF)
    }

    // How many characters a code has: the bytes before the first zero.
    pub fn len(self) -> usize
        ensures value { result ≡ length (long_text self) }
        ensures small { result ≤ 16 }
    {
        for i in 0..Code::LONGEST {
            if self.byte(i) == 0 {
                return i;
            }
        }
        Code::LONGEST
    }
}

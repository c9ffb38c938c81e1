// References and BINs that the text's rules allow.
ghost use Rattle.std.specs.Prelude.{◌≡◌, ◌∷◌, [], ℕ, ◌+◌, ◌≤◌, ◌<◌, Bool, length, take, drop};
ghost use Rattle.chars.specs.Chars.{is_code, is_digit};
ghost use Rattle.codes.specs.Codes.{NoZero, spelled, long_text};
ghost use Rattle.text_scan.specs.Scan.{begins};
ghost use Rattle.text_names.specs.rules.Names.{all_are, Tells, is_whole, forbidden, is_reference, is_bin, bin_stream};

use codes::Code;

// The forbidden beginnings.
const RITS: [u8; 4] = *b"RITS";

const ACLR: [u8; 4] = *b"ACLR";

const ASXC: [u8; 4] = *b"ASXC";

// The number after the last of four characters.
const SHORT_END: u64 = 4_294_967_296;

// The bytes of a code from one place up to another are all of a class.
fn are_all<F: Fn(u8) -> bool>(c: Code, from: usize, to: usize, is: F) -> bool
    requires callable { F.IsAlwaysCallable is }
    requires within { to ≤ 16 }
    ensures { (class : ℕ → Bool) → Tells (F.post is) class → result ≡ all_are class (drop from (take to (spelled c))) }
{
    for i in from..to {
        if !is(c.byte(i)) {
            return false;
        }
    }
    true
}

// No character stands after the first zero.
fn is_whole(c: Code) -> bool
    ensures { result ≡ is_whole c }
{
    are_all(c, c.len(), Code::LONGEST, |b| b == 0)
}

// The first n characters are A-Z 0-9.
fn are_codes(c: Code, n: usize) -> bool
    requires { n ≤ length (long_text c) }
    ensures { result ≡ all_are is_code (take n (long_text c)) }
{
    are_all(c, 0, n, chars::is_code)
}

// The four characters from the fifth on are digits.
fn are_digits(c: Code) -> bool
    requires { length (long_text c) ≡ 8 }
    ensures { result ≡ all_are is_digit (drop 4 (long_text c)) }
{
    are_all(c, 4, 8, chars::is_digit)
}

// The code begins with a word of four characters.
fn begins_with(c: Code, word: &[u8; 4]) -> bool
    requires { (length word.now ≡ 4) × NoZero word.now }
    ensures { result ≡ begins word.now (long_text c) }
{
    for (i, b) in word.iter().enumerate() {
        if c.byte(i) != *b {
            return false;
        }
    }
    true
}

// "not beginning RITS, ACLR or ASXC"
pub fn is_forbidden(c: Code) -> bool
    ensures { result ≡ forbidden (long_text c) }
{
    begins_with(c, &RITS) || begins_with(c, &ACLR) || begins_with(c, &ASXC)
}

// "reference, 1 to 16 of A-Z 0-9, not beginning RITS, ACLR or ASXC"
pub fn is_reference(c: Code) -> bool
    ensures { result ≡ is_reference c }
{
    let n = c.len();
    is_whole(c) && n != 0 && are_codes(c, n) && !is_forbidden(c)
}

// "BIN: the 4 of the stream, then 4 digits"
pub fn is_bin(c: Code) -> bool
    ensures { result ≡ is_bin c }
{
    is_whole(c) && c.len() == 8 && are_codes(c, 4) && are_digits(c)
}

// The stream of a BIN: its first four characters.
pub fn stream_of(bin: Code) -> u64
    ensures { result ≡ bin_stream bin }
{
    bin.high / SHORT_END
}

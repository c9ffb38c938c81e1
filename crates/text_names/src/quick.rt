// References and BINs, told from their last character on: one look at each character, where the rules allow the code.
ghost use Rattle.std.specs.Prelude.{◌≡◌, true, false, ℕ, ◌≤◌, Bool};
ghost use Rattle.chars.specs.Chars.{is_code, is_digit};
ghost use Rattle.codes.specs.Codes.{unpacked, long_text};
ghost use Rattle.text_names.specs.rules.Names.{all_are, Tells, forbidden, is_reference, is_bin};
ghost use Rattle.text_names.specs.quick.Ends.{Ends, Plain};

use crate::rules;
use codes::Code;

// Characters of a number, the last so many.
#[derive(Clone, Copy)]
pub struct Tail {
    pub value: u64,
    pub width: usize,
}

// Eight characters without the zeros at their end.
fn stripped(v: u64) -> Tail
    ensures { Ends (unpacked 8 v) result.width result.value }
{
    let mut value = v;
    for width in (1..9).rev() {
        if value % 256 != 0 {
            return Tail { value, width };
        }
        value /= 256;
    }
    Tail { value, width: 0 }
}

// The last so many characters of a number are all of a class.
fn are_all<F: Fn(u8) -> bool>(v: u64, w: usize, is: F) -> bool
    requires { F.IsAlwaysCallable is }
    ensures { (class : ℕ → Bool) → Tells (F.post is) class → result ≡ all_are class (unpacked w v) }
{
    let mut rest = v;
    for _left in (0..w).rev() {
        if !is((rest % 256) as u8) {
            return false;
        }
        rest /= 256;
    }
    true
}

fn are_codes(v: u64, w: usize) -> bool
    ensures { result ≡ all_are is_code (unpacked w v) }
{
    are_all(v, w, chars::is_code)
}

fn are_digits(v: u64, w: usize) -> bool
    ensures { result ≡ all_are is_digit (unpacked w v) }
{
    are_all(v, w, chars::is_digit)
}

// Some characters A-Z 0-9, and zeros behind them.
fn is_plain(c: Code) -> bool
    ensures { result ≡ true → Plain c }
{
    if c.low == 0 {
        let end = stripped(c.high);
        return end.width != 0 && are_codes(end.value, end.width);
    }
    let end = stripped(c.low);
    are_codes(end.value, end.width) && are_codes(c.high, 8)
}

// "reference, 1 to 16 of A-Z 0-9, not beginning RITS, ACLR or ASXC"
pub fn is_reference(c: Code) -> bool
    ensures { result ≡ is_reference c }
{
    if !is_plain(c) {
        return rules::is_reference(c);
    }
    !rules::is_forbidden(c)
}

// "BIN: the 4 of the stream, then 4 digits"
pub fn is_bin(c: Code) -> bool
    ensures { result ≡ is_bin c }
{
    if c.low != 0 || !are_digits(c.high, 4) || !are_codes(rules::stream_of(c), 4) {
        return rules::is_bin(c);
    }
    true
}

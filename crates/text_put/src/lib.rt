// Writing into a lent buffer at a place. What does not fit is not written, and nothing else changes.
#![tactic(auto)]

ghost use Rattle.std.specs.Prelude.{◌≡◌, [], ◌∷◌, ◌+◌};
ghost use Rattle.std.proofs.lemmas.List.Edits.{sets};
ghost use Rattle.codes.specs.Codes.{short_text, long_text};
ghost use Rattle.text_put.specs.Digits.{digits_of};

use codes::Code;

// One byte.
fn byte(out: &mut [u8], at: usize, i: usize, b: u8)
    ensures { out.new ≡ sets out.old (at + i) (b ∷ []) }
{
    if at < out.len() && i < out.len() - at {
        out[at + i] = b;
    }
}

// The bytes of a text.
pub fn bytes(out: &mut [u8], at: usize, text: &[u8])
    ensures { out.new ≡ sets out.old at text.now }
{
    for (i, b) in text.iter().enumerate() {
        byte(out, at, i, *b);
    }
}

// The last k decimal digits of a number.
pub fn digits(out: &mut [u8], at: usize, v: u64, k: usize)
    ensures { out.new ≡ sets out.old at (digits_of k v) }
{
    let mut rest = v;
    for i in (0..k).rev() {
        byte(out, at, i, (rest % 10) as u8 + 48);
        rest /= 10;
    }
}

// The four characters of a bank or a stream.
pub fn short_code(out: &mut [u8], at: usize, v: u64)
    ensures { out.new ≡ sets out.old at (short_text v) }
{
    for i in 0..Code::SHORT {
        byte(out, at, i, codes::short_byte(v, i));
    }
}

// The characters of a reference or a BIN.
pub fn long_code(out: &mut [u8], at: usize, code: Code)
    ensures { out.new ≡ sets out.old at (long_text code) }
{
    for i in 0..code.len() {
        byte(out, at, i, code.byte(i));
    }
}

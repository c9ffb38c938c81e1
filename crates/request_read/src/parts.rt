// The fields of a request, each as the part of the lent text where it stands.
ghost use Rattle.std.specs.Prelude.{◌≡◌};
ghost use Rattle.text_values.specs.Values.{text_of};

use crate::payments::Payment;
use crate::terms::Terms;
use crate::whole::{Address, Head, Reading};

pub fn reference_text(s: &[u8], h: Head) -> &[u8]
    ensures { result.now ≡ text_of s.now h.reference.part }
{
    text_values::text_of(s, h.reference.part)
}

pub fn sub_type_text(s: &[u8], h: Head) -> &[u8]
    ensures { result.now ≡ text_of s.now h.subtype.part }
{
    text_values::text_of(s, h.subtype.part)
}

pub fn stream_text(s: &[u8], a: Address) -> &[u8]
    ensures { result.now ≡ text_of s.now a.stream.part }
{
    text_values::text_of(s, a.stream.part)
}

pub fn bin_text(s: &[u8], a: Address) -> &[u8]
    ensures { result.now ≡ text_of s.now a.bin.part }
{
    text_values::text_of(s, a.bin.part)
}

pub fn numbers_text(s: &[u8], t: Terms) -> &[u8]
    ensures { result.now ≡ text_of s.now t.numbers }
{
    text_values::text_of(s, t.numbers)
}

pub fn date_text(s: &[u8], t: Terms) -> &[u8]
    ensures { result.now ≡ text_of s.now t.date.part }
{
    text_values::text_of(s, t.date.part)
}

pub fn activation_text(s: &[u8], t: Terms) -> &[u8]
    ensures { result.now ≡ text_of s.now t.activated }
{
    text_values::text_of(s, t.activated)
}

pub fn side_text(s: &[u8], p: Payment) -> &[u8]
    ensures { result.now ≡ text_of s.now p.side.part }
{
    text_values::text_of(s, p.side.part)
}

pub fn amount_text(s: &[u8], p: Payment) -> &[u8]
    ensures { result.now ≡ text_of s.now p.amount.part }
{
    text_values::text_of(s, p.amount.part)
}

pub fn letters_text(s: &[u8], p: Payment) -> &[u8]
    ensures { result.now ≡ text_of s.now p.letters.part }
{
    text_values::text_of(s, p.letters.part)
}

pub fn bank_text(s: &[u8], p: Payment) -> &[u8]
    ensures { result.now ≡ text_of s.now p.bank.part }
{
    text_values::text_of(s, p.bank.part)
}

pub fn count_text(s: &[u8], r: Reading) -> &[u8]
    ensures { result.now ≡ text_of s.now r.count.part }
{
    text_values::text_of(s, r.count.part)
}

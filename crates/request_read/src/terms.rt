// What a settlement request says of its message: number and count, date, activation.
ghost use Rattle.std.specs.Prelude.{◌≡◌};
ghost use Rattle.request_read.specs.terms.Terms.{no_terms, activation_at, terms_at};

use text_fields::{Break, Item};
use text_scan::Cursor;
use text_values::Part;

// The minute of the day from which a batch may settle. Kept an enum: `AtOnce` says what a `None` would not.
#[derive(Clone, Copy)]
pub enum Activation {
    AtOnce,
    Minute(u64),
}

// 175, whose line may be missing.
#[tactic(auto, unfolding(crate::specs::terms::Terms::activation_at))]
pub fn read_activation(s: &[u8], c: Cursor) -> Result<(Activation, Part, Cursor), Break>
    ensures { result ≡ activation_at s.now c.at }
{
    if text_scan::lit(s, c.at, b":175:").is_none() {
        return Ok((Activation::AtOnce, Part::nowhere(), c));
    }
    let (time, c) = text_fields::read_time(s, c)?;
    Ok((Activation::Minute(time.number), time.part, c))
}

#[derive(Clone, Copy)]
pub struct Terms {
    pub numbers: Part,
    pub number: u64,
    pub count: u64,
    pub date: Item,
    pub activation: Activation,
    pub activated: Part,
}

impl Terms {
    // Of a text that has none.
    pub fn nothing() -> Terms
        ensures { result ≡ no_terms }
    {
        Terms {
            numbers: Part::nowhere(),
            number: 0,
            count: 0,
            date: Item::nothing(),
            activation: Activation::AtOnce,
            activated: Part::nowhere(),
        }
    }
}

// 16A, 171 and 175.
#[tactic(auto, unfolding(crate::specs::terms::Terms::terms_at))]
pub fn read_terms(s: &[u8], c: Cursor) -> Result<(Terms, Cursor), Break>
    ensures { result ≡ terms_at s.now c.at }
{
    let (batch, c) = text_fields::read_numbers(s, c)?;
    let (date, c) = text_fields::read_date(s, c)?;
    let (activation, activated, c) = read_activation(s, c)?;
    let numbers = batch.part;
    let terms = Terms {
        numbers,
        number: batch.number,
        count: text_values::count_in(text_values::text_of(s, numbers)),
        date,
        activation,
        activated,
    };
    Ok((terms, c))
}

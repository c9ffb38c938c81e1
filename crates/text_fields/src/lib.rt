// A line of a text: `:tag:value` and CR LF. Each field is a step from a cursor to the next.
#![tactic(auto)]

ghost use Rattle.std.specs.Prelude.{◌≡◌};
ghost use Rattle.chars.specs.Words.{bytes};
ghost use Rattle.text_fields.specs.Fields.{absent, nothing, broken, value_at, field_at};
ghost use Rattle.text_fields.specs.declared.Kind.TheVariants.{Empty, Reference, Numeral, Word, Bin, Numbers, Date, Time, Side, Amount, Letters, Count};

use chars::Refusal;
use text_scan::Cursor;
use text_values::Part;

// Why a text is refused: the number, where the line begins that breaks it, and whether a mandatory
// field is missing there (the text ends, or something else than a tag that is expected stands there).
#[derive(Clone, Copy)]
pub struct Break {
    pub refusal: Refusal,
    pub at: usize,
    pub missing: bool,
}

impl Break {
    // No tag that is expected stands where a line begins.
    pub fn absent(at: usize) -> Break
        ensures { result ≡ absent at }
    {
        Break {
            refusal: Refusal::Malformed,
            at,
            missing: true,
        }
    }

    // A value is wrong in the line that begins there.
    pub fn wrong(at: usize, refusal: Refusal) -> Break
        ensures { result ≡ broken at refusal }
    {
        Break {
            refusal,
            at,
            missing: false,
        }
    }
}

// Where a field's value stands, and the number beside it; 0 for a value that has none.
#[derive(Clone, Copy)]
pub struct Item {
    pub part: Part,
    pub number: u64,
}

impl Item {
    // Of a field that the text does not have.
    pub fn nothing() -> Item
        ensures { result ≡ nothing }
    {
        Item {
            part: Part::nowhere(),
            number: 0,
        }
    }
}

// What a line's value is.
#[derive(Clone, Copy)]
pub enum Kind {
    Empty,
    Reference,
    Numeral(usize),
    Word(usize),
    Bin(Part),
    Numbers,
    Date,
    Time,
    Side,
    Amount,
    Letters,
    Count(u64),
}

// The value of a kind at a place.
#[inline(always)]
fn read_value(s: &[u8], at: usize, kind: Kind) -> Result<(u64, usize), Refusal>
    ensures { result ≡ value_at s.now at kind }
{
    match kind {
        Kind::Empty => Ok((0, at)),
        Kind::Reference => text_values::read_reference(s, at),
        Kind::Numeral(n) => text_values::read_numeral(s, at, n),
        Kind::Word(n) => text_values::read_word(s, at, n),
        Kind::Bin(stream) => text_values::read_bin(s, at, stream),
        Kind::Numbers => text_values::read_numbers(s, at),
        Kind::Date => text_values::read_date(s, at),
        Kind::Time => text_values::read_time(s, at),
        Kind::Side => text_values::read_side(s, at),
        Kind::Amount => text_values::read_amount(s, at),
        Kind::Letters => text_values::read_letters(s, at),
        Kind::Count(n) => text_values::read_count(s, at, n),
    }
}

// A line of a tag and a value of a kind. It is compiled anew for each step below, where tag and kind are known.
#[inline(always)]
#[tactic(auto, unfolding(crate::specs::Fields::field_at))]
fn read_field(s: &[u8], c: Cursor, tag: &[u8], kind: Kind) -> Result<(Item, Cursor), Break>
    ensures { result ≡ field_at s.now c.at tag.now kind }
{
    let at = c.at;
    let start = text_scan::lit(s, at, tag).ok_or(Break::absent(at))?;
    let (number, end) = match read_value(s, start, kind) {
        Ok(read) => read,
        Err(refusal) => return Err(Break::wrong(at, refusal)),
    };
    let next = text_scan::lit(s, end, b"\r\n").ok_or(Break::wrong(at, Refusal::Malformed))?;
    let part = Part { start, end };
    Ok((Item { part, number }, Cursor { at: next }))
}

// The steps, one for each tag.

// 20: the reference.
pub fn read_reference(s: &[u8], c: Cursor) -> Result<(Item, Cursor), Break>
    ensures { result ≡ field_at s.now c.at (bytes ":20:") Reference }
{
    read_field(s, c, b":20:", Kind::Reference)
}

// 21: the reference of the request.
pub fn read_requested(s: &[u8], c: Cursor) -> Result<(Item, Cursor), Break>
    ensures { result ≡ field_at s.now c.at (bytes ":21:") Reference }
{
    read_field(s, c, b":21:", Kind::Reference)
}

// The number of a response, behind the tag of its 20: B and seven digits.
pub fn read_serial(s: &[u8], c: Cursor) -> Result<(Item, Cursor), Break>
    ensures { result ≡ field_at s.now c.at (bytes "B") (Numeral 7) }
{
    read_field(s, c, b"B", Kind::Numeral(7))
}

// 12: the sub type, three digits.
pub fn read_sub_type(s: &[u8], c: Cursor) -> Result<(Item, Cursor), Break>
    ensures { result ≡ field_at s.now c.at (bytes ":12:") (Numeral 3) }
{
    read_field(s, c, b":12:", Kind::Numeral(3))
}

// 77E, which is empty.
pub fn read_empty(s: &[u8], c: Cursor) -> Result<(Item, Cursor), Break>
    ensures { result ≡ field_at s.now c.at (bytes ":77E:") Empty }
{
    read_field(s, c, b":77E:", Kind::Empty)
}

// 22A: the stream.
pub fn read_stream(s: &[u8], c: Cursor) -> Result<(Item, Cursor), Break>
    ensures { result ≡ field_at s.now c.at (bytes ":22A:") (Word 4) }
{
    read_field(s, c, b":22A:", Kind::Word(4))
}

// 119: the BIN of a stream.
pub fn read_bin(s: &[u8], c: Cursor, stream: Part) -> Result<(Item, Cursor), Break>
    ensures { result ≡ field_at s.now c.at (bytes ":119:") (Bin stream) }
{
    read_field(s, c, b":119:", Kind::Bin(stream))
}

// 16A: a number and a count.
pub fn read_numbers(s: &[u8], c: Cursor) -> Result<(Item, Cursor), Break>
    ensures { result ≡ field_at s.now c.at (bytes ":16A:") Numbers }
{
    read_field(s, c, b":16A:", Kind::Numbers)
}

// 171: the settlement date.
pub fn read_date(s: &[u8], c: Cursor) -> Result<(Item, Cursor), Break>
    ensures { result ≡ field_at s.now c.at (bytes ":171:") Date }
{
    read_field(s, c, b":171:", Kind::Date)
}

// 175: the activation, a time of day.
pub fn read_time(s: &[u8], c: Cursor) -> Result<(Item, Cursor), Break>
    ensures { result ≡ field_at s.now c.at (bytes ":175:") Time }
{
    read_field(s, c, b":175:", Kind::Time)
}

// 127: CR or DR.
pub fn read_side(s: &[u8], c: Cursor) -> Result<(Item, Cursor), Break>
    ensures { result ≡ field_at s.now c.at (bytes ":127:") Side }
{
    read_field(s, c, b":127:", Kind::Side)
}

// 32B: the amount.
pub fn read_amount(s: &[u8], c: Cursor) -> Result<(Item, Cursor), Break>
    ensures { result ≡ field_at s.now c.at (bytes ":32B:") Amount }
{
    read_field(s, c, b":32B:", Kind::Amount)
}

// 113: the letters of a debit.
pub fn read_letters(s: &[u8], c: Cursor) -> Result<(Item, Cursor), Break>
    ensures { result ≡ field_at s.now c.at (bytes ":113:") Letters }
{
    read_field(s, c, b":113:", Kind::Letters)
}

// 102: the bank.
pub fn read_bank(s: &[u8], c: Cursor) -> Result<(Item, Cursor), Break>
    ensures { result ≡ field_at s.now c.at (bytes ":102:") (Word 4) }
{
    read_field(s, c, b":102:", Kind::Word(4))
}

// 203: the number of payments, which is to be k.
pub fn read_count(s: &[u8], c: Cursor, k: u64) -> Result<(Item, Cursor), Break>
    ensures { result ≡ field_at s.now c.at (bytes ":203:") (Count k) }
{
    read_field(s, c, b":203:", Kind::Count(k))
}

// 451: one digit.
pub fn read_status(s: &[u8], c: Cursor) -> Result<(Item, Cursor), Break>
    ensures { result ≡ field_at s.now c.at (bytes ":451:") (Numeral 1) }
{
    read_field(s, c, b":451:", Kind::Numeral(1))
}

// 432: the number of a refusal, two digits.
pub fn read_refusal(s: &[u8], c: Cursor) -> Result<(Item, Cursor), Break>
    ensures { result ≡ field_at s.now c.at (bytes ":432:") (Numeral 2) }
{
    read_field(s, c, b":432:", Kind::Numeral(2))
}

// 13E: date and time, twelve digits.
pub fn read_moment(s: &[u8], c: Cursor) -> Result<(Item, Cursor), Break>
    ensures { result ≡ field_at s.now c.at (bytes ":13E:") (Numeral 12) }
{
    read_field(s, c, b":13E:", Kind::Numeral(12))
}

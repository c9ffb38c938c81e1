// A whole request: 131, which settles, and 133, which recalls.
ghost use Rattle.std.specs.Prelude.{◌≡◌};
ghost use Rattle.text_fields.specs.Fields.{nothing};
ghost use Rattle.request_read.specs.whole.Request.{no_name, named_at, nowhere, to_stream, bare, refusal, address_at, settlement_at, recall_at, broken_off, addressed_at, beginning_at, request_at};

use crate::payments::Payment;
use crate::terms::Terms;
use chars::Refusal;
use codes::Code;
use text_fields::{Break, Item};
use text_scan::Cursor;
use text_values::Part;

// A reference or a BIN: where it stands, and its code.
#[derive(Clone, Copy)]
pub struct Named {
    pub part: Part,
    pub code: Code,
}

impl Named {
    // Of a field that the text does not have.
    fn nothing() -> Named
        ensures { result ≡ no_name }
    {
        Named {
            part: Part::nowhere(),
            code: Code::nothing(),
        }
    }
}

// How far the address of a request was read well.
#[derive(Clone, Copy)]
pub enum Reached {
    Nothing,
    Stream,
    Bin,
}

// The stream and the BIN, zero where they were not read.
#[derive(Clone, Copy)]
pub struct Address {
    pub reached: Reached,
    pub stream: Item,
    pub bin: Named,
}

#[derive(Clone, Copy)]
pub struct Head {
    pub reference: Named,
    pub subtype: Item,
    pub address: Address,
}

// What a text is.
#[derive(Clone, Copy)]
pub enum Outcome {
    Settlement,
    Recall,
    Refused(Break),
}

// What was read. The first n places hold the payments. Of a recall only the head is there; of a
// text that is refused only the sub type and the address, as far as they were read; all else is zero.
#[derive(Clone, Copy)]
pub struct Reading {
    pub outcome: Outcome,
    pub head: Head,
    pub terms: Terms,
    pub payments: [Payment; 10],
    pub n: usize,
    pub count: Item,
}

// The part and its code.
#[tactic(auto, unfolding(crate::specs::whole::Request::named_at))]
fn name_at(s: &[u8], part: Part) -> Named
    ensures { result ≡ named_at s.now part }
{
    Named {
        part,
        code: text_values::code_of(s, part),
    }
}

impl Address {
    fn nowhere() -> Address
        ensures { result ≡ nowhere }
    {
        Address {
            reached: Reached::Nothing,
            stream: Item::nothing(),
            bin: Named::nothing(),
        }
    }

    fn to_stream(stream: Item) -> Address
        ensures { result ≡ to_stream stream }
    {
        Address {
            reached: Reached::Stream,
            stream,
            bin: Named::nothing(),
        }
    }
}

impl Reading {
    // No payments and no terms.
    fn bare(outcome: Outcome, head: Head) -> Reading
        ensures { result ≡ bare outcome head }
    {
        Reading {
            outcome,
            head,
            terms: Terms::nothing(),
            payments: [Payment::nothing(); 10],
            n: 0,
            count: Item::nothing(),
        }
    }

    // Nothing but the break, the sub type and the address so far.
    fn refused(subtype: Item, b: Break, address: Address) -> Reading
        ensures { result ≡ refusal subtype b address }
    {
        Reading::bare(
            Outcome::Refused(b),
            Head {
                reference: Named::nothing(),
                subtype,
                address,
            },
        )
    }
}

// 77E, 22A and 119; or the break, and the address so far.
#[tactic(auto, unfolding(crate::specs::whole::Request::address_at))]
fn read_address(s: &[u8], c: Cursor) -> Result<(Address, Cursor), (Break, Address)>
    ensures { result ≡ address_at s.now c.at }
{
    let c = match text_fields::read_empty(s, c) {
        Ok((_, c)) => c,
        Err(b) => return Err((b, Address::nowhere())),
    };
    let (stream, c) = match text_fields::read_stream(s, c) {
        Ok(read) => read,
        Err(b) => return Err((b, Address::nowhere())),
    };
    match text_fields::read_bin(s, c, stream.part) {
        Err(b) => Err((b, Address::to_stream(stream))),
        Ok((bin, c)) => {
            let bin = name_at(s, bin.part);
            let reached = Reached::Bin;
            let address = Address {
                reached,
                stream,
                bin,
            };
            Ok((address, c))
        }
    }
}

// After 119 of a 131: the terms, the payments, their number, and nothing more.
#[tactic(auto, unfolding(crate::specs::whole::Request::settlement_at))]
fn read_settlement(s: &[u8], c: Cursor, head: Head) -> Reading
    ensures { result ≡ settlement_at s.now c.at head }
{
    let subtype = head.subtype;
    let address = head.address;
    let (terms, c) = match crate::terms::read_terms(s, c) {
        Ok(read) => read,
        Err(b) => return Reading::refused(subtype, b, address),
    };
    let read = crate::payments::read_payments(s, c);
    let n = read.n;
    let c = match read.ending {
        Ok(c) => c,
        Err(b) => return Reading::refused(subtype, b, address),
    };
    let (count, c) = match text_fields::read_count(s, c, n as u64) {
        Ok(read) => read,
        Err(b) => return Reading::refused(subtype, b, address),
    };
    if c.at < s.len() {
        return Reading::refused(subtype, Break::absent(c.at), address);
    }
    let payments = read.items;
    Reading {
        outcome: Outcome::Settlement,
        head,
        terms,
        payments,
        n,
        count,
    }
}

// After 119 of a 133: nothing more.
#[tactic(auto, unfolding(crate::specs::whole::Request::recall_at))]
fn read_recall(s: &[u8], c: Cursor, head: Head) -> Reading
    ensures { result ≡ recall_at s.now c.at head }
{
    if c.at < s.len() {
        let subtype = head.subtype;
        let address = head.address;
        return Reading::refused(subtype, Break::absent(c.at), address);
    }
    Reading::bare(Outcome::Recall, head)
}

// How a text begins, up to 119: as a settlement or a recall, with its head and the cursor past it. Of a text that breaks before, the
// head holds only the sub type and the address, as far as they were read.
#[derive(Clone, Copy)]
pub struct Begun {
    pub outcome: Outcome,
    pub head: Head,
    pub next: Cursor,
}

impl Begun {
    // The break, the sub type and the address so far.
    fn broken(subtype: Item, b: Break, address: Address) -> Begun
        ensures { result ≡ broken_off subtype b address }
    {
        Begun {
            outcome: Outcome::Refused(b),
            head: Head {
                reference: Named::nothing(),
                subtype,
                address,
            },
            next: Cursor::new(),
        }
    }

    // Nothing but the break.
    fn unread(b: Break) -> Begun
        ensures { result ≡ broken_off nothing b nowhere }
    {
        Begun::broken(Item::nothing(), b, Address::nowhere())
    }
}

// After 12, of either sub type.
#[tactic(auto, unfolding(crate::specs::whole::Request::addressed_at))]
fn read_addressed(s: &[u8], c: Cursor, reference: Named, subtype: Item) -> Begun
    ensures { result ≡ addressed_at s.now c.at reference subtype }
{
    match read_address(s, c) {
        Err((b, address)) => Begun::broken(subtype, b, address),
        Ok((address, next)) => {
            let head = Head {
                reference,
                subtype,
                address,
            };
            let n = subtype.number;
            match n {
                131 => Begun {
                    outcome: Outcome::Settlement,
                    head,
                    next,
                },
                _ => Begun {
                    outcome: Outcome::Recall,
                    head,
                    next,
                },
            }
        }
    }
}

// 20, 12, 77E, 22A and 119.
#[tactic(auto, unfolding(crate::specs::whole::Request::beginning_at))]
pub fn read_beginning(s: &[u8]) -> Begun
    ensures { result ≡ beginning_at s.now }
{
    let (reference, past) = match text_fields::read_reference(s, Cursor::new()) {
        Ok(read) => read,
        Err(b) => return Begun::unread(b),
    };
    let (subtype, next) = match text_fields::read_sub_type(s, past) {
        Ok(read) => read,
        Err(b) => return Begun::unread(b),
    };
    match subtype.number {
        131 | 133 => read_addressed(s, next, name_at(s, reference.part), subtype),
        _ => Begun::unread(Break::wrong(past.at, Refusal::OtherSubType)),
    }
}

pub fn read_request(s: &[u8]) -> Reading
    ensures { result ≡ request_at s.now }
{
    let b = read_beginning(s);
    let outcome = b.outcome;
    let head = b.head;
    let next = b.next;
    match outcome {
        Outcome::Settlement => read_settlement(s, next, head),
        Outcome::Recall => read_recall(s, next, head),
        Outcome::Refused(_) => Reading::bare(outcome, head),
    }
}

// The reading of a response: 132, which tells how a batch ended, and 134, which answers a recall.
#![tactic(auto)]

ghost use Rattle.std.specs.Prelude.{◌≡◌};
ghost use Rattle.text_values.specs.Values.{text_of};
ghost use Rattle.response_read.specs.Reply.{refused, response_number_at, request_reference_at, batch_at, settled_at, rejected_at, ended_at, answer_at, settlement_of, recall_of, settlement_at, recall_at, response_at};

use chars::Refusal;
use response_write::{Answer, Outcome};
use text_fields::{Break, Item};
use text_scan::Cursor;
use text_values::Part;

// The number after the last of six digits: 13E has a date before its time.
const TIMES: u64 = 1_000_000;

// 20 and 12.
#[derive(Clone, Copy)]
pub struct Head {
    pub number: Item,
    pub subtype: Item,
}

// 22A and 119.
#[derive(Clone, Copy)]
pub struct Batch {
    pub stream: Item,
    pub bin: Item,
}

// What a text is.
#[derive(Clone, Copy)]
pub enum Reply {
    Settlement(response_write::Settlement),
    Recall(response_write::Recall),
    Refused(Break),
}

// Where each field stands: 20 with its B, 12, 21, 22A, 119, 451, and 13E or 432. A field that the
// text does not have, and every field of one that is refused, is at 0 and 0.
#[derive(Clone, Copy)]
pub struct Parts {
    pub number: Part,
    pub subtype: Part,
    pub reference: Part,
    pub stream: Part,
    pub bin: Part,
    pub status: Part,
    pub detail: Part,
}

#[derive(Clone, Copy)]
pub struct ReadResponse {
    pub reply: Reply,
    pub parts: Parts,
}

impl ReadResponse {
    // Nothing but the break.
    fn refused(b: Break) -> ReadResponse
        ensures { result ≡ refused b }
    {
        let part = Part::nowhere();
        ReadResponse {
            reply: Reply::Refused(b),
            parts: Parts {
                number: part,
                subtype: part,
                reference: part,
                stream: part,
                bin: part,
                status: part,
                detail: part,
            },
        }
    }
}

// 20: B and seven digits.
#[tactic(auto, unfolding(crate::specs::Reply::response_number_at))]
fn read_number(s: &[u8]) -> Result<(Item, Cursor), Break>
    ensures { result ≡ response_number_at s.now }
{
    let start = text_scan::lit(s, Cursor::START, b":20:").ok_or(Break::absent(Cursor::START))?;
    match text_fields::read_serial(s, Cursor { at: start }) {
        Err(_) => Err(Break::wrong(Cursor::START, Refusal::Malformed)),
        Ok((serial, c)) => {
            let end = serial.part.end;
            let part = Part { start, end };
            let number = serial.number;
            Ok((Item { part, number }, c))
        }
    }
}

// 77E and 21.
#[tactic(auto, unfolding(crate::specs::Reply::request_reference_at))]
fn read_reference(s: &[u8], c: Cursor) -> Result<(Item, Cursor), Break>
    ensures { result ≡ request_reference_at s.now c.at }
{
    let (_, c) = text_fields::read_empty(s, c)?;
    text_fields::read_requested(s, c)
}

// 22A and 119.
#[tactic(auto, unfolding(crate::specs::Reply::batch_at))]
fn read_batch(s: &[u8], c: Cursor) -> Result<(Batch, Cursor), Break>
    ensures { result ≡ batch_at s.now c.at }
{
    let (stream, c) = text_fields::read_stream(s, c)?;
    let (bin, c) = text_fields::read_bin(s, c, stream.part)?;
    Ok((Batch { stream, bin }, c))
}

// 13E: date and time, twelve digits.
#[tactic(auto, unfolding(crate::specs::Reply::settled_at))]
fn read_settled(s: &[u8], c: Cursor, status: Part) -> Result<(Outcome, Part, Part, Cursor), Break>
    ensures { result ≡ settled_at s.now c.at status }
{
    let wrong = Break::wrong(c.at, Refusal::Malformed);
    let (moment, c) = text_fields::read_moment(s, c)?;
    let day = dates::day_of(moment.number / TIMES).ok_or(wrong)?;
    let second = clock::second_of(moment.number % TIMES).ok_or(wrong)?;
    Ok((Outcome::Settled(day, second), status, moment.part, c))
}

// 432: the number of a refusal.
#[tactic(auto, unfolding(crate::specs::Reply::rejected_at))]
fn read_rejected(s: &[u8], c: Cursor, status: Part) -> Result<(Outcome, Part, Part, Cursor), Break>
    ensures { result ≡ rejected_at s.now c.at status }
{
    let (refusal, c) = text_fields::read_refusal(s, c)?;
    Ok((Outcome::Rejected(refusal.number), status, refusal.part, c))
}

// 451 of a 132, then 13E or 432.
#[tactic(auto, unfolding(crate::specs::Reply::ended_at))]
fn read_ended(s: &[u8], c: Cursor) -> Result<(Outcome, Part, Part, Cursor), Break>
    ensures { result ≡ ended_at s.now c.at }
{
    let (status, next) = text_fields::read_status(s, c)?;
    match status.number {
        0 => read_settled(s, next, status.part),
        1 => read_rejected(s, next, status.part),
        _ => Err(Break::wrong(c.at, Refusal::Malformed)),
    }
}

// 451 of a 134, and 432 after 1.
#[tactic(auto, unfolding(crate::specs::Reply::answer_at))]
fn read_answer(s: &[u8], c: Cursor) -> Result<(Answer, Part, Part, Cursor), Break>
    ensures { result ≡ answer_at s.now c.at }
{
    let (status, next) = text_fields::read_status(s, c)?;
    match status.number {
        0 => Ok((Answer::Recalled, status.part, Part::nowhere(), next)),
        1 => {
            let (refusal, next) = text_fields::read_refusal(s, next)?;
            Ok((
                Answer::Kept(refusal.number),
                status.part,
                refusal.part,
                next,
            ))
        }
        _ => Err(Break::wrong(c.at, Refusal::Malformed)),
    }
}

// A 132 of its fields.
#[tactic(auto, unfolding(crate::specs::Reply::settlement_of))]
fn settlement_of(
    s: &[u8],
    head: Head,
    reference: Item,
    batch: Batch,
    outcome: Outcome,
    status: Part,
    detail: Part,
) -> ReadResponse
    ensures { result ≡ settlement_of s.now head reference batch outcome status detail }
{
    ReadResponse {
        reply: Reply::Settlement(response_write::Settlement {
            number: head.number.number,
            reference: text_values::code_of(s, reference.part),
            stream: batch.stream.number,
            bin: text_values::code_of(s, batch.bin.part),
            outcome,
        }),
        parts: Parts {
            number: head.number.part,
            subtype: head.subtype.part,
            reference: reference.part,
            stream: batch.stream.part,
            bin: batch.bin.part,
            status,
            detail,
        },
    }
}

// A 134 of its fields.
#[tactic(auto, unfolding(crate::specs::Reply::recall_of))]
fn recall_of(
    s: &[u8],
    head: Head,
    reference: Item,
    answer: Answer,
    status: Part,
    detail: Part,
) -> ReadResponse
    ensures { result ≡ recall_of s.now head reference answer status detail }
{
    let none = Part::nowhere();
    ReadResponse {
        reply: Reply::Recall(response_write::Recall {
            number: head.number.number,
            reference: text_values::code_of(s, reference.part),
            answer,
        }),
        parts: Parts {
            number: head.number.part,
            subtype: head.subtype.part,
            reference: reference.part,
            stream: none,
            bin: none,
            status,
            detail,
        },
    }
}

// After 12 of a 132.
#[tactic(auto, unfolding(crate::specs::Reply::settlement_at))]
fn read_settlement(s: &[u8], c: Cursor, head: Head) -> ReadResponse
    ensures { result ≡ settlement_at s.now c.at head }
{
    let (reference, c) = match read_reference(s, c) {
        Ok(read) => read,
        Err(b) => return ReadResponse::refused(b),
    };
    let (batch, c) = match read_batch(s, c) {
        Ok(read) => read,
        Err(b) => return ReadResponse::refused(b),
    };
    let (outcome, status, detail, c) = match read_ended(s, c) {
        Ok(read) => read,
        Err(b) => return ReadResponse::refused(b),
    };
    if c.at < s.len() {
        return ReadResponse::refused(Break::absent(c.at));
    }
    settlement_of(s, head, reference, batch, outcome, status, detail)
}

// After 12 of a 134.
#[tactic(auto, unfolding(crate::specs::Reply::recall_at))]
fn read_recall(s: &[u8], c: Cursor, head: Head) -> ReadResponse
    ensures { result ≡ recall_at s.now c.at head }
{
    let (reference, c) = match read_reference(s, c) {
        Ok(read) => read,
        Err(b) => return ReadResponse::refused(b),
    };
    let (answer, status, detail, c) = match read_answer(s, c) {
        Ok(read) => read,
        Err(b) => return ReadResponse::refused(b),
    };
    if c.at < s.len() {
        return ReadResponse::refused(Break::absent(c.at));
    }
    recall_of(s, head, reference, answer, status, detail)
}

#[tactic(auto, unfolding(crate::specs::Reply::response_at))]
pub fn read_response(s: &[u8]) -> ReadResponse
    ensures { result ≡ response_at s.now }
{
    let (number, past) = match read_number(s) {
        Ok(read) => read,
        Err(b) => return ReadResponse::refused(b),
    };
    let (subtype, next) = match text_fields::read_sub_type(s, past) {
        Ok(read) => read,
        Err(b) => return ReadResponse::refused(b),
    };
    match subtype.number {
        132 => read_settlement(s, next, Head { number, subtype }),
        134 => read_recall(s, next, Head { number, subtype }),
        _ => ReadResponse::refused(Break::wrong(past.at, Refusal::OtherSubType)),
    }
}

// Each field as the part of the lent text where it stands.
pub fn number_text(s: &[u8], p: Parts) -> &[u8]
    ensures { result.now ≡ text_of s.now p.number }
{
    text_values::text_of(s, p.number)
}

pub fn sub_type_text(s: &[u8], p: Parts) -> &[u8]
    ensures { result.now ≡ text_of s.now p.subtype }
{
    text_values::text_of(s, p.subtype)
}

pub fn reference_text(s: &[u8], p: Parts) -> &[u8]
    ensures { result.now ≡ text_of s.now p.reference }
{
    text_values::text_of(s, p.reference)
}

pub fn stream_text(s: &[u8], p: Parts) -> &[u8]
    ensures { result.now ≡ text_of s.now p.stream }
{
    text_values::text_of(s, p.stream)
}

pub fn bin_text(s: &[u8], p: Parts) -> &[u8]
    ensures { result.now ≡ text_of s.now p.bin }
{
    text_values::text_of(s, p.bin)
}

pub fn status_text(s: &[u8], p: Parts) -> &[u8]
    ensures { result.now ≡ text_of s.now p.status }
{
    text_values::text_of(s, p.status)
}

pub fn detail_text(s: &[u8], p: Parts) -> &[u8]
    ensures { result.now ≡ text_of s.now p.detail }
{
    text_values::text_of(s, p.detail)
}

// The break of a text in full, for the C gateway: its line, the tags that may stand there, and where the
// value begins.
ghost use Rattle.std.specs.Prelude.{◌≡◌, cond, ◌≤◌, length};
ghost use Rattle.std.proofs.lemmas.List.Edits.{sets};
ghost use Rattle.c_gateway.specs.Breaks.{tag_number, first_of, second_of, first_tag, second_tag, no_report, report_of, report_words, request_report, response_report, explained_number, explained_row};

use crate::Report;
use chars::Refusal;
use request_read::whole::Outcome;
use response_read::Reply;
use text_explain::{Fault, Tag, Tags, Told};
use text_fields::Break;

// Words of the row, and which is which.
pub const EXPLAIN_WORDS: usize = 6;

pub const EXPLAIN_AT: usize = 0;

pub const EXPLAIN_LINE: usize = 1;

pub const EXPLAIN_MISSING: usize = 2;

pub const EXPLAIN_FIRST: usize = 3;

pub const EXPLAIN_SECOND: usize = 4;

pub const EXPLAIN_VALUE: usize = 5;

// The tags' numbers.
pub const TAG_NONE: u64 = 0;

pub const TAG_20: u64 = 1;

pub const TAG_12: u64 = 2;

pub const TAG_77E: u64 = 3;

pub const TAG_22A: u64 = 4;

pub const TAG_119: u64 = 5;

pub const TAG_16A: u64 = 6;

pub const TAG_171: u64 = 7;

pub const TAG_175: u64 = 8;

pub const TAG_127: u64 = 9;

pub const TAG_32B: u64 = 10;

pub const TAG_113: u64 = 11;

pub const TAG_102: u64 = 12;

pub const TAG_203: u64 = 13;

pub const TAG_21: u64 = 14;

pub const TAG_451: u64 = 15;

pub const TAG_13E: u64 = 16;

pub const TAG_432: u64 = 17;

fn tag_number(t: Tag) -> u64
    ensures { result ≡ tag_number t }
{
    match t {
        Tag::T20 => TAG_20,
        Tag::T12 => TAG_12,
        Tag::T77E => TAG_77E,
        Tag::T22A => TAG_22A,
        Tag::T119 => TAG_119,
        Tag::T16A => TAG_16A,
        Tag::T171 => TAG_171,
        Tag::T175 => TAG_175,
        Tag::T127 => TAG_127,
        Tag::T32B => TAG_32B,
        Tag::T113 => TAG_113,
        Tag::T102 => TAG_102,
        Tag::T203 => TAG_203,
        Tag::T21 => TAG_21,
        Tag::T451 => TAG_451,
        Tag::T13E => TAG_13E,
        Tag::T432 => TAG_432,
    }
}

fn first_of(tags: Tags) -> u64
    ensures { result ≡ first_of tags }
{
    match tags {
        Tags::Ending => TAG_NONE,
        Tags::One(t) => tag_number(t),
        Tags::Two(t, _) => tag_number(t),
    }
}

fn second_of(tags: Tags) -> u64
    ensures { result ≡ second_of tags }
{
    match tags {
        Tags::Ending => TAG_NONE,
        Tags::One(_) => TAG_NONE,
        Tags::Two(_, u) => tag_number(u),
    }
}

// The tag that stands there where nothing is missing.
fn first_tag(fault: Fault) -> u64
    ensures { result ≡ first_tag fault }
{
    match fault {
        Fault::Missing(tags) => first_of(tags),
        Fault::Wrong(t) => tag_number(t),
        Fault::Unknown => tag_number(Tag::T12),
        Fault::AfterCredit => tag_number(Tag::T113),
    }
}

fn second_tag(fault: Fault) -> u64
    ensures { result ≡ second_tag fault }
{
    match fault {
        Fault::Missing(tags) => second_of(tags),
        Fault::Wrong(_) => TAG_NONE,
        Fault::Unknown => TAG_NONE,
        Fault::AfterCredit => TAG_NONE,
    }
}

// Of a text that is accepted.
fn no_report() -> Report
    ensures { result ≡ no_report }
{
    Report {
        number: 0,
        at: 0,
        line: 0,
        missing: 0,
        first: 0,
        second: 0,
        value: 0,
    }
}

fn bit(b: bool) -> u64
    ensures { result ≡ cond b 1 0 }
{
    if b { 1 } else { 0 }
}

fn report_of(b: Break, t: Told) -> Report
    ensures { result ≡ report_of b t }
{
    let refusal = b.refusal;
    let fault = t.fault;
    Report {
        number: refusal.number(),
        at: b.at as u64,
        line: t.line as u64,
        missing: bit(b.missing),
        first: first_tag(fault),
        second: second_tag(fault),
        value: t.value as u64,
    }
}

fn request_report(text: &[u8]) -> Report
    ensures { result ≡ request_report text.now }
{
    let r = request_read::whole::read_request(text);
    let outcome = r.outcome;
    match outcome {
        Outcome::Settlement => no_report(),
        Outcome::Recall => no_report(),
        Outcome::Refused(b) => report_of(b, text_explain::request_break(text, b)),
    }
}

fn response_report(text: &[u8]) -> Report
    ensures { result ≡ response_report text.now }
{
    let r = response_read::read_response(text);
    let reply = r.reply;
    match reply {
        Reply::Settlement(_) => no_report(),
        Reply::Recall(_) => no_report(),
        Reply::Refused(b) => report_of(b, text_explain::response_break(text, b)),
    }
}

fn put_report(row: &mut [u64], x: Report) -> u64
    requires { 6 ≤ length row.old }
    ensures { (result ≡ x.number) × (row.new ≡ sets row.old 0 (report_words x)) }
{
    row[EXPLAIN_AT] = x.at;
    row[EXPLAIN_LINE] = x.line;
    row[EXPLAIN_MISSING] = x.missing;
    row[EXPLAIN_FIRST] = x.first;
    row[EXPLAIN_SECOND] = x.second;
    row[EXPLAIN_VALUE] = x.value;
    x.number
}

// Explains the break of a request: the reader's number, and where and why it is refused in the row, zeros for
// one that is accepted. A row that is too short is not touched, whatever the text.
pub fn purmagheli_explain_request(text: &[u8], row: &mut [u64]) -> u64
    ensures { (result ≡ explained_number (request_report text.now) row.old) × (row.new ≡ explained_row (request_report text.now) row.old) }
{
    if row.len() < EXPLAIN_WORDS {
        return Refusal::ShortBuffer.number();
    }
    put_report(row, request_report(text))
}

// The same of a response.
pub fn purmagheli_explain_response(text: &[u8], row: &mut [u64]) -> u64
    ensures { (result ≡ explained_number (response_report text.now) row.old) × (row.new ≡ explained_row (response_report text.now) row.old) }
{
    if row.len() < EXPLAIN_WORDS {
        return Refusal::ShortBuffer.number();
    }
    put_report(row, response_report(text))
}

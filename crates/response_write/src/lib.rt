// Responses: the texts of 132 and 134, written straight into a lent buffer.
#![tactic(auto)]

ghost use Rattle.std.specs.Prelude.{◌≡◌, [], ◌++◌, ◌+◌, ◌≤◌, length, leb};
ghost use Rattle.std.proofs.lemmas.List.Edits.{sets};
ghost use Rattle.chars.specs.Words.{bytes, line};
ghost use Rattle.codes.specs.Codes.{short_text, long_text};
ghost use Rattle.text_put.specs.Digits.{digits_of};
ghost use Rattle.response_write.specs.Texts.{head_text, batch_text, settled_text, rejected_text, outcome_text, settlement_text, answer_text, recall_text};
ghost use Rattle.response_write.specs.Values.{is_outcome, is_answer, is_settlement, is_recall, Wrote};

use chars::Refusal;
use clock::Clock;
use codes::Code;

// How a batch ended: settled on a day at a second of it, or rejected with a number. Kept an enum: a rejection is no error of the writer.
#[derive(Clone, Copy)]
pub enum Outcome {
    Settled(u64, u64),
    Rejected(u64),
}

// 132: the response to a message of a batch.
#[derive(Clone, Copy)]
pub struct Settlement {
    pub number: u64,
    pub reference: Code,
    pub stream: u64,
    pub bin: Code,
    pub outcome: Outcome,
}

// How a recall ended: the batch is recalled, or nothing was, with a number. Kept an enum: that is no error of the writer.
#[derive(Clone, Copy)]
pub enum Answer {
    Recalled,
    Kept(u64),
}

// 134: the response to a recall.
#[derive(Clone, Copy)]
pub struct Recall {
    pub number: u64,
    pub reference: Code,
    pub answer: Answer,
}

// A tag of two characters between its colons, one of three, and CR LF.
const SHORT_TAG: usize = 4;

const TAG: usize = 5;

const LINE_END: usize = 2;

// How many digits 20, 12, the date and the time of 13E, 451 and 432 have.
const NUMBER: usize = 7;

const SUB_TYPE: usize = 3;

const DATE: usize = 6;

const TIME: usize = 6;

const STATUS: usize = 1;

const REFUSAL: usize = 2;

// In the line of each: the ends of the number, which a `B` stands before, of the sub type and of the stream.
const NUMBER_END: usize = SHORT_TAG + 1 + NUMBER;

const SUB_TYPE_END: usize = SHORT_TAG + SUB_TYPE;

const STREAM_END: usize = TAG + Code::SHORT;

// The head is 20, 12, 77E and 21: where 12, 77E and 21 begin in it, and how long it is without the reference.
const SUB_TYPE_AT: usize = NUMBER_END + LINE_END;

const EMPTY_AT: usize = SUB_TYPE_AT + SUB_TYPE_END + LINE_END;

const REFERENCE_AT: usize = EMPTY_AT + TAG + LINE_END;

const HEAD: usize = REFERENCE_AT + SHORT_TAG + LINE_END;

// The batch is 22A and 119: where 119 begins in it, and how long it is without the BIN.
const BIN_AT: usize = STREAM_END + LINE_END;

const BATCH: usize = BIN_AT + TAG + LINE_END;

// The end is 451 alone, or 451 and 13E, or 451 and 432: how long each is, and where the date and the time stand in it.
const RECALLED: usize = TAG + STATUS + LINE_END;

const DATE_AT: usize = RECALLED + TAG;

const TIME_AT: usize = DATE_AT + DATE;

const TIME_END: usize = TIME_AT + TIME;

const SETTLED: usize = TIME_END + LINE_END;

const REJECTED: usize = RECALLED + TAG + REFUSAL + LINE_END;

// How many characters a BIN has.
const BIN: usize = 8;

impl Settlement {
    // A 132 of a settled batch, its reference of 16 characters.
    pub const LONGEST: usize = HEAD + Code::LONGEST + BATCH + BIN + SETTLED;
}

// The number after the last of seven digits, of two digits, and the day after the last of 2099.
const NUMBERS: u64 = 10_000_000;

const REFUSALS: u64 = 100;

const DAYS: u64 = 36_525;

// Sub types.
const SETTLEMENT: u64 = 132;

const RECALL: u64 = 134;

// A line of a tag and the last k digits of a number.
fn put_digits(out: &mut [u8], at: usize, tag: &[u8], v: u64, k: usize)
    requires { at + (length tag.now + (k + 2)) ≤ length out.old }
    ensures { out.new ≡ sets out.old at (line tag.now (digits_of k v)) }
{
    text_put::bytes(out, at, tag);
    text_put::digits(out, at + tag.len(), v, k);
    text_put::bytes(out, at + tag.len() + k, b"\r\n");
}

// A line of a tag and a code of n characters.
fn put_code(out: &mut [u8], at: usize, tag: &[u8], code: Code, n: usize)
    requires { (n ≡ length (long_text code)) × (at + (length tag.now + (n + 2)) ≤ length out.old) }
    ensures { out.new ≡ sets out.old at (line tag.now (long_text code)) }
{
    text_put::bytes(out, at, tag);
    text_put::long_code(out, at + tag.len(), code);
    text_put::bytes(out, at + tag.len() + n, b"\r\n");
}

// 22A: the stream.
fn put_stream(out: &mut [u8], at: usize, stream: u64)
    requires { at + 11 ≤ length out.old }
    ensures { out.new ≡ sets out.old at (line (bytes ":22A:") (short_text stream)) }
{
    text_put::bytes(out, at, b":22A:");
    text_put::short_code(out, at + TAG, stream);
    text_put::bytes(out, at + STREAM_END, b"\r\n");
}

// 451 and 13E of a settled batch.
fn put_settled(out: &mut [u8], at: usize, day: u64, second: u64)
    requires { at + 27 ≤ length out.old }
    ensures { out.new ≡ sets out.old at (settled_text day second) }
{
    text_put::bytes(out, at, b":451:0\r\n:13E:");
    text_put::digits(out, at + DATE_AT, dates::date_of(day), DATE);
    text_put::digits(out, at + TIME_AT, clock::hhmmss_of(second), TIME);
    text_put::bytes(out, at + TIME_END, b"\r\n");
}

// 451 and 432 of a refusal.
#[tactic(auto, using(text_put::proofs::Laws::then), unfolding(crate::specs::Texts::rejected_text))]
fn put_rejected(out: &mut [u8], at: usize, number: u64)
    requires { at + 17 ≤ length out.old }
    ensures { out.new ≡ sets out.old at (rejected_text number) }
{
    text_put::bytes(out, at, b":451:1\r\n");
    put_digits(out, at + RECALLED, b":432:", number, REFUSAL);
}

// The lines that both responses begin with; n is the length of the reference.
fn put_head(out: &mut [u8], at: usize, number: u64, kind: u64, reference: Code, n: usize)
    requires { (n ≡ length (long_text reference)) × (at + (36 + n) ≤ length out.old) }
    ensures { out.new ≡ sets out.old at (head_text number kind reference) }
{
    put_digits(out, at, b":20:B", number, NUMBER);
    put_digits(out, at + SUB_TYPE_AT, b":12:", kind, SUB_TYPE);
    text_put::bytes(out, at + EMPTY_AT, b":77E:\r\n");
    put_code(out, at + REFERENCE_AT, b":21:", reference, n);
}

fn put_batch(out: &mut [u8], at: usize, stream: u64, bin: Code, n: usize)
    requires { (n ≡ length (long_text bin)) × (at + (18 + n) ≤ length out.old) }
    ensures { out.new ≡ sets out.old at (batch_text stream bin) }
{
    put_stream(out, at, stream);
    put_code(out, at + BIN_AT, b":119:", bin, n);
}

// Whether n bytes fit from a place on.
fn has_room(out: &[u8], at: usize, n: usize) -> bool
    ensures { result ≡ leb (at + n) (length out.now) }
{
    n <= out.len() && at <= out.len() - n
}

// The lines that tell how a batch ended.
#[tactic(auto, using(crate::proofs::Laws::settled_end, crate::proofs::Laws::rejected_end))]
fn put_outcome(out: &mut [u8], at: usize, outcome: Outcome)
    requires { at + length (outcome_text outcome) ≤ length out.old }
    ensures { out.new ≡ sets out.old at (outcome_text outcome) }
{
    match outcome {
        Outcome::Settled(day, second) => put_settled(out, at, day, second),
        Outcome::Rejected(number) => put_rejected(out, at, number),
    }
}

#[tactic(auto, using(crate::proofs::Laws::settled_length, crate::proofs::Laws::rejected_length))]
fn outcome_length(outcome: Outcome) -> usize
    ensures value { result ≡ length (outcome_text outcome) }
    ensures small { result ≤ 27 }
{
    match outcome {
        Outcome::Settled(_, _) => SETTLED,
        Outcome::Rejected(_) => REJECTED,
    }
}

// How long a 132 is.
#[tactic(auto, using(crate::proofs::Laws::settlement_length))]
fn settlement_length(r: Settlement) -> usize
    ensures { result ≡ length (settlement_text r) }
{
    HEAD + r.reference.len() + (BATCH + r.bin.len()) + outcome_length(r.outcome)
}

// 132 into a buffer that has room for it; the place after it.
#[tactic(auto, using(crate::proofs::Laws::settlement_length, crate::proofs::Laws::settlement_pieces))]
pub fn put_settlement(out: &mut [u8], at: usize, r: Settlement) -> usize
    requires { at + length (settlement_text r) ≤ length out.old }
    ensures { (result ≡ at + length (settlement_text r)) × (out.new ≡ sets out.old at (settlement_text r)) }
{
    let n = r.reference.len();
    let m = r.bin.len();
    let b = HEAD + n;
    let e = b + (BATCH + m);
    let k = e + outcome_length(r.outcome);
    put_head(out, at, r.number, SETTLEMENT, r.reference, n);
    put_batch(out, at + b, r.stream, r.bin, m);
    put_outcome(out, at + e, r.outcome);
    at + k
}

// "13E (date, HHMMSS) after 0 or 432 (two digits) after 1"
#[tactic(auto, unfolding(crate::specs::Values::is_outcome))]
fn is_outcome(outcome: Outcome) -> bool
    ensures { result ≡ is_outcome outcome }
{
    match outcome {
        Outcome::Settled(day, second) => day < DAYS && second < Clock::DAY,
        Outcome::Rejected(number) => number < REFUSALS,
    }
}

// Whether a text can hold a 132.
#[tactic(auto, unfolding(crate::specs::Values::is_settlement))]
fn is_settlement(r: Settlement) -> bool
    ensures { result ≡ is_settlement r }
{
    r.number < NUMBERS
        && text_names::rules::is_reference(r.reference)
        && text_names::rules::is_bin(r.bin)
        && r.stream == text_names::rules::stream_of(r.bin)
        && is_outcome(r.outcome)
}

// 132: written whole from a place on, or not at all: 87 for what no text can hold, then 07.
pub fn write_settlement(out: &mut [u8], at: usize, r: Settlement) -> Result<usize, Refusal>
    ensures { Wrote (is_settlement r) out.old at (settlement_text r) result out.new }
{
    if !is_settlement(r) {
        return Err(Refusal::Malformed);
    }
    if !has_room(out, at, settlement_length(r)) {
        return Err(Refusal::ShortBuffer);
    }
    Ok(put_settlement(out, at, r))
}

// The lines that tell how a recall ended.
#[tactic(auto, using(crate::proofs::Laws::kept_end))]
fn put_answer(out: &mut [u8], at: usize, answer: Answer)
    requires { at + length (answer_text answer) ≤ length out.old }
    ensures { out.new ≡ sets out.old at (answer_text answer) }
{
    match answer {
        Answer::Recalled => text_put::bytes(out, at, b":451:0\r\n"),
        Answer::Kept(number) => put_rejected(out, at, number),
    }
}

#[tactic(auto, using(crate::proofs::Laws::rejected_length))]
fn answer_length(answer: Answer) -> usize
    ensures value { result ≡ length (answer_text answer) }
    ensures small { result ≤ 17 }
{
    match answer {
        Answer::Recalled => RECALLED,
        Answer::Kept(_) => REJECTED,
    }
}

// How long a 134 is.
#[tactic(auto, using(crate::proofs::Laws::recall_length))]
fn recall_length(r: Recall) -> usize
    ensures { result ≡ length (recall_text r) }
{
    HEAD + r.reference.len() + answer_length(r.answer)
}

// 134 into a buffer that has room for it; the place after it.
#[tactic(auto, using(crate::proofs::Laws::recall_length, crate::proofs::Laws::recall_pieces))]
pub fn put_recall(out: &mut [u8], at: usize, r: Recall) -> usize
    requires { at + length (recall_text r) ≤ length out.old }
    ensures { (result ≡ at + length (recall_text r)) × (out.new ≡ sets out.old at (recall_text r)) }
{
    let n = r.reference.len();
    let b = HEAD + n;
    let k = b + answer_length(r.answer);
    put_head(out, at, r.number, RECALL, r.reference, n);
    put_answer(out, at + b, r.answer);
    at + k
}

// "and 432 after 1"
#[tactic(auto, unfolding(crate::specs::Values::is_answer))]
fn is_answer(answer: Answer) -> bool
    ensures { result ≡ is_answer answer }
{
    match answer {
        Answer::Recalled => true,
        Answer::Kept(number) => number < REFUSALS,
    }
}

// Whether a text can hold a 134.
#[tactic(auto, unfolding(crate::specs::Values::is_recall))]
fn is_recall(r: Recall) -> bool
    ensures { result ≡ is_recall r }
{
    r.number < NUMBERS && text_names::rules::is_reference(r.reference) && is_answer(r.answer)
}

// 134: written whole from a place on, or not at all: 87 for what no text can hold, then 07.
// Kept beside `write_settlement`: one function would be passed the test, the length and the writer of each.
pub fn write_recall(out: &mut [u8], at: usize, r: Recall) -> Result<usize, Refusal>
    ensures { Wrote (is_recall r) out.old at (recall_text r) result out.new }
{
    if !is_recall(r) {
        return Err(Refusal::Malformed);
    }
    if !has_room(out, at, recall_length(r)) {
        return Err(Refusal::ShortBuffer);
    }
    Ok(put_recall(out, at, r))
}

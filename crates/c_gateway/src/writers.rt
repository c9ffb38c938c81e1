// The writers, from rows of words as the readers fill them: of each field the value alone counts, in a number or two; where it stood does not.
ghost use Rattle.std.specs.Prelude.{◌≡◌, ◌+◌, ◌≤◌, length, get_or};
ghost use Rattle.response_write.specs.Texts.{settlement_text, recall_text};
ghost use Rattle.response_write.specs.Values.{Wrote};
ghost use Rattle.c_gateway.specs.Writers.{value_in, second_in, code_in, activation_in, side_in, payable_in, payables_in, order_in, outcome_in, answer_in, settlement_in, recall_in, number_by, told_by, order_written, order_left, has_status, holds_settlement, holds_recall, response_written, response_left, is_ready, number_for, left_for, told_for};

use chars::Refusal;
use codes::Code;
use request_read::terms::Activation;
use request_write::{Order, Payable, Side};
use response_write::{Answer, Outcome, Recall, Settlement};

// Words of what is told of a text that was written: its length.
pub const TOLD_WORDS: usize = 1;

// Bytes of a request and of a response at the most.
pub const REQUEST_LONGEST: usize = 649;

pub const RESPONSE_LONGEST: usize = Settlement::LONGEST;

// A word of a row; 0 past its end.
fn word(row: &[u64], at: usize) -> u64
    ensures { result ≡ get_or row.now at 0 }
{
    if at < row.len() { row[at] } else { 0 }
}

// The value of the field that begins at a place.
fn value(row: &[u64], at: usize) -> u64
    requires { at ≤ 192 }
    ensures { result ≡ value_in row.now at }
{
    word(row, at + crate::FIELD_VALUE)
}

fn second(row: &[u64], at: usize) -> u64
    requires { at ≤ 192 }
    ensures { result ≡ second_in row.now at }
{
    word(row, at + crate::FIELD_SECOND)
}

fn code(row: &[u64], at: usize) -> Code
    requires { at ≤ 192 }
    ensures { result ≡ code_in row.now at }
{
    Code {
        high: value(row, at),
        low: second(row, at),
    }
}

fn activation(row: &[u64]) -> Activation
    ensures { result ≡ activation_in row.now }
{
    if second(row, crate::REQUEST_ACTIVATION) == 0 {
        return Activation::AtOnce;
    }
    Activation::Minute(value(row, crate::REQUEST_ACTIVATION))
}

fn side(row: &[u64], at: usize) -> Side
    requires { at ≤ 176 }
    ensures { result ≡ side_in row.now at }
{
    if value(row, at + crate::PAYMENT_SIDE) == 0 {
        return Side::Credit;
    }
    Side::Debit(value(row, at + crate::PAYMENT_LETTERS))
}

// Payment k.
fn payable(row: &[u64], k: usize) -> Payable
    requires { k ≤ 9 }
    ensures { result ≡ payable_in row.now k }
{
    let at = crate::REQUEST_PAYMENTS + crate::PAYMENT_WORDS * k;
    Payable {
        side: side(row, at),
        cents: value(row, at + crate::PAYMENT_AMOUNT),
        bank: value(row, at + crate::PAYMENT_BANK),
    }
}

fn payables(row: &[u64]) -> [Payable; 10]
    ensures { result ≡ payables_in row.now }
{
    [
        payable(row, 0),
        payable(row, 1),
        payable(row, 2),
        payable(row, 3),
        payable(row, 4),
        payable(row, 5),
        payable(row, 6),
        payable(row, 7),
        payable(row, 8),
        payable(row, 9),
    ]
}

// What a row of a request asks for.
fn order(row: &[u64]) -> Order
    ensures { result ≡ order_in row.now }
{
    Order {
        subtype: value(row, crate::REQUEST_SUB_TYPE),
        reference: code(row, crate::REQUEST_REFERENCE),
        stream: value(row, crate::REQUEST_STREAM),
        bin: code(row, crate::REQUEST_BIN),
        number: value(row, crate::REQUEST_NUMBERS),
        count: second(row, crate::REQUEST_NUMBERS),
        date: dates::date_of(value(row, crate::REQUEST_DATE)),
        activation: activation(row),
        payments: payables(row),
        n: value(row, crate::REQUEST_COUNT) as usize,
    }
}

// How a batch ended: 451, and 13E or 432.
fn outcome(row: &[u64]) -> Outcome
    ensures { result ≡ outcome_in row.now }
{
    if value(row, crate::RESPONSE_STATUS) == 0 {
        return Outcome::Settled(
            value(row, crate::RESPONSE_DETAIL),
            second(row, crate::RESPONSE_DETAIL),
        );
    }
    Outcome::Rejected(value(row, crate::RESPONSE_DETAIL))
}

// How a recall ended: 451, and 432 after 1.
fn answer(row: &[u64]) -> Answer
    ensures { result ≡ answer_in row.now }
{
    if value(row, crate::RESPONSE_STATUS) == 0 {
        return Answer::Recalled;
    }
    Answer::Kept(value(row, crate::RESPONSE_DETAIL))
}

// What a row of a 132 says.
fn settlement(row: &[u64]) -> Settlement
    ensures { result ≡ settlement_in row.now }
{
    Settlement {
        number: value(row, crate::RESPONSE_NUMBER),
        reference: code(row, crate::RESPONSE_REFERENCE),
        stream: value(row, crate::RESPONSE_STREAM),
        bin: code(row, crate::RESPONSE_BIN),
        outcome: outcome(row),
    }
}

// What a row of a 134 says.
fn recall(row: &[u64]) -> Recall
    ensures { result ≡ recall_in row.now }
{
    Recall {
        number: value(row, crate::RESPONSE_NUMBER),
        reference: code(row, crate::RESPONSE_REFERENCE),
        answer: answer(row),
    }
}

// "451 (0 or 1)"
fn has_status(row: &[u64]) -> bool
    ensures { result ≡ has_status row.now }
{
    value(row, crate::RESPONSE_STATUS) <= 1
}

fn write_settlement(row: &[u64], out: &mut [u8]) -> Result<usize, Refusal>
    ensures { Wrote (holds_settlement row.now) out.old 0 (settlement_text (settlement_in row.now)) result out.new }
{
    if !has_status(row) {
        return Err(Refusal::Malformed);
    }
    response_write::write_settlement(out, 0, settlement(row))
}

fn write_recall(row: &[u64], out: &mut [u8]) -> Result<usize, Refusal>
    ensures { Wrote (holds_recall row.now) out.old 0 (recall_text (recall_in row.now)) result out.new }
{
    if !has_status(row) {
        return Err(Refusal::Malformed);
    }
    response_write::write_recall(out, 0, recall(row))
}

// The text of a row by its sub type, which is judged first, as its reader judges it.
fn write_response(row: &[u64], out: &mut [u8]) -> Result<usize, Refusal>
    ensures { (result ≡ response_written row.now out.old) × (out.new ≡ response_left row.now out.old) }
{
    let kind = value(row, crate::RESPONSE_SUB_TYPE);
    match kind {
        132 => write_settlement(row, out),
        134 => write_recall(row, out),
        _ => Err(Refusal::OtherSubType),
    }
}

// The number of a refusal, or 0 and the text's length as what is told.
fn tell(w: Result<usize, Refusal>, told: &mut [u64]) -> u64
    requires { 1 ≤ length told.old }
    ensures { (result ≡ number_by w) × (told.new ≡ told_by w told.old) }
{
    match w {
        Err(why) => why.number(),
        Ok(n) => {
            told[0] = n as u64;
            0
        }
    }
}

// Writes the request of a row: 0, the text at the buffer's beginning and its length, or the number that its reader would give, then 07 where it does not
// fit, and nothing is written. A row, or what is to be told, of too few words is 07 before all else.
pub fn purmagheli_write_request(row: &[u64], out: &mut [u8], told: &mut [u64]) -> u64
    ensures { (result ≡ number_for (is_ready 192 row.now told.old) (order_written (order_in row.now) out.old)) × (out.new ≡ left_for (is_ready 192 row.now told.old) (order_left (order_in row.now) out.old) out.old) × (told.new ≡ told_for (is_ready 192 row.now told.old) (order_written (order_in row.now) out.old) told.old) }
{
    if row.len() < crate::REQUEST_WORDS {
        return Refusal::ShortBuffer.number();
    }
    if told.len() < TOLD_WORDS {
        return Refusal::ShortBuffer.number();
    }
    tell(request_write::write_request(out, 0, order(row)), told)
}

// Writes the response of a row likewise: 88 for a sub type that is neither 132 nor 134, 87 for a status or values that no text can hold, then 07.
pub fn purmagheli_write_response(row: &[u64], out: &mut [u8], told: &mut [u64]) -> u64
    ensures { (result ≡ number_for (is_ready 28 row.now told.old) (response_written row.now out.old)) × (out.new ≡ left_for (is_ready 28 row.now told.old) (response_left row.now out.old) out.old) × (told.new ≡ told_for (is_ready 28 row.now told.old) (response_written row.now out.old) told.old) }
{
    if row.len() < crate::RESPONSE_WORDS {
        return Refusal::ShortBuffer.number();
    }
    if told.len() < TOLD_WORDS {
        return Refusal::ShortBuffer.number();
    }
    tell(write_response(row, out), told)
}

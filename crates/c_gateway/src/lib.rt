// The entry points that the C gateway calls. A row is a row of words, four for a field: where its
// value starts in the text, its length, and its value in a number or two. include/purmagheli.h has
// the same constants and says what each word is.
#![tactic(auto)]

pub mod books;
pub mod breaks;
pub mod writers;

ghost use Rattle.std.specs.Prelude.{◌≡◌, ◌++◌, cond, ◌+◌, ◌-◌, ◌≤◌, length};
ghost use Rattle.std.proofs.lemmas.List.Edits.{sets};
ghost use Rattle.c_gateway.specs.Rows.{field_words, item_words, code_words, break_words};
ghost use Rattle.request_read.specs.payments.Payments.{none, payments_at};
ghost use Rattle.request_read.specs.whole.Request.{settlement_at, recall_at, request_at};
ghost use Rattle.c_gateway.specs.Requests.{named_words, address_words, head_words, activation_minute, activation_given, terms_words, payment_words, payments_words, paying_at, reached_number, refused_words, reading_number, reading_words, request_number, request_row};
ghost use Rattle.c_gateway.specs.Responses.{number_words, batch_words, status_words, outcome_status, outcome_first, outcome_second, answer_status, answer_number, settlement_words, recall_words, reply_number, reply_words, response_number, response_row};
ghost use Rattle.c_gateway.specs.Books.{book_number};
ghost use Rattle.chars.specs.Refusals.{number_of};

use chars::Refusal;
use codes::Code;
use request_read::payments::Payment;
use request_read::terms::{Activation, Terms};
use request_read::whole::{Address, Head, Named, Outcome, Reached};
use response_read::{Parts, ReadResponse, Reply};
use response_write::{Recall, Settlement};
use text_fields::{Break, Item};
use text_scan::Cursor;
use text_values::Part;

// Words of a field, and which is which.
pub const FIELD_WORDS: usize = 4;

pub const FIELD_START: usize = 0;

pub const FIELD_LENGTH: usize = 1;

pub const FIELD_VALUE: usize = 2;

pub const FIELD_SECOND: usize = 3;

// Words of the row of a request, and where in it each field begins.
pub const REQUEST_WORDS: usize = 192;

pub const REQUEST_REFERENCE: usize = 0;

pub const REQUEST_SUB_TYPE: usize = 4;

pub const REQUEST_STREAM: usize = 8;

pub const REQUEST_BIN: usize = 12;

pub const REQUEST_NUMBERS: usize = 16;

pub const REQUEST_DATE: usize = 20;

pub const REQUEST_ACTIVATION: usize = 24;

pub const REQUEST_COUNT: usize = 28;

pub const REQUEST_PAYMENTS: usize = 32;

// Payments at the most, words of each, and where in it each field begins.
pub const PAYMENTS: usize = 10;

pub const PAYMENT_WORDS: usize = 16;

pub const PAYMENT_SIDE: usize = 0;

pub const PAYMENT_AMOUNT: usize = 4;

pub const PAYMENT_LETTERS: usize = 8;

pub const PAYMENT_BANK: usize = 12;

// Words of the row of a response, and where in it each field begins. The detail is 13E or 432.
pub const RESPONSE_WORDS: usize = 28;

pub const RESPONSE_NUMBER: usize = 0;

pub const RESPONSE_SUB_TYPE: usize = 4;

pub const RESPONSE_REFERENCE: usize = 8;

pub const RESPONSE_STREAM: usize = 12;

pub const RESPONSE_BIN: usize = 16;

pub const RESPONSE_STATUS: usize = 20;

pub const RESPONSE_DETAIL: usize = 24;

// The first words of a row after a refusal, and how far the address of a request was read.
pub const BREAK_AT: usize = 0;

pub const BREAK_MISSING: usize = 1;

pub const BREAK_REACHED: usize = 2;

pub const BREAK_ZERO: usize = 3;

pub const REACHED_NOTHING: u64 = 0;

pub const REACHED_STREAM: u64 = 1;

pub const REACHED_BIN: u64 = 2;

// How the payments of a text end, and how many there are.
#[derive(Clone, Copy)]
pub struct Paying {
    pub ending: Result<Cursor, Break>,
    pub n: usize,
}

// The break of a text in full: the reader's number, where the line begins, its number, 1 if a field is missing,
// the tags that may stand there, and where the value begins.
#[derive(Clone, Copy)]
pub struct Report {
    pub number: u64,
    pub at: u64,
    pub line: u64,
    pub missing: u64,
    pub first: u64,
    pub second: u64,
    pub value: u64,
}

// How long a part is.
fn part_length(p: Part) -> u64
    ensures { result ≡ p.end - p.start }
{
    let start = p.start;
    let end = p.end;
    if start < end { (end - start) as u64 } else { 0 }
}

fn put_field(row: &mut [u64], at: usize, p: Part, value: u64, second: u64)
    requires { at + 4 ≤ length row.old }
    ensures { row.new ≡ sets row.old at (field_words p value second) }
{
    row[at + FIELD_START] = p.start as u64;
    row[at + FIELD_LENGTH] = part_length(p);
    row[at + FIELD_VALUE] = value;
    row[at + FIELD_SECOND] = second;
}

fn put_item(row: &mut [u64], at: usize, i: Item)
    requires { at + 4 ≤ length row.old }
    ensures { row.new ≡ sets row.old at (item_words i) }
{
    put_field(row, at, i.part, i.number, 0);
}

fn put_code(row: &mut [u64], at: usize, p: Part, c: Code)
    requires { at + 4 ≤ length row.old }
    ensures { row.new ≡ sets row.old at (code_words p c) }
{
    put_field(row, at, p, c.high, c.low);
}

fn put_named(row: &mut [u64], at: usize, n: Named)
    requires { at + 4 ≤ length row.old }
    ensures { row.new ≡ sets row.old at (named_words n) }
{
    put_code(row, at, n.part, n.code);
}

// 22A and 119.
fn put_address(row: &mut [u64], a: Address)
    requires { 192 ≤ length row.old }
    ensures { row.new ≡ sets row.old 8 (address_words a) }
{
    put_item(row, REQUEST_STREAM, a.stream);
    put_named(row, REQUEST_BIN, a.bin);
}

// 20, 12, 22A and 119.
fn put_head(row: &mut [u64], h: Head)
    requires { 192 ≤ length row.old }
    ensures { row.new ≡ sets row.old 0 (head_words h) }
{
    put_named(row, REQUEST_REFERENCE, h.reference);
    put_item(row, REQUEST_SUB_TYPE, h.subtype);
    put_address(row, h.address);
}

// 175.
fn put_activation(row: &mut [u64], p: Part, a: Activation)
    requires { 192 ≤ length row.old }
    ensures { row.new ≡ sets row.old 24 (field_words p (activation_minute a) (activation_given a)) }
{
    match a {
        Activation::AtOnce => put_field(row, REQUEST_ACTIVATION, p, 0, 0),
        Activation::Minute(m) => put_field(row, REQUEST_ACTIVATION, p, m, 1),
    }
}

// 16A, 171 and 175.
fn put_terms(row: &mut [u64], t: Terms)
    requires { 192 ≤ length row.old }
    ensures { row.new ≡ sets row.old 16 (terms_words t) }
{
    put_field(row, REQUEST_NUMBERS, t.numbers, t.number, t.count);
    put_item(row, REQUEST_DATE, t.date);
    put_activation(row, t.activated, t.activation);
}

// 127, 32B, 113 and 102.
fn put_payment(row: &mut [u64], at: usize, p: Payment)
    requires { at + 16 ≤ length row.old }
    ensures { row.new ≡ sets row.old at (payment_words p) }
{
    put_item(row, at + PAYMENT_SIDE, p.side);
    put_item(row, at + PAYMENT_AMOUNT, p.amount);
    put_item(row, at + PAYMENT_LETTERS, p.letters);
    put_item(row, at + PAYMENT_BANK, p.bank);
}

// The payments that stand at a cursor, each put into its place as it is read: how they end, and how many there are.
fn put_payments(places: &mut [u64], text: &[u8], c: Cursor) -> Paying
    requires { places.old ≡ payments_words none }
    ensures { (result ≡ paying_at text.now c.at) × (places.new ≡ payments_words (payments_at text.now c.at).items) }
{
    let mut at = c.at;
    for n in 0..PAYMENTS {
        match request_read::payments::read_payment(text, Cursor { at }) {
            Err(b) => return Paying { ending: Err(b), n },
            Ok((p, next)) => {
                put_payment(places, PAYMENT_WORDS * n, p);
                at = next.at;
            }
        }
        if !request_read::payments::more(text, Cursor { at }) {
            return Paying {
                ending: Ok(Cursor { at }),
                n: n + 1,
            };
        }
    }
    Paying {
        ending: Ok(Cursor { at }),
        n: PAYMENTS,
    }
}

// Words one behind another, from a place on.
fn put_words(row: &mut [u64], at: usize, words: &[u64])
    requires { at + length words.now ≤ length row.old }
    ensures { row.new ≡ sets row.old at words.now }
{
    for (i, word) in words.iter().enumerate() {
        row[at + i] = *word;
    }
}

// All ten places of the payments, of which those past the last are zero.
fn put_accepted(row: &mut [u64], head: Head, terms: Terms, count: Item, places: &[u64; 160]) -> u64
    requires { 192 ≤ length row.old }
    ensures { (result ≡ 0) × (row.new ≡ sets row.old 0 ((head_words head ++ (terms_words terms ++ item_words count)) ++ places.now)) }
{
    put_head(row, head);
    put_terms(row, terms);
    put_item(row, REQUEST_COUNT, count);
    put_words(row, REQUEST_PAYMENTS, places);
    0
}

fn reached_number(r: Reached) -> u64
    ensures { result ≡ reached_number r }
{
    match r {
        Reached::Nothing => REACHED_NOTHING,
        Reached::Stream => REACHED_STREAM,
        Reached::Bin => REACHED_BIN,
    }
}

// Where and why a text breaks.
fn put_break(row: &mut [u64], b: Break, reached: u64)
    requires { 4 ≤ length row.old }
    ensures { row.new ≡ sets row.old 0 (break_words b reached) }
{
    row[BREAK_AT] = b.at as u64;
    row[BREAK_MISSING] = b.missing as u64;
    row[BREAK_REACHED] = reached;
    row[BREAK_ZERO] = 0;
}

fn put_refused(row: &mut [u64], b: Break, h: Head) -> u64
    requires { 192 ≤ length row.old }
    ensures { (result ≡ number_of b.refusal) × (row.new ≡ sets row.old 0 (refused_words b h)) }
{
    put_break(row, b, reached_number(h.address.reached));
    put_item(row, REQUEST_SUB_TYPE, h.subtype);
    put_address(row, h.address);
    b.refusal.number()
}

// After 119 of a 131. Nothing is put before all was read.
fn put_settling(row: &mut [u64], text: &[u8], c: Cursor, head: Head) -> u64
    requires { 192 ≤ length row.old }
    ensures { (result ≡ reading_number (settlement_at text.now c.at head)) × (row.new ≡ sets row.old 0 (reading_words (settlement_at text.now c.at head))) }
{
    let (terms, c) = match request_read::terms::read_terms(text, c) {
        Ok(read) => read,
        Err(b) => return put_refused(row, b, head),
    };
    let mut places = [0u64; 160];
    let paying = put_payments(&mut places, text, c);
    let c = match paying.ending {
        Ok(c) => c,
        Err(b) => return put_refused(row, b, head),
    };
    let (count, c) = match text_fields::read_count(text, c, paying.n as u64) {
        Ok(read) => read,
        Err(b) => return put_refused(row, b, head),
    };
    if c.at < text.len() {
        return put_refused(row, Break::absent(c.at), head);
    }
    put_accepted(row, head, terms, count, &places)
}

// After 119 of a 133.
fn put_recalling(row: &mut [u64], text: &[u8], c: Cursor, head: Head) -> u64
    requires { 192 ≤ length row.old }
    ensures { (result ≡ reading_number (recall_at text.now c.at head)) × (row.new ≡ sets row.old 0 (reading_words (recall_at text.now c.at head))) }
{
    if c.at < text.len() {
        return put_refused(row, Break::absent(c.at), head);
    }
    let places = [0u64; 160];
    put_accepted(row, head, Terms::nothing(), Item::nothing(), &places)
}

fn put_request(row: &mut [u64], text: &[u8]) -> u64
    requires { 192 ≤ length row.old }
    ensures { (result ≡ reading_number (request_at text.now)) × (row.new ≡ sets row.old 0 (reading_words (request_at text.now))) }
{
    let b = request_read::whole::read_beginning(text);
    let outcome = b.outcome;
    let head = b.head;
    let next = b.next;
    match outcome {
        Outcome::Settlement => put_settling(row, text, next, head),
        Outcome::Recall => put_recalling(row, text, next, head),
        Outcome::Refused(why) => put_refused(row, why, head),
    }
}

// Reads a request: 0 and its fields in the row, or why it is refused, and where. A row that is too
// short is not touched, whatever the text.
pub fn purmagheli_read_request(text: &[u8], row: &mut [u64]) -> u64
    ensures { (result ≡ request_number text.now row.old) × (row.new ≡ request_row text.now row.old) }
{
    if row.len() < REQUEST_WORDS {
        return Refusal::ShortBuffer.number();
    }
    put_request(row, text)
}

// 20, 12 and 21.
fn put_number(row: &mut [u64], p: Parts, number: u64, kind: u64, reference: Code)
    requires { 28 ≤ length row.old }
    ensures { row.new ≡ sets row.old 0 (number_words p number kind reference) }
{
    put_field(row, RESPONSE_NUMBER, p.number, number, 0);
    put_field(row, RESPONSE_SUB_TYPE, p.subtype, kind, 0);
    put_code(row, RESPONSE_REFERENCE, p.reference, reference);
}

// 22A and 119.
fn put_batch(row: &mut [u64], p: Parts, stream: u64, bin: Code)
    requires { 28 ≤ length row.old }
    ensures { row.new ≡ sets row.old 12 (batch_words p stream bin) }
{
    put_field(row, RESPONSE_STREAM, p.stream, stream, 0);
    put_code(row, RESPONSE_BIN, p.bin, bin);
}

// 451, and 13E or 432.
fn put_status(row: &mut [u64], p: Parts, status: u64, first: u64, second: u64)
    requires { 28 ≤ length row.old }
    ensures { row.new ≡ sets row.old 20 (status_words p status first second) }
{
    put_field(row, RESPONSE_STATUS, p.status, status, 0);
    put_field(row, RESPONSE_DETAIL, p.detail, first, second);
}

// How a batch ended: settled on a day at a second, or rejected with a number.
fn put_outcome(row: &mut [u64], p: Parts, o: response_write::Outcome)
    requires { 28 ≤ length row.old }
    ensures { row.new ≡ sets row.old 20 (status_words p (outcome_status o) (outcome_first o) (outcome_second o)) }
{
    match o {
        response_write::Outcome::Settled(day, second) => put_status(row, p, 0, day, second),
        response_write::Outcome::Rejected(number) => put_status(row, p, 1, number, 0),
    }
}

// How a recall ended.
fn put_answer(row: &mut [u64], p: Parts, a: response_write::Answer)
    requires { 28 ≤ length row.old }
    ensures { row.new ≡ sets row.old 20 (status_words p (answer_status a) (answer_number a) 0) }
{
    match a {
        response_write::Answer::Recalled => put_status(row, p, 0, 0, 0),
        response_write::Answer::Kept(number) => put_status(row, p, 1, number, 0),
    }
}

fn put_settlement(row: &mut [u64], p: Parts, s: Settlement) -> u64
    requires { 28 ≤ length row.old }
    ensures { (result ≡ 0) × (row.new ≡ sets row.old 0 (settlement_words p s)) }
{
    put_number(row, p, s.number, 132, s.reference);
    put_batch(row, p, s.stream, s.bin);
    put_outcome(row, p, s.outcome);
    0
}

// A 134 has no 22A and no 119: their words are zero.
fn put_recall(row: &mut [u64], p: Parts, r: Recall) -> u64
    requires { 28 ≤ length row.old }
    ensures { (result ≡ 0) × (row.new ≡ sets row.old 0 (recall_words p r)) }
{
    put_number(row, p, r.number, 134, r.reference);
    put_batch(row, p, 0, Code::nothing());
    put_answer(row, p, r.answer);
    0
}

// The break alone.
fn put_unread(row: &mut [u64], b: Break) -> u64
    requires { 28 ≤ length row.old }
    ensures { (result ≡ number_of b.refusal) × (row.new ≡ sets row.old 0 (break_words b 0)) }
{
    put_break(row, b, REACHED_NOTHING);
    b.refusal.number()
}

fn put_reply(row: &mut [u64], r: ReadResponse) -> u64
    requires { 28 ≤ length row.old }
    ensures { (result ≡ reply_number r) × (row.new ≡ sets row.old 0 (reply_words r)) }
{
    let reply = r.reply;
    let parts = r.parts;
    match reply {
        Reply::Settlement(s) => put_settlement(row, parts, s),
        Reply::Recall(s) => put_recall(row, parts, s),
        Reply::Refused(b) => put_unread(row, b),
    }
}

// Reads a response: 0 and its fields in the row, or why it is refused, and where. A row that is too
// short is not touched, whatever the text.
pub fn purmagheli_read_response(text: &[u8], row: &mut [u64]) -> u64
    ensures { (result ≡ response_number text.now row.old) × (row.new ≡ response_row text.now row.old) }
{
    if row.len() < RESPONSE_WORDS {
        return Refusal::ShortBuffer.number();
    }
    put_reply(row, response_read::read_response(text))
}

// Checks a book: 0, or the number of the first rule that it breaks.
pub fn purmagheli_check_book(book: &[u8]) -> u64
    ensures { result ≡ book_number book.now }
{
    match book_read::check(book) {
        Ok(()) => 0,
        Err(f) => f.number(),
    }
}

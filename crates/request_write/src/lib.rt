// Requests as administrators write them: 131 and 133 from values.
#![tactic(auto)]

ghost use Rattle.std.specs.Prelude.{◌≡◌, ◌++◌, ◌+◌, ◌/◌, ◌≤◌, ◌<◌, length, drop, get_or, ltb};
ghost use Rattle.text_scan.specs.Scan.{ten};
ghost use Rattle.chars.specs.Words.{bytes};
ghost use Rattle.response_write.specs.Texts.{written, after};
ghost use Rattle.request_write.specs.declared.Given.TheVariants as given;
ghost use Rattle.codes.specs.Codes.{spelled};
ghost use Rattle.request_write.specs.Orders.{room, width_of, blank, proper, name_text, fixed, numbers_text, time_text, four_text, amount_text, count_text, value_text, line_text, head_text, activation_text, terms_text, payment_text, payments_text, message_text, order_text, Puts, Wrote};

use chars::Refusal;
use codes::Code;
use request_read::terms::Activation;
use request_read::whole::Outcome;

// The side of a payment. A debit has four letters, a credit has none. Kept an enum: its variants are the words of the rule.
#[derive(Clone, Copy)]
pub enum Side {
    Credit,
    Debit(u64),
}

// A payment to write.
#[derive(Clone, Copy)]
pub struct Payable {
    pub side: Side,
    pub cents: u64,
    pub bank: u64,
}

// What a request is to say. The date is YYMMDD as a number; the first n places hold the payments.
#[derive(Clone, Copy)]
pub struct Order {
    pub subtype: u64,
    pub reference: Code,
    pub stream: u64,
    pub bin: Code,
    pub number: u64,
    pub count: u64,
    pub date: u64,
    pub activation: Activation,
    pub payments: [Payable; 10],
    pub n: usize,
}

// What is given for the value of a line.
#[derive(Clone, Copy)]
pub enum Given {
    Nothing,
    Name(Code),
    SubType(u64),
    Numbers(u64, u64),
    Date(u64),
    Time(u64),
    Four(u64),
    CreditSide,
    DebitSide,
    Amount(u64),
    Count(u64),
}

// How many decimal digits a number has, up to 10.
fn width(v: u64) -> usize
    ensures value { result ≡ width_of v }
    ensures small { result ≤ 10 }
{
    let mut m = v;
    for k in 1..10 {
        if m < 10 {
            return k;
        }
        m /= 10;
    }
    10
}

// Whether the bytes of a code from one on are zero.
fn is_blank(c: Code, from: usize) -> bool
    ensures { result ≡ blank (drop from (spelled c)) }
{
    for i in from..Code::LONGEST {
        if c.byte(i) != 0 {
            return false;
        }
    }
    true
}

// Whether a code is characters of A-Z 0-9 and then zeros.
fn is_proper(c: Code) -> bool
    ensures { result ≡ proper (spelled c) }
{
    for i in 0..Code::LONGEST {
        if !chars::is_code(c.byte(i)) {
            return is_blank(c, i);
        }
    }
    true
}

fn put_name(out: &mut [u8], at: usize, c: Code) -> usize
    requires { at + 16 ≤ room }
    ensures puts { Puts out.old at (name_text c) result out.new }
    ensures small { result ≤ at + 16 }
{
    if !is_proper(c) {
        return at;
    }
    text_put::long_code(out, at, c);
    at + c.len()
}

// A stream, a bank or four letters.
fn put_four(out: &mut [u8], at: usize, v: u64) -> usize
    requires { at + 4 ≤ room }
    ensures puts { Puts out.old at (four_text v) result out.new }
    ensures small { result ≤ at + 4 }
{
    if v < 4_294_967_296 {
        text_put::short_code(out, at, v);
        return at + 4;
    }
    at
}

// Whether a number has no more than k digits.
#[tactic(auto, using(crate::proofs::Laws::fits_down, crate::proofs::Laws::fits_none))]
fn fits(v: u64, k: usize) -> bool
    ensures { result ≡ ltb v (ten k) }
{
    let mut rest = v;
    for _ in 0..k {
        rest /= 10;
    }
    rest == 0
}

// Just k digits.
fn put_number(out: &mut [u8], at: usize, v: u64, k: usize) -> usize
    requires { (at + k ≤ room) × (k ≤ 6) }
    ensures puts { Puts out.old at (fixed k v) result out.new }
    ensures small { result ≤ at + k }
{
    if !fits(v, k) {
        return at;
    }
    text_put::digits(out, at, v, k);
    at + k
}

fn put_numbers(out: &mut [u8], at: usize, n: u64, m: u64) -> usize
    requires { at + 5 ≤ room }
    ensures puts { Puts out.old at (numbers_text n m) result out.new }
    ensures small { result ≤ at + 5 }
{
    let a = put_number(out, at, n, 2);
    text_put::bytes(out, a, b"/");
    put_number(out, a + 1, m, 2)
}

// HHMM of a minute of the day.
fn put_time(out: &mut [u8], at: usize, m: u64) -> usize
    requires { at + 4 ≤ room }
    ensures puts { Puts out.old at (time_text m) result out.new }
    ensures small { result ≤ at + 4 }
{
    if m < 1_440 {
        text_put::digits(out, at, clock::hhmm_of(m), 4);
        return at + 4;
    }
    at
}

// AUD, the units, a comma and two digits.
fn put_cents(out: &mut [u8], at: usize, c: u64) -> usize
    requires { at + 16 ≤ room }
    ensures puts { Puts out.old at (amount_text c) result out.new }
    ensures small { result ≤ at + 16 }
{
    if c < 1_000_000_000_000 {
        let w = width(c / 100);
        text_put::bytes(out, at, b"AUD");
        text_put::digits(out, at + 3, c / 100, w);
        text_put::bytes(out, at + 3 + w, b",");
        text_put::digits(out, at + 3 + w + 1, c % 100, 2);
        return at + 3 + w + 3;
    }
    at
}

// One or two digits.
fn put_count(out: &mut [u8], at: usize, n: u64) -> usize
    requires { at + 10 ≤ room }
    ensures puts { Puts out.old at (count_text n) result out.new }
    ensures small { result ≤ at + 10 }
{
    if n < 100 {
        let w = width(n);
        text_put::digits(out, at, n, w);
        return at + w;
    }
    at
}

fn put_side(out: &mut [u8], at: usize, side: &[u8]) -> usize
    requires { (at + 2 ≤ room) × (length side.now ≤ 2) }
    ensures puts { Puts out.old at side.now result out.new }
    ensures small { result ≤ at + 2 }
{
    text_put::bytes(out, at, side);
    at + side.len()
}

#[tactic(auto, using(crate::proofs::Laws::by_given))]
fn put_value(out: &mut [u8], at: usize, given: Given) -> usize
    requires { at + 16 ≤ room }
    ensures puts { Puts out.old at (value_text given) result out.new }
    ensures small { result ≤ at + 16 }
{
    match given {
        Given::Nothing => put_side(out, at, b""),
        Given::Name(c) => put_name(out, at, c),
        Given::SubType(v) => put_number(out, at, v, 3),
        Given::Numbers(n, m) => put_numbers(out, at, n, m),
        Given::Date(v) => put_number(out, at, v, 6),
        Given::Time(m) => put_time(out, at, m),
        Given::Four(v) => put_four(out, at, v),
        Given::CreditSide => put_side(out, at, b"CR"),
        Given::DebitSide => put_side(out, at, b"DR"),
        Given::Amount(c) => put_cents(out, at, c),
        Given::Count(n) => put_count(out, at, n),
    }
}

fn put_line(out: &mut [u8], at: usize, tag: &[u8], given: Given) -> usize
    requires { (at + 23 ≤ room) × (length tag.now ≤ 5) }
    ensures puts { Puts out.old at (line_text tag.now given) result out.new }
    ensures small { result ≤ at + 23 }
{
    text_put::bytes(out, at, tag);
    let e = put_value(out, at + tag.len(), given);
    text_put::bytes(out, e, b"\r\n");
    e + 2
}

// 20 and 12.
fn put_opening(out: &mut [u8], at: usize, reference: Code, subtype: u64) -> usize
    requires { at + 46 ≤ room }
    ensures puts { Puts out.old at (line_text (bytes ":20:") (given.Name reference) ++ line_text (bytes ":12:") (given.SubType subtype)) result out.new }
    ensures small { result ≤ at + 46 }
{
    let a = put_line(out, at, b":20:", Given::Name(reference));
    put_line(out, a, b":12:", Given::SubType(subtype))
}

// 77E, 22A and 119.
fn put_address(out: &mut [u8], at: usize, stream: u64, bin: Code) -> usize
    requires { at + 69 ≤ room }
    ensures puts { Puts out.old at ((line_text (bytes ":77E:") given.Nothing ++ line_text (bytes ":22A:") (given.Four stream)) ++ line_text (bytes ":119:") (given.Name bin)) result out.new }
    ensures small { result ≤ at + 69 }
{
    let a = put_line(out, at, b":77E:", Given::Nothing);
    let b = put_line(out, a, b":22A:", Given::Four(stream));
    put_line(out, b, b":119:", Given::Name(bin))
}

// 175, whose line may be missing.
#[tactic(auto, using(crate::proofs::Laws::activation_put, crate::proofs::Laws::nothing_put))]
fn put_activation(out: &mut [u8], at: usize, activation: Activation) -> usize
    requires { at + 23 ≤ room }
    ensures puts { Puts out.old at (activation_text activation) result out.new }
    ensures small { result ≤ at + 23 }
{
    match activation {
        Activation::AtOnce => at,
        Activation::Minute(m) => put_line(out, at, b":175:", Given::Time(m)),
    }
}

// 16A, 171 and 175.
fn put_terms(out: &mut [u8], at: usize, o: Order) -> usize
    requires { at + 69 ≤ room }
    ensures puts { Puts out.old at (terms_text o) result out.new }
    ensures small { result ≤ at + 69 }
{
    let a = put_line(out, at, b":16A:", Given::Numbers(o.number, o.count));
    let b = put_line(out, a, b":171:", Given::Date(o.date));
    put_activation(out, b, o.activation)
}

// 127 and 32B.
fn put_money(out: &mut [u8], at: usize, side: Given, cents: u64) -> usize
    requires { at + 46 ≤ room }
    ensures puts { Puts out.old at (line_text (bytes ":127:") side ++ line_text (bytes ":32B:") (given.Amount cents)) result out.new }
    ensures small { result ≤ at + 46 }
{
    let a = put_line(out, at, b":127:", side);
    put_line(out, a, b":32B:", Given::Amount(cents))
}

// 113 and 102 of a debit.
fn put_debtor(out: &mut [u8], at: usize, letters: u64, bank: u64) -> usize
    requires { at + 46 ≤ room }
    ensures puts { Puts out.old at (line_text (bytes ":113:") (given.Four letters) ++ line_text (bytes ":102:") (given.Four bank)) result out.new }
    ensures small { result ≤ at + 46 }
{
    let a = put_line(out, at, b":113:", Given::Four(letters));
    put_line(out, a, b":102:", Given::Four(bank))
}

fn put_payment(out: &mut [u8], at: usize, line: Payable) -> usize
    requires { at + 92 ≤ room }
    ensures puts { Puts out.old at (payment_text line) result out.new }
    ensures small { result ≤ at + 92 }
{
    match line.side {
        Side::Credit => {
            let a = put_money(out, at, Given::CreditSide, line.cents);
            put_line(out, a, b":102:", Given::Four(line.bank))
        }
        Side::Debit(letters) => {
            let a = put_money(out, at, Given::DebitSide, line.cents);
            put_debtor(out, a, letters, line.bank)
        }
    }
}

// The first n payments.
fn put_payments(out: &mut [u8], at: usize, lines: [Payable; 10], n: usize) -> usize
    requires { at + 920 ≤ room }
    ensures puts { Puts out.old at (payments_text n lines) result out.new }
    ensures small { result ≤ at + 920 }
{
    let mut a = at;
    for i in 0..n.min(10) {
        a = put_payment(out, a, lines[i]);
    }
    a
}

// What follows 119 of a 131.
fn put_message(out: &mut [u8], at: usize, o: Order) -> usize
    requires { at + 1012 ≤ room }
    ensures puts { Puts out.old at (message_text o) result out.new }
    ensures small { result ≤ at + 1012 }
{
    let a = put_terms(out, at, o);
    let b = put_payments(out, a, o.payments, o.n);
    put_line(out, b, b":203:", Given::Count(o.n as u64))
}

// The text of an order as it stands, whatever its reader says of it.
pub fn put_order(out: &mut [u8], o: Order) -> usize
    ensures puts { Puts out.old 0 (order_text o) result out.new }
    ensures small { result ≤ 1127 }
{
    let a = put_opening(out, 0, o.reference, o.subtype);
    let b = put_address(out, a, o.stream, o.bin);
    if o.subtype == 131 {
        return put_message(out, b, o);
    }
    b
}

// A text goes to its place whole, or not at all.
fn write_text(out: &mut [u8], at: usize, text: &[u8]) -> Result<usize, Refusal>
    ensures { (result ≡ written out.old at text.now) × (out.new ≡ after out.old at text.now) }
{
    let n = text.len();
    if out.len() < n || out.len() - n < at {
        return Err(Refusal::ShortBuffer);
    }
    text_put::bytes(out, at, text);
    Ok(at + n)
}

// The text of a request: made in an array, read back, and copied where the reader accepts it.
pub fn write_request(out: &mut [u8], at: usize, order: Order) -> Result<usize, Refusal>
    ensures { Wrote out.old at order result out.new }
{
    let mut text = [0u8; 2048];
    let n = put_order(&mut text, order);
    let reading = request_read::whole::read_request(&text[..n]);
    match reading.outcome {
        Outcome::Refused(b) => Err(b.refusal),
        Outcome::Settlement | Outcome::Recall => write_text(out, at, &text[..n]),
    }
}

// The account of a request, as it is told of an accepted one, read into the order that an administrator
// writes.
#![tactic(auto)]

pub mod refusals;
pub mod several;

ghost use Rattle.std.specs.Prelude.{◌≡◌, ◌≤◌, get_or, count_by, eqb, length};
ghost use Rattle.codes.specs.Codes.{short_at};
ghost use Rattle.cli_request.specs.Account.{line_over, kind_at, line_at, numbers_at, name_at, activation_of, activation_at, is_plain, sum_at, is_shown, are_shown, unshown, spaced, letters_at, credit_at, debit_at, payment_at, payments_at, head_at, terms_at, line_after, first_line, asked, headed, unread, body_at, message_at, account_in, line_of};

use codes::Code;
use request_read::terms::Activation;
use request_write::{Order, Payable, Side};

// How a value is spelled. Kept an enum of kinds: `Four` is no absence of digits.
#[derive(Clone, Copy)]
pub enum Spelling {
    // Just so many digits.
    Digits(usize),
    // Four of A-Z 0-9.
    Four,
}

// What a line is to say.
#[derive(Clone, Copy)]
pub enum Expected {
    SubType,
    Reference,
    Stream,
    Bin,
    Message,
    Date,
    Activation,
    Payment,
    Nothing,
}

#[derive(Clone, Copy)]
pub struct ToldHead {
    pub subtype: u64,
    pub reference: Code,
    pub stream: u64,
    pub bin: Code,
}

#[derive(Clone, Copy)]
pub struct ToldTerms {
    pub number: u64,
    pub count: u64,
    pub date: u64,
    pub activation: Activation,
}

// The first n lines are payments, where no more than ten are told. The account is read to its end, or to the line at a place
// that does not say what was expected.
#[derive(Clone, Copy)]
pub struct ToldPayments {
    pub payments: [Payable; 10],
    pub n: usize,
    pub ending: Result<(), (usize, Expected)>,
}

// The order is as far as the account was read: to its end, or to the line at a place that does not say what was expected.
#[derive(Clone, Copy)]
pub struct Account {
    pub order: Order,
    pub ending: Result<(), (usize, Expected)>,
}

// A line ends with a line feed, a CR before it or not, or with the account.
#[tactic(auto, unfolding(crate::specs::Account::line_over))]
pub fn line_over(s: &[u8], at: usize) -> Option<usize>
    ensures { result ≡ line_over s.now at }
{
    if s.len() <= at {
        return Some(at);
    }
    if s[at] == b'\n' {
        return Some(at + 1);
    }
    text_scan::lit(s, at, b"\r\n")
}

// A number, and the place past it.
#[tactic(auto, unfolding(crate::specs::Account::kind_at))]
fn read_kind(s: &[u8], at: usize, kind: Spelling) -> Option<(u64, usize)>
    ensures { result ≡ kind_at s.now at kind }
{
    match kind {
        Spelling::Digits(k) => { text_scan::number(s, at, k) }
        Spelling::Four => {
            let e = text_scan::code(s, at, 4)?;
            Some((codes::short_code(s, at), e))
        }
    }
}

// A line: its name, its value and its end.
#[tactic(auto, unfolding(crate::specs::Account::line_at))]
fn read_line(s: &[u8], at: usize, name: &[u8], kind: Spelling) -> Option<(u64, usize)>
    ensures { result ≡ line_at s.now at name.now kind }
{
    let a = text_scan::lit(s, at, name)?;
    let (v, b) = read_kind(s, a, kind)?;
    let c = line_over(s, b)?;
    Some((v, c))
}

// The line of a message's number and count, two digits each.
#[tactic(auto, unfolding(crate::specs::Account::numbers_at))]
fn read_numbers(s: &[u8], at: usize) -> Option<(u64, u64, usize)>
    ensures { result ≡ numbers_at s.now at }
{
    let a = text_scan::lit(s, at, b"message ")?;
    let (n, b) = text_scan::number(s, a, 2)?;
    let c = text_scan::lit(s, b, b"/")?;
    let (m, d) = read_line(s, c, b"", Spelling::Digits(2))?;
    Some((n, m, d))
}

// A line of a name of A-Z 0-9.
#[tactic(auto, using(crate::proofs::Laws::codes_past), unfolding(crate::specs::Account::name_at))]
fn read_name(s: &[u8], at: usize, name: &[u8], most: usize) -> Option<(Code, usize)>
    ensures { result ≡ name_at s.now at name.now most }
{
    let a = text_scan::lit(s, at, name)?;
    let b = text_scan::codes(s, a, most);
    let c = line_over(s, b)?;
    Some((codes::long_code(s, a, b - a), c))
}

// Of HHMM that is no time, a minute that no text can hold.
#[tactic(auto, unfolding(crate::specs::Account::activation_of))]
fn activation_of(hhmm: u64) -> Activation
    ensures { result ≡ activation_of hhmm }
{
    Activation::Minute(clock::minute_of(hhmm).unwrap_or(1_440))
}

#[tactic(auto, unfolding(crate::specs::Account::activation_at))]
fn read_activation(s: &[u8], at: usize) -> Option<(Activation, usize)>
    ensures { result ≡ activation_at s.now at }
{
    if let Some(a) = text_scan::lit(s, at, b"activation none") {
        let b = line_over(s, a)?;
        return Some((Activation::AtOnce, b));
    }
    let (v, c) = read_line(s, at, b"activation ", Spelling::Digits(4))?;
    Some((activation_of(v), c))
}

// 0 past the end.
fn byte(s: &[u8], at: usize) -> u8
    ensures { result ≡ get_or s.now at 0 }
{
    if at < s.len() { s[at] } else { 0 }
}

// Some digits, and no needless zero before them.
#[tactic(auto, unfolding(crate::specs::Account::is_plain))]
pub fn is_plain(s: &[u8], at: usize, end: usize) -> bool
    ensures { result ≡ is_plain s.now at end }
{
    at < end && (byte(s, at) != b'0' || end == at + 1)
}

// Cents, a space and a bank.
#[tactic(auto, unfolding(crate::specs::Account::sum_at))]
fn read_sum(s: &[u8], at: usize) -> Option<(u64, u64, usize)>
    ensures { result ≡ sum_at s.now at }
{
    let cents = text_scan::digits(s, at, 18);
    if !is_plain(s, at, cents.end) {
        return None;
    }
    let b = text_scan::lit(s, cents.end, b" ")?;
    let c = text_scan::code(s, b, 4)?;
    Some((cents.value, codes::short_code(s, b), c))
}

#[tactic(auto, unfolding(crate::specs::Account::is_shown))]
fn is_shown(b: u8) -> bool
    ensures { result ≡ is_shown b }
{
    b == b'-' || chars::is_letter(b)
}

#[tactic(auto, unfolding(crate::specs::Account::are_shown))]
fn are_shown(b: [u8; 4]) -> bool
    ensures { result ≡ are_shown b }
{
    is_shown(b[0]) && is_shown(b[1]) && is_shown(b[2]) && is_shown(b[3])
}

// A dash stands for a space.
#[tactic(auto, unfolding(crate::specs::Account::unshown))]
fn unshown(b: u8) -> u8
    ensures { result ≡ unshown b }
{
    if b == b'-' { b' ' } else { b }
}

// The number of four letters.
#[tactic(auto, unfolding(crate::specs::Account::spaced))]
fn spaced(b: [u8; 4]) -> u64
    ensures { result ≡ short_at (spaced b) 0 }
{
    let four = [unshown(b[0]), unshown(b[1]), unshown(b[2]), unshown(b[3])];
    codes::short_code(&four, 0)
}

// Four letters.
#[tactic(auto, unfolding(crate::specs::Account::letters_at))]
fn read_letters(s: &[u8], at: usize) -> Option<(u64, usize)>
    ensures { result ≡ letters_at s.now at }
{
    if s.len() < 4 || s.len() - 4 < at {
        return None;
    }
    let b = [s[at], s[at + 1], s[at + 2], s[at + 3]];
    if !are_shown(b) {
        return None;
    }
    Some((spaced(b), at + 4))
}

#[tactic(auto, unfolding(crate::specs::Account::credit_at))]
fn read_credit(s: &[u8], at: usize) -> Option<(Payable, usize)>
    ensures { result ≡ credit_at s.now at }
{
    let (cents, bank, a) = read_sum(s, at)?;
    let b = line_over(s, a)?;
    let side = Side::Credit;
    Some((Payable { side, cents, bank }, b))
}

#[tactic(auto, unfolding(crate::specs::Account::debit_at))]
fn read_debit(s: &[u8], at: usize) -> Option<(Payable, usize)>
    ensures { result ≡ debit_at s.now at }
{
    let (cents, bank, a) = read_sum(s, at)?;
    let b = text_scan::lit(s, a, b" ")?;
    let (letters, c) = read_letters(s, b)?;
    let d = line_over(s, c)?;
    let side = Side::Debit(letters);
    Some((Payable { side, cents, bank }, d))
}

#[tactic(auto, unfolding(crate::specs::Account::payment_at))]
fn read_payment(s: &[u8], at: usize) -> Option<(Payable, usize)>
    ensures { result ≡ payment_at s.now at }
{
    if let Some(a) = text_scan::lit(s, at, b"payment CR ") {
        return read_credit(s, a);
    }
    if let Some(a) = text_scan::lit(s, at, b"payment DR ") {
        return read_debit(s, a);
    }
    None
}

// An eleventh payment is counted and not kept: no text can hold it.
fn read_payments(s: &[u8], at: usize) -> ToldPayments
    ensures { result ≡ payments_at s.now at }
{
    let none = Payable {
        side: Side::Credit,
        cents: 0,
        bank: 0,
    };
    let mut payments = [none; 10];
    let mut here = at;
    for n in 0..10 {
        if s.len() <= here {
            return ToldPayments {
                payments,
                n,
                ending: Ok(()),
            };
        }
        match read_payment(s, here) {
            None => {
                return ToldPayments {
                    payments,
                    n,
                    ending: Err((here, Expected::Payment)),
                };
            }
            Some((p, next)) => {
                payments[n] = p;
                here = next;
            }
        }
    }
    if s.len() <= here {
        return ToldPayments {
            payments,
            n: 10,
            ending: Ok(()),
        };
    }
    match read_payment(s, here) {
        None => ToldPayments {
            payments,
            n: 10,
            ending: Err((here, Expected::Payment)),
        },
        Some(_) => ToldPayments {
            payments,
            n: 11,
            ending: Ok(()),
        },
    }
}

// The head, and the place past it; or the place of the line that does not say what was expected, and what that was.
#[tactic(auto, unfolding(crate::specs::Account::head_at))]
fn read_head(s: &[u8], at: usize) -> Result<(ToldHead, usize), (usize, Expected)>
    ensures { result ≡ head_at s.now at }
{
    let (subtype, a) = read_line(s, at, b"accepted ", Spelling::Digits(3)).ok_or((
        at,
        Expected::SubType,
    ))?;
    let (reference, b) = read_name(s, a, b"reference ", 16).ok_or((a, Expected::Reference))?;
    let (stream, c) = read_line(s, b, b"stream ", Spelling::Four).ok_or((b, Expected::Stream))?;
    let (bin, d) = read_name(s, c, b"bin ", 8).ok_or((c, Expected::Bin))?;
    let head = ToldHead {
        subtype,
        reference,
        stream,
        bin,
    };
    Ok((head, d))
}

// The terms of a 131, and the place past them; or what was expected, likewise.
#[tactic(auto, unfolding(crate::specs::Account::terms_at))]
fn read_terms(s: &[u8], at: usize) -> Result<(ToldTerms, usize), (usize, Expected)>
    ensures { result ≡ terms_at s.now at }
{
    let (number, count, a) = read_numbers(s, at).ok_or((at, Expected::Message))?;
    let (date, b) = read_line(s, a, b"date ", Spelling::Digits(6)).ok_or((a, Expected::Date))?;
    let (activation, c) = read_activation(s, b).ok_or((b, Expected::Activation))?;
    let terms = ToldTerms {
        number,
        count,
        date,
        activation,
    };
    Ok((terms, c))
}

// Where the next line begins.
fn line_after(s: &[u8], at: usize) -> usize
    ensures { result ≡ line_after s.now at }
{
    for i in at..s.len() {
        if s[i] == b'\n' {
            return i + 1;
        }
    }
    at.max(s.len())
}

// A line that names the file may come first.
#[tactic(auto, unfolding(crate::specs::Account::first_line))]
pub fn first_line(s: &[u8]) -> usize
    ensures { result ≡ first_line s.now }
{
    match text_scan::lit(s, 0, b"file ") {
        Some(a) => line_after(s, a),
        None => 0,
    }
}

#[tactic(auto, unfolding(crate::specs::Account::asked))]
fn asked(h: ToldHead, t: ToldTerms, p: ToldPayments) -> Account
    ensures { result ≡ asked h t p }
{
    let payments = p.payments;
    let order = Order {
        subtype: h.subtype,
        reference: h.reference,
        stream: h.stream,
        bin: h.bin,
        number: t.number,
        count: t.count,
        date: t.date,
        activation: t.activation,
        payments,
        n: p.n,
    };
    Account {
        order,
        ending: p.ending,
    }
}

// The head alone.
#[tactic(auto, unfolding(crate::specs::Account::headed))]
fn headed(h: ToldHead, ending: Result<(), (usize, Expected)>) -> Account
    ensures { result ≡ headed h ending }
{
    let none = Payable {
        side: Side::Credit,
        cents: 0,
        bank: 0,
    };
    let terms = ToldTerms {
        number: 0,
        count: 0,
        date: 0,
        activation: Activation::AtOnce,
    };
    asked(
        h,
        terms,
        ToldPayments {
            payments: [none; 10],
            n: 0,
            ending,
        },
    )
}

#[tactic(auto, unfolding(crate::specs::Account::unread))]
fn unread(at: usize, expected: Expected) -> Account
    ensures { result ≡ unread at expected }
{
    let none = Code::nothing();
    let head = ToldHead {
        subtype: 0,
        reference: none,
        stream: 0,
        bin: none,
    };
    headed(head, Err((at, expected)))
}

// What follows the head of a 131.
#[tactic(auto, unfolding(crate::specs::Account::message_at))]
fn read_message(s: &[u8], at: usize, head: ToldHead) -> Account
    ensures { result ≡ message_at s.now at head }
{
    match read_terms(s, at) {
        Err(unread) => headed(head, Err(unread)),
        Ok((terms, next)) => asked(head, terms, read_payments(s, next)),
    }
}

// A recall ends after its head; what follows another sub type is not read, since the writer refuses it.
#[tactic(auto, unfolding(crate::specs::Account::body_at))]
fn read_body(s: &[u8], at: usize, head: ToldHead) -> Account
    ensures { result ≡ body_at s.now at head }
{
    if head.subtype == 131 {
        return read_message(s, at, head);
    }
    if head.subtype == 133 && at < s.len() {
        return headed(head, Err((at, Expected::Nothing)));
    }
    headed(head, Ok(()))
}

// The order that an account asks for.
#[tactic(auto, unfolding(crate::specs::Account::account_in))]
pub fn read_account(s: &[u8]) -> Account
    ensures { result ≡ account_in s.now }
{
    match read_head(s, first_line(s)) {
        Err((at, expected)) => unread(at, expected),
        Ok((head, at)) => read_body(s, at, head),
    }
}

// How many lines end.
fn feeds(s: &[u8]) -> usize
    ensures value { result ≡ count_by (λ b. eqb b 10) s.now }
    ensures small { result ≤ length s.now }
{
    s.iter().filter(|b| **b == b'\n').count()
}

// The number of the line at a place, from 1.
pub fn line_of(s: &[u8], at: usize) -> usize
    ensures { result ≡ line_of s.now at }
{
    1 + feeds(&s[..at.min(s.len())])
}

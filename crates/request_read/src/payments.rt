// The payments of a request: 127, 32B, 113 after DR, 102, one to ten times.
ghost use Rattle.std.specs.Prelude.{◌≡◌};
ghost use Rattle.request_read.specs.payments.Payments.{no_payment, status_at, payment_at, more_at, payments_at};

use chars::Refusal;
use text_fields::{Break, Item};
use text_scan::Cursor;

// A payment's fields. Its side is 0 for CR and 1 for DR; a credit's letters are 0.
#[derive(Clone, Copy)]
pub struct Payment {
    pub side: Item,
    pub amount: Item,
    pub letters: Item,
    pub bank: Item,
}

impl Payment {
    // At a place that holds none.
    pub fn nothing() -> Payment
        ensures { result ≡ no_payment }
    {
        let item = Item::nothing();
        Payment {
            side: item,
            amount: item,
            letters: item,
            bank: item,
        }
    }
}

// 113, which stands after DR and never after CR: a credit has no letters.
#[tactic(auto, unfolding(crate::specs::payments::Payments::status_at))]
fn read_letters(s: &[u8], c: Cursor, side: Item) -> Result<(Item, Cursor), Break>
    ensures { result ≡ status_at s.now c.at side }
{
    if side.number != 0 {
        return text_fields::read_letters(s, c);
    }
    if text_scan::lit(s, c.at, b":113:").is_some() {
        return Err(Break::wrong(c.at, Refusal::Malformed));
    }
    Ok((Item::nothing(), c))
}

pub fn read_payment(s: &[u8], c: Cursor) -> Result<(Payment, Cursor), Break>
    ensures { result ≡ payment_at s.now c.at }
{
    let (side, c) = text_fields::read_side(s, c)?;
    let (amount, c) = text_fields::read_amount(s, c)?;
    let (letters, c) = read_letters(s, c, side)?;
    let (bank, c) = text_fields::read_bank(s, c)?;
    let payment = Payment {
        side,
        amount,
        letters,
        bank,
    };
    Ok((payment, c))
}

// The first n places hold the payments that were read.
#[derive(Clone, Copy)]
pub struct Payments {
    pub ending: Result<Cursor, Break>,
    pub n: usize,
    pub items: [Payment; 10],
}

// A further payment begins.
#[tactic(auto, unfolding(crate::specs::payments::Payments::more_at))]
pub fn more(s: &[u8], c: Cursor) -> bool
    ensures { result ≡ more_at s.now c.at }
{
    text_scan::lit(s, c.at, b":127:").is_some()
}

pub fn read_payments(s: &[u8], c: Cursor) -> Payments
    ensures { result ≡ payments_at s.now c.at }
{
    let mut items = [Payment::nothing(); 10];
    let mut at = c.at;
    for n in 0..10 {
        match read_payment(s, Cursor { at }) {
            Err(b) => {
                return Payments {
                    ending: Err(b),
                    n,
                    items,
                };
            }
            Ok((p, next)) => {
                items[n] = p;
                at = next.at;
            }
        }
        if !more(s, Cursor { at }) {
            return Payments {
                ending: Ok(Cursor { at }),
                n: n + 1,
                items,
            };
        }
    }
    Payments {
        ending: Ok(Cursor { at }),
        n: 10,
        items,
    }
}

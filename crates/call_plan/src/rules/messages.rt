// A message before its batch: "count or activation unlike the first message's, or number already there, 87; date before today 78, after today 84; then each payment in order".
ghost use Rattle.std.specs.Prelude.{◌≡◌, ◌+◌, ◌*◌, ◌≤◌, ◌<◌, length};
ghost use Rattle.model.specs.Messages.{first_broken, message_rules};
ghost use Rattle.tables.specs.Rows.{word, batch_in};
ghost use Rattle.call_plan.specs.rules.Steps.{same_word, numbered, head_on, Counted, state_of};

use crate::rules::banks::Banks;
use crate::rules::lines;
use chars::Refusal;
use request_read::terms::{Activation, Terms};
use request_read::whole::Reading;

// The word is 0 for none, else the minute and 1.
fn same_activation(a: Activation, word: u64) -> bool
    ensures { result ≡ same_word a word }
{
    match a {
        Activation::AtOnce => word == 0,
        Activation::Minute(m) => word != 0 && m == word - 1,
    }
}

fn has_number(row: &[u64], number: u64) -> bool
    requires { (length row.now ≡ 349) × (word row.now 7 ≤ 10) }
    ensures { result ≡ numbered row.now number 0 (word row.now 7) }
{
    let n = row[7] as usize;
    for i in 0..n {
        if row[11 + 4 * i] == number {
            return true;
        }
    }
    false
}

#[tactic(auto, unfolding(crate::specs::rules::Steps::head_on))]
fn head_fault(date: u64, row: &[u64], terms: Terms) -> Result<(), Refusal>
    requires { (length row.now ≡ 349) × (word row.now 7 ≤ 10) }
    ensures { result ≡ head_on date row.now terms }
{
    if terms.count != row[4] {
        return Err(Refusal::Malformed);
    }
    if !same_activation(terms.activation, row[5]) {
        return Err(Refusal::Malformed);
    }
    if has_number(row, terms.number) {
        return Err(Refusal::Malformed);
    }
    if terms.date.number < date {
        return Err(Refusal::PastDate);
    }
    if date < terms.date.number {
        return Err(Refusal::FutureDate);
    }
    Ok(())
}

// The row is the batch's, and the stream is the place of the message's.
#[tactic(auto, using(crate::proofs::rules::Meets::message_goes))]
pub fn message_fault(
    date: u64,
    codes: &[u64],
    banks: usize,
    flags: &[u64],
    stream: usize,
    row: &[u64],
    r: Reading,
) -> Result<(), Refusal>
    requires banks_in_bounds { (banks ≤ length codes.now) × (banks ≤ length flags.now) × (stream ≤ 8) }
    requires banks_bound { (banks ≤ 64) × (r.n ≤ 10) × Counted row.now }
    ensures { result ≡ first_broken (message_rules (state_of date banks codes.now flags.now) r stream (batch_in row.now)) }
{
    head_fault(date, row, r.terms)?;
    let payments = r.payments;
    let mut taken = [0u64; 64];
    lines::mark_row(row, &mut taken);
    let house = Banks {
        codes,
        flags,
        count: banks,
        stream,
    };
    lines::lines_fault(&house, &mut taken, payments, r.n)
}

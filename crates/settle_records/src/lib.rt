// Settled payments, stored one by one in the row of records.
#![tactic(auto)]

pub mod testing;

ghost use Rattle.std.specs.Prelude.{◌≡◌, ℕ};
ghost use Rattle.settle.specs.Payments.{payment, row_payments};
ghost use Rattle.settle.specs.Settlement.{paid, settled};
ghost use Rattle.settle.specs.Rules.{Payable, Ready};
ghost use Rattle.call_records.specs.Records.{balances_of};
ghost use Rattle.settle_records.specs.Payments.{balance_after, Bears, Stored, Settles};

use call_records::Account;
use chars::Refusal;
use settle::Batch;

// The balance of an account after one payment. A credit has no letters.
fn balance_after(balance: u64, cents: u64, letters: u64) -> u64
    requires { Bears balance cents letters }
    ensures { result ≡ balance_after balance cents letters }
{
    if letters == 0 {
        balance + cents
    } else {
        balance - cents
    }
}

// One payment, stored in the record of its bank.
fn pay(row: &mut [Account], bank: usize, cents: u64, letters: u64)
    requires { Payable (balances_of row.old) (payment bank cents letters) }
    ensures { Stored row.old row.new (paid (balances_of row.old) (payment bank cents letters)) }
{
    let balance = row[bank].balance;
    row[bank].balance = balance_after(balance, cents, letters);
}

// All payments of the batch at a place.
fn settle(row: &mut [Account], batches: &[u64], place: usize)
    requires { Ready (balances_of row.old) batches.now place }
    ensures { Stored row.old row.new (settled (balances_of row.old) (row_payments batches.now place)) }
{
    let first = place * Batch::WIDTH + Batch::PAYMENT;
    let n = batches[place * Batch::WIDTH + Batch::PAYMENTS_THERE] as usize;
    for i in 0..n {
        let at = first + i * Batch::PAYMENT_WIDTH;
        let bank = batches[at] as usize;
        let cents = batches[at + 1];
        let letters = batches[at + 2];
        pay(row, bank, cents, letters);
    }
}

// The same on a row that is passed by value and handed back: the row is lent to `settle`.
fn settle_row(mut row: [Account; 64], batches: &[u64], place: usize) -> [Account; 64]
    requires { Ready (balances_of row) batches.now place }
    ensures { Stored row result (settled (balances_of row) (row_payments batches.now place)) }
{
    settle(&mut row, batches, place);
    row
}

// What a settlement answers, and the row that it leaves.
#[derive(Clone, Copy)]
pub struct RowSettled {
    pub answer: Result<(), Refusal>,
    pub row: [Account; 64],
}

// One batch, settled on the row; 06 with nothing changed where it cannot be: a table of another length, a place past its rows, more than 100 payments,
// a bank that is not in the row, a debit without the money or a credit without room in the word.
pub fn settle_batch(row: [Account; 64], batches: &[u64], place: usize) -> RowSettled
    ensures { Settles row batches.now place result.answer result.row }
{
    if !testing::ready(row, batches, place) {
        return RowSettled {
            answer: Err(Refusal::BrokenTables),
            row,
        };
    }
    let after = settle_row(row, batches, place);
    RowSettled {
        answer: Ok(()),
        row: after,
    }
}

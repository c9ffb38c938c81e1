// Whether a batch can be settled on a row: its payments are tried one after another on a copy of the balances.
ghost use Rattle.std.specs.Prelude.{◌≡◌, ℕ, ◌+◌, ◌≤◌, ◌<◌, length};
ghost use Rattle.chars.specs.Words.{Says};
ghost use Rattle.settle.specs.Payments.{payment, row_payments, how_many};
ghost use Rattle.settle.specs.Settlement.{paid};
ghost use Rattle.settle.specs.Rules.{Payable, AllPayable, Ready};
ghost use Rattle.call_records.specs.Records.{balances_of};
ghost use Rattle.settle_records.specs.Payments.{Bears};

use call_records::Account;
use settle::Batch;

// The last number of a word.
const LAST: u64 = 18_446_744_073_709_551_615;

// The words of the batches' table.
const TABLE: usize = 11_168;

// The payments of a batch.
const MOST: u64 = 100;

// Whether the balance bears the payment: a credit has room in the word, a debit has the money.
fn bears(balance: u64, cents: u64, letters: u64) -> bool
    ensures { Says (Bears balance cents letters) result }
{
    if letters == 0 {
        cents <= LAST - balance
    } else {
        cents <= balance
    }
}

// Whether a payment can be made now.
fn can_pay(balances: &[u64], bank: usize, cents: u64, letters: u64) -> bool
    ensures { Says (Payable balances.now (payment bank cents letters)) result }
{
    if balances.len() <= bank {
        return false;
    }
    bears(balances[bank], cents, letters)
}

fn pay(balances: &mut [u64], bank: usize, cents: u64, letters: u64)
    requires { Payable balances.old (payment bank cents letters) }
    ensures { balances.new ≡ paid balances.old (payment bank cents letters) }
{
    let balance = balances[bank];
    balances[bank] = crate::balance_after(balance, cents, letters);
}

// Whether each payment of the batch at a place can be made when its turn comes.
fn all_payable(balances: &mut [u64], batches: &[u64], place: usize) -> bool
    requires batches_len { length batches.now ≡ 11168 }
    requires place_bound { place < 32 }
    requires place_bound_2 { how_many batches.now place ≤ 100 }
    ensures { Says (AllPayable balances.old (row_payments batches.now place)) result }
{
    let first = place * Batch::WIDTH + Batch::PAYMENT;
    let n = batches[place * Batch::WIDTH + Batch::PAYMENTS_THERE] as usize;
    for i in 0..n {
        let at = first + i * Batch::PAYMENT_WIDTH;
        let bank = batches[at] as usize;
        let cents = batches[at + 1];
        let letters = batches[at + 2];
        if !can_pay(balances, bank, cents, letters) {
            return false;
        }
        pay(balances, bank, cents, letters);
    }
    true
}

// The balances of a row.
fn balances_of(row: [Account; 64]) -> [u64; 64]
    ensures { result ≡ balances_of row }
{
    // Kept: under `row.map(..)` the goal on the returned row stays open.
    let mut balances = [0u64; 64];
    for i in 0..Account::ROW {
        balances[i] = row[i].balance;
    }
    balances
}

pub fn ready(row: [Account; 64], batches: &[u64], place: usize) -> bool
    ensures { Says (Ready (balances_of row) batches.now place) result }
{
    if batches.len() != TABLE {
        return false;
    }
    if Batch::LIVE <= place {
        return false;
    }
    if MOST < batches[place * Batch::WIDTH + Batch::PAYMENTS_THERE] {
        return false;
    }
    let mut balances = balances_of(row);
    all_payable(&mut balances, batches, place)
}

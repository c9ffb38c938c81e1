// The payments of a row.
ghost use Rattle.std.specs.Prelude.{◌≡◌, ℕ, ◌+◌, ◌*◌, ◌<◌, ◌≤◌, length};
ghost use Rattle.chars.specs.Words.{Says};
ghost use Rattle.book_read.specs.Range.{Each};
ghost use Rattle.settle.specs.Payments.{payment_at, payments_from, cents_of};
ghost use Rattle.settle.specs.Rules.{credits, debits};
ghost use Rattle.model.specs.Changes.{has_debit};
ghost use Rattle.model.specs.Rules.{Priced, Lettered};
ghost use Rattle.tables.specs.Rows.{word};
ghost use Rattle.tables_rules.specs.batch_rules.BatchRules.{payments_in, RightPayments};
ghost use Rattle.tables_rules.specs.payments.Marks.{banks_of, Below};

use crate::payments::{letters, marks};

const MOST_CENTS: u64 = 999_999_999_999;

fn payment_right(row: &[u64], at: usize, banks: usize) -> bool
    requires { (length row.now ≡ 349) × (at + 3 ≤ 349) }
    ensures { Says (Priced banks (payment_at row.now at) × Lettered (payment_at row.now at)) result }
{
    if banks as u64 <= row[at] {
        return false;
    }
    if MOST_CENTS < row[at + 1] {
        return false;
    }
    let letters = row[at + 2];
    if letters == 0 {
        return true;
    }
    letters::letters_right(letters)
}

fn each_right(row: &[u64], n: usize, banks: usize) -> bool
    requires { (length row.now ≡ 349) × (n ≤ 100) }
    ensures { Says (Each (λ p. Priced banks p × Lettered p) (payments_from row.now 49 n)) result }
{
    for j in 0..n {
        if !payment_right(row, 49 + 3 * j, banks) {
            return false;
        }
    }
    true
}

// "all banks differ"
fn banks_apart(row: &[u64], n: usize, banks: usize) -> bool
    requires { (length row.now ≡ 349) × (n ≤ 100) × (banks ≤ 64) }
    ensures { Says (Below banks (banks_of (payments_from row.now 49 n))) result }
{
    let mut seen = [0u64; 64];
    for j in 0..n {
        if !marks::mark(&mut seen, banks, row[49 + 3 * j]) {
            return false;
        }
    }
    true
}

pub fn payments_right(row: &[u64], banks: usize) -> bool
    requires { (length row.now ≡ 349) × (word row.now 8 ≤ 100) × (banks ≤ 64) }
    ensures { Says (RightPayments banks row.now) result }
{
    let n = row[8] as usize;
    if !each_right(row, n, banks) {
        return false;
    }
    banks_apart(row, n, banks)
}

// "credits equal debits"
pub fn even(row: &[u64]) -> bool
    requires row_len { (length row.now ≡ 349) × (word row.now 8 ≤ 100) }
    requires each { Each (λ p. cents_of p ≤ 999999999999) (payments_in row.now) }
    ensures { Says (credits (payments_in row.now) ≡ debits (payments_in row.now)) result }
{
    let n = row[8] as usize;
    let mut credit: u64 = 0;
    let mut debit: u64 = 0;
    for j in 0..n {
        let cents = row[49 + 3 * j + 1];
        if row[49 + 3 * j + 2] == 0 {
            credit += cents;
            continue;
        }
        debit += cents;
    }
    credit == debit
}

// Whether a debit of a bank is there.
pub fn has_debit(row: &[u64], bank: u64) -> bool
    requires { (length row.now ≡ 349) × (word row.now 8 ≤ 100) }
    ensures { result ≡ has_debit bank (payments_in row.now) }
{
    let n = row[8] as usize;
    for j in 0..n {
        if row[49 + 3 * j + 2] == 0 {
            continue;
        }
        if row[49 + 3 * j] == bank {
            return true;
        }
    }
    false
}

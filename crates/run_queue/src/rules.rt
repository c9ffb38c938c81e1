// Whether given rows keep the rules that the queue tests ask for. Each answers true only where its rule holds.
ghost use Rattle.std.specs.Prelude.{◌≡◌, true, List, ℕ, ◌+◌, ◌*◌, ◌≤◌, ◌<◌, length, get_or, take};
ghost use Rattle.settle.specs.Payments.{payment_at, payments_from, how_many};
ghost use Rattle.settle.specs.Rules.{sum, credits, debits, Apart, Distinct, Ranged, Good};
ghost use Rattle.queue.specs.Rows.{AllGood};
ghost use Rattle.run_queue.specs.Sums.{credit_of, debit_of};

const MOST_CENTS: u64 = 999_999_999_999;

pub fn total_fits(balances: &[u64]) -> bool
    ensures { result ≡ true → sum balances.now ≤ 6400000000000000 }
{
    let mut total = 0;
    for &balance in balances {
        if settle::Bank::RICHEST - total < balance {
            return false;
        }
        total += balance;
    }
    true
}

fn ranged(batches: &[u64], from: usize, count: u64) -> bool
    requires { from + 3 * count ≤ length batches.now }
    ensures { result ≡ true → Ranged (payments_from batches.now from count) }
{
    let mut at = from;
    for i in 0..count {
        if 63 < batches[at] {
            return false;
        }
        if MOST_CENTS < batches[at + 1] {
            return false;
        }
        at += 3;
    }
    true
}

fn apart(batches: &[u64], from: usize, count: u64, bank: u64) -> bool
    requires { from + 3 * count ≤ length batches.now }
    ensures { result ≡ true → Apart bank (payments_from batches.now from count) }
{
    let mut at = from;
    for i in 0..count {
        if batches[at] == bank {
            return false;
        }
        at += 3;
    }
    true
}

fn distinct(batches: &[u64], from: usize, count: u64) -> bool
    requires { from + 3 * count ≤ length batches.now }
    ensures { result ≡ true → Distinct (payments_from batches.now from count) }
{
    let mut at = from;
    for i in 0..count {
        let bank = batches[at];
        at += 3;
        if !apart(batches, at, count - i - 1, bank) {
            return false;
        }
    }
    true
}

fn credit_of(batches: &[u64], at: usize) -> u64
    requires { at + 3 ≤ length batches.now }
    ensures { result ≡ credit_of (payment_at batches.now at) }
{
    if batches[at + 2] == 0 {
        batches[at + 1]
    } else {
        0
    }
}

fn debit_of(batches: &[u64], at: usize) -> u64
    requires { at + 3 ≤ length batches.now }
    ensures { result ≡ debit_of (payment_at batches.now at) }
{
    if batches[at + 2] == 0 {
        0
    } else {
        batches[at + 1]
    }
}

fn even(batches: &[u64], from: usize, count: u64) -> bool
    requires { (from + 3 * count ≤ length batches.now) × (count ≤ 100) × Ranged (payments_from batches.now from count) }
    ensures { result ≡ true → credits (payments_from batches.now from count) ≡ debits (payments_from batches.now from count) }
{
    let mut at = from;
    let mut brought = 0;
    let mut taken = 0;
    for i in 0..count {
        brought += credit_of(batches, at);
        taken += debit_of(batches, at);
        at += 3;
    }
    brought == taken
}

pub fn good(batches: &[u64], place: usize) -> bool
    ensures { result ≡ true → Good batches.now place }
{
    if batches.len() != settle::Batch::LIVE * settle::Batch::WIDTH {
        return false;
    }
    if settle::Batch::LIVE <= place {
        return false;
    }
    let count = batches[place * settle::Batch::WIDTH + settle::Batch::PAYMENTS_THERE];
    if 100 < count {
        return false;
    }
    let from = place * settle::Batch::WIDTH + settle::Batch::PAYMENT;
    if !ranged(batches, from, count) {
        return false;
    }
    if !distinct(batches, from, count) {
        return false;
    }
    even(batches, from, count)
}

pub fn all_good(batches: &[u64], queue: &[u64], waiting: usize) -> bool
    requires { waiting ≤ length queue.now }
    ensures { result ≡ true → AllGood batches.now (take waiting queue.now) }
{
    for i in 0..waiting {
        let place = queue[i] as usize;
        if !good(batches, place) {
            return false;
        }
    }
    true
}

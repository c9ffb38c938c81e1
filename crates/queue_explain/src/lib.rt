// Why a queued batch has not settled: the first uncovered debit, on the balances as they stand, and what its bank lacks.
#![tactic(auto)]

ghost use Rattle.std.specs.Prelude.{◌≡◌, ℕ, ◌+◌, ◌*◌, ◌≤◌, get_or};
ghost use Rattle.settle.specs.Payments.{payment_at, payments_from, table_length, needs_of};
ghost use Rattle.settle.specs.Settlement.{accounts, uncovered};
ghost use Rattle.queue_explain.specs.Holding.{short_of, need_at, holds, held_by, held_at};

use settle::Batch;

// A debit: the place of its bank, its ESA letter, its cents.
#[derive(Clone, Copy)]
pub struct Debit {
    pub bank: u64,
    pub letter: u64,
    pub cents: u64,
}

// What holds a batch.
#[derive(Clone, Copy)]
pub enum Held {
    // The bank lacks so many cents for this debit.
    Short(Debit, u64),
    // This debit is deferred: no money covers it.
    Deferred(Debit),
    // Nothing: each debit is covered.
    Free,
    // No queued batch of up to 100 payments stands there.
    Unqueued,
}

// The phase of a queued batch.
const QUEUED: u64 = 3;

// The first of a debit's four letters.
const FIRST_LETTER: u64 = 16_777_216;

const WORD_MOST: u64 = 18_446_744_073_709_551_615;

// 0 past the end.
fn word(row: &[u64], i: usize) -> u64
    ensures { result ≡ get_or row.now i 0 }
{
    if i < row.len() { row[i] } else { 0 }
}

fn index(x: u64) -> usize
    ensures { result ≡ x }
{
    x as usize
}

// What a balance lacks for so many cents and a sub-limit.
fn short_of(cents: u64, sublimit: u64, balance: u64) -> u64
    ensures { result ≡ short_of cents sublimit balance }
{
    if cents <= balance {
        let left = balance - cents;
        if sublimit <= left {
            return 0;
        }
        return sublimit - left;
    }
    let lack = cents - balance;
    if WORD_MOST - lack < sublimit {
        return WORD_MOST;
    }
    lack + sublimit
}

// Whether the payment at a word of the table is a debit that its own bank does not cover.
fn uncovered_at(balances: &[u64], sublimits: &[u64], batches: &[u64], at: usize) -> bool
    requires { at + 3 ≤ table_length }
    ensures { result ≡ uncovered (accounts balances.now sublimits.now) (payment_at batches.now at) }
{
    let letters = word(batches, at + 2);
    if letters == 0 {
        return false;
    }
    let bank = index(word(batches, at));
    let yes = settle::covered(
        letters,
        word(balances, bank),
        word(sublimits, bank),
        word(batches, at + 1),
    );
    !yes
}

// How the uncovered debit at a word of the table holds its batch.
fn holds_at(balances: &[u64], sublimits: &[u64], batches: &[u64], at: usize) -> Held
    requires { at + 3 ≤ table_length }
    ensures { result ≡ holds (accounts balances.now sublimits.now) (need_at batches.now at) }
{
    let place = word(batches, at);
    let cents = word(batches, at + 1);
    let letter = word(batches, at + 2) / FIRST_LETTER;
    let bank = index(place);
    let balance = word(balances, bank);
    let sublimit = word(sublimits, bank);
    let debit = Debit {
        bank: place,
        letter,
        cents,
    };
    match letter {
        80 => Held::Short(debit, short_of(cents, 0, balance)),
        32 | 65 => Held::Short(debit, short_of(cents, sublimit, balance)),
        _ => Held::Deferred(debit),
    }
}

// What holds a batch of which so many payments are left, from a word of the table on.
fn held_by(balances: &[u64], sublimits: &[u64], batches: &[u64], first: usize, count: u64) -> Held
    requires { first + 3 * count ≤ table_length }
    ensures { result ≡ held_by (accounts balances.now sublimits.now) (needs_of (payments_from batches.now first count)) }
{
    let n = count as usize;
    for i in 0..n {
        let at = first + i * Batch::PAYMENT_WIDTH;
        if uncovered_at(balances, sublimits, batches, at) {
            return holds_at(balances, sublimits, batches, at);
        }
    }
    Held::Free
}

// What holds the batch at a place.
pub fn held_at(balances: &[u64], sublimits: &[u64], batches: &[u64], place: usize) -> Held
    ensures { result ≡ held_at (accounts balances.now sublimits.now) batches.now place }
{
    let Ok(batch) = Batch::at(place) else {
        return Held::Unqueued;
    };
    let start = batch.start;
    if word(batches, start) != QUEUED {
        return Held::Unqueued;
    }
    let count = word(batches, start + Batch::PAYMENTS_THERE);
    if (Batch::PAYMENTS as u64) < count {
        return Held::Unqueued;
    }
    held_by(balances, sublimits, batches, start + Batch::PAYMENT, count)
}

// Settlement: the cover of one debit, the first uncovered debit of a batch, and all payments of a batch at once.
#![tactic(auto)]

ghost use Rattle.std.specs.Prelude.{◌≡◌, ℕ, ◌+◌, ◌*◌, ◌≤◌, ◌<◌, length, get_or};
ghost use Rattle.settle.specs.Cover.{covered, esa};
ghost use Rattle.settle.specs.Payments.{payment_at, row_payments, needs_of};
ghost use Rattle.settle.specs.Settlement.{accounts, uncovered, first_uncovered, paid, settled};
ghost use Rattle.settle.specs.Rules.{Payable, Laid, Ready};
ghost use Rattle.settle.specs.Types.{bank_or, batch_or};

use chars::Refusal;

// A bank's two amounts of money, in cents.
#[derive(Clone, Copy)]
pub struct Bank {
    pub balance: u64,
    pub sublimit: u64,
}

impl Bank {
    pub const MOST: usize = 64;
    // Balances, their total and sub-limits run from 0 to this many cents.
    pub const RICHEST: u64 = 6_400_000_000_000_000;

    pub fn new(balance: u64, sublimit: u64) -> Result<Bank, Refusal>
        ensures { result ≡ bank_or balance sublimit }
    {
        if balance <= Bank::RICHEST && sublimit <= Bank::RICHEST {
            return Ok(Bank { balance, sublimit });
        }
        Err(Refusal::OutOfRange)
    }
}

// The row of a batch in the table: where it starts.
#[derive(Clone, Copy)]
pub struct Batch {
    pub start: usize,
}

impl Batch {
    pub const LIVE: usize = 32;

    pub const MESSAGES: usize = 10;

    pub const PAYMENTS: usize = 100;
    // A queue of 32 in which each walk settles one batch is tried 32 + 31 + .. + 1 times.
    pub const TRIES: usize = 528;

    // The words of a row.
    pub const WIDTH: usize = 349;

    pub const PHASE: usize = 0;

    pub const RANK: usize = 1;

    pub const BIN: usize = 2;

    pub const COUNT: usize = 4;

    pub const ACTIVATION: usize = 5;

    pub const MEMORY: usize = 6;

    pub const MESSAGES_THERE: usize = 7;

    pub const PAYMENTS_THERE: usize = 8;

    pub const MESSAGE: usize = 9;

    pub const MESSAGE_WIDTH: usize = 4;

    pub const PAYMENT: usize = 49;

    pub const PAYMENT_WIDTH: usize = 3;

    pub fn at(place: usize) -> Result<Batch, Refusal>
        ensures { result ≡ batch_or place }
    {
        if place < Batch::LIVE {
            Ok(Batch {
                start: place * Batch::WIDTH,
            })
        } else {
            Err(Refusal::BrokenTables)
        }
    }
}

// The first of a debit's four letters.
const FIRST_LETTER: u64 = 16_777_216;

// Whether an account covers a debit, by the debit's ESA letter: P is 80, A 65, a space 32.
pub fn covered(letters: u64, balance: u64, sublimit: u64, cents: u64) -> bool
    ensures { result ≡ covered letters balance sublimit cents }
{
    match letters / FIRST_LETTER {
        80 => cents <= balance,
        32 | 65 => sublimit <= balance && cents <= balance - sublimit,
        _ => false,
    }
}

// What a try of a batch finds: nothing uncovered, or the bank of the first uncovered debit. Kept an enum: a batch that stops is no error.
#[derive(Clone, Copy)]
pub enum Verdict {
    Passes,
    Stops(u64),
}

fn index(x: u64) -> usize
    ensures { result ≡ x }
{
    x as usize
}

// Whether the payment at a word of the table is a debit that its own bank does not cover.
fn uncovered_at(balances: &[u64], sublimits: &[u64], batches: &[u64], at: usize) -> bool
    requires at_in_bounds { at + 3 ≤ length batches.now }
    requires at_in_bounds_2 { get_or batches.now at 0 < length balances.now }
    requires at_in_bounds_3 { get_or batches.now at 0 < length sublimits.now }
    ensures { result ≡ uncovered (accounts balances.now sublimits.now) (payment_at batches.now at) }
{
    let letters = batches[at + 2];
    if letters == 0 {
        return false;
    }
    let bank = index(batches[at]);
    let yes = covered(letters, balances[bank], sublimits[bank], batches[at + 1]);
    !yes
}

// The first uncovered debit of the batch at a place: by its messages' arrival, in a message by the text.
pub fn first_uncovered(
    balances: &[u64],
    sublimits: &[u64],
    batches: &[u64],
    place: usize,
) -> Verdict
    requires { Laid balances.now sublimits.now batches.now place }
    ensures { result ≡ first_uncovered (accounts balances.now sublimits.now) (needs_of (row_payments batches.now place)) }
{
    let first = place * Batch::WIDTH + Batch::PAYMENT;
    let n = batches[place * Batch::WIDTH + Batch::PAYMENTS_THERE] as usize;
    for i in 0..n {
        let at = first + i * Batch::PAYMENT_WIDTH;
        if uncovered_at(balances, sublimits, batches, at) {
            let bank = batches[at];
            return Verdict::Stops(bank);
        }
    }
    Verdict::Passes
}

// One payment goes to its account.
fn pay_at(balances: &mut [u64], batches: &[u64], at: usize)
    requires at_in_bounds { at + 3 ≤ length batches.now }
    requires payable { Payable balances.old (payment_at batches.now at) }
    ensures { balances.new ≡ paid balances.old (payment_at batches.now at) }
{
    let bank = batches[at] as usize;
    let cents = batches[at + 1];
    if batches[at + 2] == 0 {
        balances[bank] = balances[bank] + cents;
    } else {
        balances[bank] = balances[bank] - cents;
    }
}

// All payments of the batch at a place.
pub fn settle(balances: &mut [u64], batches: &[u64], place: usize)
    requires { Ready balances.old batches.now place }
    ensures { balances.new ≡ settled balances.old (row_payments batches.now place) }
{
    let first = place * Batch::WIDTH + Batch::PAYMENT;
    let n = batches[place * Batch::WIDTH + Batch::PAYMENTS_THERE] as usize;
    for done in 0..n {
        pay_at(balances, batches, first + done * Batch::PAYMENT_WIDTH);
    }
}

// "Clearing accepts any contents of the right lengths (else 06, its one refusal) and is a fresh start".
#![tactic(auto)]

ghost use Rattle.std.specs.Prelude.{◌≡◌, ℕ, length, replicate};
ghost use Rattle.chars.specs.Words.{Says};
ghost use Rattle.model.specs.Calls.{cleared};
ghost use Rattle.tables.specs.House.{Lengths};
ghost use Rattle.tables.specs.Words.{desk_of};
ghost use Rattle.tables.specs.Moment.{lent_on};
ghost use Rattle.tables.specs.Lent.{Cleared};
ghost use Rattle.tables_clear.specs.Clearing.{LongRows, WipedAccounts, WipedRows};

use chars::Refusal;
use model::Phase;
use tables::Desk;

// What a clearing answers, and the desk that it leaves.
#[derive(Clone, Copy)]
pub struct Start {
    pub answer: Result<(), Refusal>,
    pub desk: Desk,
}

const BATCHES: usize = 11_168;

const REFERENCES: usize = 6_144;

const BINS: usize = 1_536;

const SHEET: usize = 64;

fn rows_long(batches: &[u64], references: &[u64], bins: &[u64], sheet: &[u64]) -> bool
    ensures { Says
        (LongRows batches.now references.now bins.now sheet.now) result }
{
    batches.len() == BATCHES
        && references.len() == REFERENCES
        && bins.len() == BINS
        && sheet.len() == SHEET
}

fn wipe_accounts(codes: &mut [u64], flags: &mut [u64], balances: &mut [u64], sublimits: &mut [u64])
    ensures { WipedAccounts
        codes.old flags.old balances.old sublimits.old
        codes.new flags.new balances.new sublimits.new }
{
    tables::places::clear(codes);
    tables::places::clear(flags);
    tables::places::clear(balances);
    tables::places::clear(sublimits);
}

fn wipe_rows(batches: &mut [u64], references: &mut [u64], bins: &mut [u64], sheet: &mut [u64])
    ensures { WipedRows
        batches.old references.old bins.old sheet.old
        batches.new references.new bins.new sheet.new }
{
    tables::places::clear(batches);
    tables::places::clear(references);
    tables::places::clear(bins);
    tables::places::clear(sheet);
}

// "all zero, no day, nothing remembered"
fn no_day() -> Desk
    ensures { result ≡ desk_of cleared.state }
{
    Desk {
        phase: Phase::Fresh,
        date: 0,
        clock: 0,
        texts: 0,
        banks: 0,
        streams: [0u64; 16],
        n: 0,
    }
}

pub fn clear(
    desk: Desk,
    codes: &mut [u64],
    flags: &mut [u64],
    balances: &mut [u64],
    sublimits: &mut [u64],
    batches: &mut [u64],
    references: &mut [u64],
    bins: &mut [u64],
    sheet: &mut [u64],
) -> Start
    ensures { Cleared desk
        (lent_on codes.old flags.old balances.old sublimits.old
        batches.old references.old bins.old sheet.old)
        (record {
          answer = result.answer;
          desk = result.desk;
          tables =
              lent_on codes.new flags.new balances.new sublimits.new
              batches.new references.new bins.new sheet.new;
        }) }
{
    if !tables::house::lengths_right(codes, flags, balances, sublimits) {
        return Start {
            answer: Err(Refusal::BrokenTables),
            desk,
        };
    }
    if !rows_long(batches, references, bins, sheet) {
        return Start {
            answer: Err(Refusal::BrokenTables),
            desk,
        };
    }
    wipe_accounts(codes, flags, balances, sublimits);
    wipe_rows(batches, references, bins, sheet);
    let desk = no_day();
    Start {
        answer: Ok(()),
        desk,
    }
}

// The sheet: what is kept of each bank beside its account. It is worked out from the batches.
#![tactic(auto)]

ghost use Rattle.std.specs.Prelude.{◌≡◌, ◌<◌, length};
ghost use Rattle.chars.specs.Words.{Says};
ghost use Rattle.tables.specs.Rows.{batches_in};
ghost use Rattle.tables.specs.Words.{sheet_words, sheet_length};
ghost use Rattle.tables.specs.Lent.{Right};
ghost use Rattle.tables.specs.Moment.{lent_on};
ghost use Rattle.tables_rules.specs.batch_rules.BatchRules.{payments_in};
ghost use Rattle.tables_sheet.specs.Sheet.{Ruled, waiting_at, Readable, Addable, Added};

use settle::Batch;
use tables::Desk;

// The words of a sheet: one total for each bank.
pub const LENGTH: usize = 64;

// A batch waits from this phase on: 2 is pending, 3 queued.
const PENDING: u64 = 2;

// The words of a payment behind its bank's place. A credit has no letters.
const CENTS: usize = 1;

const LETTERS: usize = 2;

// Adds the debits of a row to the totals of their banks.
fn add_row(row: &[u64], sheet: &mut [u64])
    requires readable { Readable row.now }
    requires addable { Addable sheet.old (payments_in row.now) }
    ensures { Added sheet.old (payments_in row.now) sheet.new }
{
    let n = row[Batch::PAYMENTS_THERE] as usize;
    for i in 0..n {
        let at = Batch::PAYMENT + i * Batch::PAYMENT_WIDTH;
        if row[at + LETTERS] != 0 {
            let bank = row[at] as usize;
            sheet[bank] = sheet[bank] + row[at + CENTS];
        }
    }
}

// Adds the debits of a place, if its batch waits.
fn add_place(batches: &[u64], place: usize, sheet: &mut [u64])
    requires ruled { Ruled batches.now }
    requires place_bound { place < 32 }
    requires addable { Addable sheet.old (waiting_at (batches_in batches.now) place) }
    ensures { Added sheet.old (waiting_at (batches_in batches.now) place) sheet.new }
{
    let a = place * Batch::WIDTH;
    if batches[a + Batch::PHASE] < PENDING {
        return;
    }
    let e = a + Batch::WIDTH;
    add_row(&batches[a..e], sheet);
}

// The sheet of the batches, written.
pub fn fill(batches: &[u64], sheet: &mut [u64])
    requires ruled { Ruled batches.now }
    requires sheet_len { length sheet.old ≡ sheet_length }
    ensures { sheet.new ≡ sheet_words (batches_in batches.now) }
{
    tables::places::clear(sheet);
    for place in 0..Batch::LIVE {
        add_place(batches, place, sheet);
    }
}

// Whether a sheet is that of the batches.
fn right(batches: &[u64], sheet: &[u64]) -> bool
    requires { Ruled batches.now }
    ensures { Says (sheet.now ≡ sheet_words (batches_in batches.now)) result }
{
    let mut own = [0u64; LENGTH];
    fill(batches, &mut own);
    sheet == own.as_slice()
}

// "A lent table breaks the table rules", where this is false: those of tables_rules, and the sheet.
pub fn tables_right(
    desk: Desk,
    codes: &[u64],
    flags: &[u64],
    balances: &[u64],
    sublimits: &[u64],
    batches: &[u64],
    references: &[u64],
    bins: &[u64],
    sheet: &[u64],
) -> bool
    ensures { Says
        (Right desk (lent_on codes.now flags.now balances.now sublimits.now
        batches.now references.now bins.now sheet.now)) result }
{
    if !tables_rules::whole::tables_right(
        desk, codes, flags, balances, sublimits, batches, references, bins,
    ) {
        return false;
    }
    right(batches, sheet)
}

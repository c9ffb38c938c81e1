// The table rules of what is lent: each test is true exactly where its rule holds.
mod cross;
mod desk;
mod fresh;

ghost use Rattle.std.specs.Prelude.{ℕ};
ghost use Rattle.chars.specs.Words.{Says};
ghost use Rattle.tables.specs.Lent.{Right};
ghost use Rattle.tables.specs.Moment.{lent_with};
ghost use Rattle.tables_rules.specs.whole.TableRules.{ClosedTables};

use model::Phase;
use tables::Desk;

// "no live batch unless the day is open"
fn closed_right(
    desk: Desk,
    codes: &[u64],
    flags: &[u64],
    balances: &[u64],
    sublimits: &[u64],
    batches: &[u64],
    references: &[u64],
    bins: &[u64],
) -> bool
    ensures { Says (ClosedTables desk (lent_with codes.now flags.now balances.now sublimits.now batches.now references.now bins.now)) result }
{
    tables::house::zero(batches)
        && desk::day_right(
            desk, codes, flags, balances, sublimits, batches, references, bins,
        )
}

// "a lent table breaks the table rules", where this is false.
pub fn tables_right(
    desk: Desk,
    codes: &[u64],
    flags: &[u64],
    balances: &[u64],
    sublimits: &[u64],
    batches: &[u64],
    references: &[u64],
    bins: &[u64],
) -> bool
    ensures { Says (Right desk (lent_with codes.now flags.now balances.now sublimits.now batches.now references.now bins.now)) result }
{
    let phase = desk.phase;
    match phase {
        Phase::Fresh => {
            fresh::none_right(
                desk, codes, flags, balances, sublimits, batches, references, bins,
            )
        }
        Phase::Open => {
            desk::day_right(
                desk, codes, flags, balances, sublimits, batches, references, bins,
            )
        }
        Phase::Closed => {
            closed_right(
                desk, codes, flags, balances, sublimits, batches, references, bins,
            )
        }
    }
}

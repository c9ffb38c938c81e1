// The day's scalars and the house.
ghost use Rattle.std.specs.Prelude.{◌≡◌, ℕ, ◌+◌, ◌*◌, ◌<◌, ◌≤◌, length, drop};
ghost use Rattle.chars.specs.Words.{Says};
ghost use Rattle.tables.specs.House.{AllZero};
ghost use Rattle.tables.specs.Moment.{lent_with};
ghost use Rattle.tables_rules.specs.whole.TableRules.{DeskRules, DayTables};

use tables::Desk;

fn streams_past(row: &[u64], n: usize) -> bool
    requires { (length row.now ≡ 16) × (n ≤ 8) }
    ensures says { Says (AllZero (drop (2 * n) row.now)) result }
    ensures row_len { length row.now ≡ 16 }
{
    let a = 2 * n;
    let e = 16;
    tables::house::zero(&row[a..e])
}

#[tactic(auto, using(book_read::proofs::Filling::each_length))]
pub fn desk_right(
    desk: Desk,
    codes: &[u64],
    flags: &[u64],
    balances: &[u64],
    sublimits: &[u64],
) -> bool
    ensures { Says (DeskRules desk codes.now flags.now balances.now sublimits.now) result }
{
    let streams = desk.streams;
    tables::house::house_right(desk, codes, flags, balances, sublimits)
        && streams_past(&streams, desk.n)
        && desk.date < 36525
        && desk.clock < 86400
        && 1 <= desk.n
        && 1 <= desk.banks
}

// All rules of a day's tables.
pub fn day_right(
    desk: Desk,
    codes: &[u64],
    flags: &[u64],
    balances: &[u64],
    sublimits: &[u64],
    batches: &[u64],
    references: &[u64],
    bins: &[u64],
) -> bool
    ensures { Says
        (DayTables desk (lent_with codes.now flags.now balances.now sublimits.now
        batches.now references.now bins.now)) result }
{
    if !desk_right(desk, codes, flags, balances, sublimits) {
        return false;
    }
    if !crate::batches::batches_right(batches, desk.banks) {
        return false;
    }
    if !crate::entry_rules::known_right(references, bins, desk.date) {
        return false;
    }
    crate::whole::cross::cross_right(batches, references, bins, desk.date, desk.texts)
}

// "No day yet": every table and scalar is zero.
ghost use Rattle.std.specs.Prelude.{◌≡◌, ℕ, ◌+◌, ◌*◌, ◌<◌, ◌≤◌, length};
ghost use Rattle.chars.specs.Words.{Says};
ghost use Rattle.tables.specs.Moment.{lent_with};
ghost use Rattle.tables_rules.specs.whole.TableRules.{Blank, NoDay, NoAccounts, NoRows, NoTables};

use tables::Desk;

// So many words, all zero.
fn blank(row: &[u64], n: usize) -> bool
    ensures { Says (Blank n row.now) result }
{
    row.len() == n && tables::house::zero(row)
}

fn no_day(desk: Desk) -> bool
    ensures { Says (NoDay desk) result }
{
    let streams = desk.streams;
    desk.date == 0
        && desk.clock == 0
        && desk.texts == 0
        && desk.banks == 0
        && desk.n == 0
        && blank(&streams, 16)
}

fn no_accounts(codes: &[u64], flags: &[u64], balances: &[u64], sublimits: &[u64]) -> bool
    ensures { Says (NoAccounts codes.now flags.now balances.now sublimits.now) result }
{
    blank(codes, 64) && blank(flags, 64) && blank(balances, 64) && blank(sublimits, 64)
}

fn no_rows(batches: &[u64], references: &[u64], bins: &[u64]) -> bool
    ensures { Says (NoRows batches.now references.now bins.now) result }
{
    blank(batches, 11168) && blank(references, 6144) && blank(bins, 1536)
}

#[tactic(auto, using(crate::proofs::whole::Parts::blank_sheet))]
pub fn none_right(
    desk: Desk,
    codes: &[u64],
    flags: &[u64],
    balances: &[u64],
    sublimits: &[u64],
    batches: &[u64],
    references: &[u64],
    bins: &[u64],
) -> bool
    ensures { Says (NoTables desk (lent_with codes.now flags.now balances.now sublimits.now batches.now references.now bins.now)) result }
{
    no_day(desk)
        && no_accounts(codes, flags, balances, sublimits)
        && no_rows(batches, references, bins)
}

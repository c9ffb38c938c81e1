// One row.
ghost use Rattle.std.specs.Prelude.{◌≡◌, ℕ, ◌+◌, ◌*◌, ◌<◌, ◌≤◌, length};
ghost use Rattle.chars.specs.Words.{Says};
ghost use Rattle.book_read.specs.Range.{Each};
ghost use Rattle.settle.specs.Payments.{cents_of};
ghost use Rattle.tables.specs.Rows.{word};
ghost use Rattle.tables_rules.specs.batch_rules.BatchRules.{payments_in, RightTop, ZeroBehind, LiveRow, Whole, BuildingRow, PendingRow, QueuedRow, RowRight, Remembers};

use crate::batches::heads;
use crate::payments::money;
use codes::Code;
use settle::Batch;

fn top_right(row: &[u64]) -> bool
    requires { length row.now ≡ 349 }
    ensures { Says (RightTop row.now) result }
{
    let count = row[4];
    let there = row[7];
    let high = row[2];
    let low = row[3];
    1 <= count
        && count <= 10
        && row[5] <= 1440
        && 1 <= there
        && there <= count
        && text_names::quick::is_bin(Code { high, low })
}

// "every unused word zero"
fn behind_right(row: &[u64]) -> bool
    requires { (length row.now ≡ 349) × (word row.now 7 ≤ 10) × (word row.now 8 ≤ 100) }
    ensures { Says (ZeroBehind row.now) result }
{
    let a = 9 + 4 * (row[7] as usize);
    let e = Batch::PAYMENT;
    let b = 49 + 3 * (row[8] as usize);
    let z = Batch::WIDTH;
    tables::house::zero(&row[a..e]) && tables::house::zero(&row[b..z])
}

fn live_right(row: &[u64], banks: usize) -> bool
    requires { (length row.now ≡ 349) × (banks ≤ 64) }
    ensures { Says (LiveRow banks row.now) result }
{
    if !top_right(row) {
        return false;
    }
    if !heads::heads_right(row) {
        return false;
    }
    if !money::payments_right(row, banks) {
        return false;
    }
    behind_right(row)
}

// "credits equal debits" in a complete batch
fn whole_right(row: &[u64]) -> bool
    requires row_len { (length row.now ≡ 349) × (word row.now 8 ≤ 100) }
    requires each { Each (λ p. cents_of p ≤ 999999999999) (payments_in row.now) }
    ensures { Says (Whole row.now) result }
{
    row[7] == row[4] && money::even(row)
}

fn building_right(row: &[u64]) -> bool
    requires { length row.now ≡ 349 }
    ensures { Says (BuildingRow row.now) result }
{
    row[1] == 0 && row[6] == 0 && row[7] < row[4]
}

fn pending_right(row: &[u64]) -> bool
    requires row_len { (length row.now ≡ 349) × (word row.now 8 ≤ 100) }
    requires each { Each (λ p. cents_of p ≤ 999999999999) (payments_in row.now) }
    ensures { Says (PendingRow row.now) result }
{
    1 <= row[5] && row[6] == 0 && whole_right(row)
}

// The quick test's memory: none, or a bank with a debit.
fn memory_right(row: &[u64]) -> bool
    requires { (length row.now ≡ 349) × (word row.now 8 ≤ 100) }
    ensures { Says (Remembers (word row.now 6) (payments_in row.now)) result }
{
    let memory = row[6];
    memory == 0 || money::has_debit(row, memory - 1)
}

fn queued_right(row: &[u64]) -> bool
    requires row_len { (length row.now ≡ 349) × (word row.now 8 ≤ 100) }
    requires each { Each (λ p. cents_of p ≤ 999999999999) (payments_in row.now) }
    ensures { Says (QueuedRow row.now) result }
{
    whole_right(row) && memory_right(row)
}

// By the phase: 0 free, 1 assembling, 2 pending, 3 queued.
pub fn row_right(row: &[u64], banks: usize) -> bool
    requires { (length row.now ≡ 349) × (banks ≤ 64) }
    ensures { Says (RowRight banks row.now) result }
{
    let phase = row[0];
    if phase == 0 {
        return tables::house::zero(row);
    }
    if 3 < phase {
        return false;
    }
    if !live_right(row, banks) {
        return false;
    }
    if phase == 1 {
        return building_right(row);
    }
    if phase == 2 {
        return pending_right(row);
    }
    queued_right(row)
}

// The table rules of the batch places, tested row by row: each test is true exactly where its rule holds.
mod heads;
mod orders;
mod row;

ghost use Rattle.std.specs.Prelude.{◌≡◌, ℕ, ◌+◌, ◌*◌, ◌<◌, ◌≤◌, length};
ghost use Rattle.chars.specs.Words.{Says};
ghost use Rattle.book_read.specs.Range.{Each};
ghost use Rattle.tables.specs.Rows.{batch_rows};
ghost use Rattle.tables_rules.specs.batch_rules.BatchRules.{RowRight, BatchRules};

use settle::Batch;

fn rows_right(batches: &[u64], banks: usize) -> bool
    requires { (length batches.now ≡ 11168) × (banks ≤ 64) }
    ensures { Says (Each (RowRight banks) (batch_rows batches.now)) result }
{
    for place in 0..Batch::LIVE {
        let a = place * Batch::WIDTH;
        let e = a + Batch::WIDTH;
        if !row::row_right(&batches[a..e], banks) {
            return false;
        }
    }
    true
}

// All rules of the batch places, but for what their BINs and messages are in the other tables.
pub fn batches_right(batches: &[u64], banks: usize) -> bool
    requires { banks ≤ 64 }
    ensures { Says (BatchRules banks batches.now) result }
{
    batches.len() == Batch::LIVE * Batch::WIDTH
        && rows_right(batches, banks)
        && orders::ranks_right(batches, 2)
        && orders::ranks_right(batches, 3)
}

// "order without gap or repeat": the ranks of the pending and of the queue.
ghost use Rattle.std.specs.Prelude.{◌≡◌, ℕ, ◌+◌, ◌*◌, ◌<◌, ◌≤◌, true, length};
ghost use Rattle.chars.specs.Words.{Says};
ghost use Rattle.tables.specs.Rows.{how_many, batch_rows};
ghost use Rattle.tables_rules.specs.batch_rules.BatchRules.{Ranked};
ghost use Rattle.tables_rules.specs.payments.Marks.{Marked};

use crate::payments::marks;
use settle::Batch;

// How many rows are in a phase.
fn how_many(batches: &[u64], phase: u64) -> usize
    requires { length batches.now ≡ 11168 }
    ensures { (result ≡ how_many phase (batch_rows batches.now)) × (result ≤ 32) }
{
    let mut n: usize = 0;
    for place in 0..Batch::LIVE {
        if batches[place * Batch::WIDTH + Batch::PHASE] != phase {
            continue;
        }
        n += 1;
    }
    n
}

pub fn ranks_right(batches: &[u64], phase: u64) -> bool
    requires { length batches.now ≡ 11168 }
    ensures { Says (Ranked phase (batch_rows batches.now)) result }
{
    let n = how_many(batches, phase);
    let mut seen = [0u64; 32];
    for place in 0..Batch::LIVE {
        if batches[place * Batch::WIDTH + Batch::PHASE] != phase {
            continue;
        }
        let rank = batches[place * Batch::WIDTH + Batch::RANK];
        if !marks::mark(&mut seen, n, rank) {
            return false;
        }
    }
    true
}

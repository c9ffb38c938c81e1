// Batch places: rows of 349 words in one flat table. A function that works on one place is lent its row.
ghost use Rattle.std.specs.Prelude.{◌≡◌, map, ℕ, ◌+◌, ◌*◌, ◌≤◌, ◌<◌, length, set, take, drop, replicate};
ghost use Rattle.model.specs.State.{seek, is_free, has_bin};
ghost use Rattle.tables.specs.Rows.{place_in, batch_rows};
ghost use Rattle.tables.specs.Seeking.{found_by};

use codes::Code;
use settle::Batch;

// Zeroes a row.
pub fn clear(row: &mut [u64])
    ensures { row.new ≡ replicate (length row.old) 0 }
{
    row.fill(0);
}

// "an ended batch's place is zeroed": no other row is changed.
pub fn end_batch(batches: &mut [u64], place: usize)
    requires { (place < 32) × (length batches.old ≡ 11168) }
    ensures { batch_rows batches.new ≡ set (batch_rows batches.old) place (replicate 349 0) }
{
    let a = place * Batch::WIDTH;
    let e = a + Batch::WIDTH;
    clear(&mut batches[a..e]);
}

// "A new entry takes the lowest free place": a place whose phase is 0.
pub fn lowest_free(batches: &[u64]) -> Option<usize>
    requires { length batches.now ≡ 11168 }
    ensures { found_by result ≡ seek is_free (map place_in (batch_rows batches.now)) }
{
    for place in 0..Batch::LIVE {
        if batches[place * Batch::WIDTH + Batch::PHASE] == 0 {
            return Some(place);
        }
    }
    None
}

// Whether a place has a live batch of the BIN.
#[tactic(auto, using(crate::proofs::RowLaws::row_word), unfolding(crate::specs::Rows::place_in, crate::specs::Rows::batch_in))]
fn has_bin(batches: &[u64], place: usize, bin: Code) -> bool
    requires { (place < 32) × (length batches.now ≡ 11168) }
    ensures { result ≡ has_bin bin (place_in (take 349 (drop (place * 349) batches.now))) }
{
    let row = place * Batch::WIDTH;
    batches[row + Batch::PHASE] != 0
        && batches[row + Batch::BIN] == bin.high
        && batches[row + (Batch::BIN + 1)] == bin.low
}

// The place of the BIN's live batch.
pub fn batch_of(batches: &[u64], bin: Code) -> Option<usize>
    requires { length batches.now ≡ 11168 }
    ensures { found_by result ≡ seek (has_bin bin) (map place_in (batch_rows batches.now)) }
{
    for place in 0..Batch::LIVE {
        if has_bin(batches, place, bin) {
            return Some(place);
        }
    }
    None
}

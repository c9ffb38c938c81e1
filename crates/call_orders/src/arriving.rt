// A message comes into its batch's row.
ghost use Rattle.std.specs.Prelude.{◌≡◌, [], ℕ, ◌+◌, ◌*◌, ◌≤◌, ◌<◌, length, get_or, set, take, replicate};
ghost use Rattle.std.proofs.lemmas.List.Edits.{sets};
ghost use Rattle.tables.specs.Rows.{batch_rows};
ghost use Rattle.call_orders.specs.Arriving.{Roomy, message_of, row_with, new_row};

use codes::Code;
use settle::Batch;

// The first n words, from a place of the row on.
fn copy(row: &mut [u64], at: usize, words: &[u64], n: usize)
    requires { (at + n ≤ length row.old) × (n ≤ length words.now) }
    ensures { row.new ≡ sets row.old at (take n words.now) }
{
    row[at..at + n].copy_from_slice(&words[..n]);
}

// The payments are n triples of words: bank, cents, letters.
pub fn arrive(row: &mut [u64], reference: Code, number: u64, words: &[u64], n: usize)
    requires { Roomy row.old n × (3 * n ≤ length words.now) }
    ensures { row.new ≡ row_with row.old (message_of reference number words.now n) }
{
    let messages = row[7];
    let payments = row[8];
    let behind = 49 + 3 * (payments as usize);
    copy(row, behind, words, 3 * n);
    let at = 9 + 4 * (messages as usize);
    row[at] = reference.high;
    row[at + 1] = reference.low;
    row[at + 2] = number;
    row[at + 3] = n as u64;
    row[7] = messages + 1;
    row[8] = payments + n as u64;
}

// A new batch, as yet without a message, in a free row. The activation is a word: 0 none, else the minute and 1.
pub fn begin(row: &mut [u64], bin: Code, count: u64, activation: u64)
    requires { row.old ≡ replicate 349 0 }
    ensures { row.new ≡ new_row bin count activation }
{
    row[0] = 1;
    row[2] = bin.high;
    row[3] = bin.low;
    row[4] = count;
    row[5] = activation;
}

// A new batch at a free place: no other row is changed.
pub fn begin_at(batches: &mut [u64], place: usize, bin: Code, count: u64, activation: u64)
    requires { (place < 32) × (length batches.old ≡ 11168) × (get_or (batch_rows batches.old) place [] ≡ replicate 349 0) }
    ensures { batch_rows batches.new ≡ set (batch_rows batches.old) place (new_row bin count activation) }
{
    let a = place * Batch::WIDTH;
    let e = a + Batch::WIDTH;
    begin(&mut batches[a..e], bin, count, activation);
}

// A message comes into the batch at a place: no other row is changed.
pub fn arrive_at(
    batches: &mut [u64],
    place: usize,
    reference: Code,
    number: u64,
    words: &[u64],
    n: usize,
)
    requires place_bound { (place < 32) × (length batches.old ≡ 11168) }
    requires roomy { Roomy (get_or (batch_rows batches.old) place []) n × (3 * n ≤ length words.now) }
    ensures { batch_rows batches.new ≡ set (batch_rows batches.old) place (row_with (get_or (batch_rows batches.old) place []) (message_of reference number words.now n)) }
{
    let a = place * Batch::WIDTH;
    let e = a + Batch::WIDTH;
    arrive(&mut batches[a..e], reference, number, words, n);
}

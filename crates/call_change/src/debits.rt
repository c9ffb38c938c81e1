// The debit that a status change names, and its letter.
ghost use Rattle.std.specs.Prelude.{◌≡◌, [], ◌≤◌, ◌<◌, length, get_or, set};
ghost use Rattle.chars.specs.Words.{bytes, member};
ghost use Rattle.tables.specs.Rows.{word, batch_rows};
ghost use Rattle.tables.specs.Seeking.{found_by};
ghost use Rattle.call_orders.specs.Stages.{seen, Ready};
ghost use Rattle.call_orders.specs.Lettering.{reletter_from};
ghost use Rattle.call_change.specs.Changing.{AllCounted, debit_on};

use call_plan::plan::finding;
use codes::Code;
use settle::Batch;

// A space, which a text may have for A, is no letter to change to.
pub fn is_esa(letter: u64) -> bool
    ensures { result ≡ member letter (bytes "ADP") }
{
    matches!(letter, 65 | 68 | 80)
}

// The place of the batch in which it waits.
pub fn waiting_debit(
    batches: &[u64],
    queue: &[u64],
    nq: usize,
    pending: &[u64],
    nw: usize,
    bank: usize,
    bin: Code,
) -> Option<usize>
    requires { Ready batches.now queue.now nq pending.now nw × AllCounted batches.now }
    ensures { found_by result ≡ debit_on (seen batches.now queue.now nq pending.now nw) bank bin }
{
    let place = finding::waiting(batches, queue, nq, pending, nw, bin)?;
    let a = place * Batch::WIDTH;
    let e = a + Batch::WIDTH;
    if tables_rules::payments::money::has_debit(&batches[a..e], bank as u64) {
        return Some(place);
    }
    None
}

// The letter is changed in the row of a place: no other row is changed.
pub fn reletter_at(batches: &mut [u64], place: usize, bank: u64, letter: u64)
    requires { (place < 32) × (length batches.old ≡ 11168) × (word (get_or (batch_rows batches.old) place []) 8 ≤ 100) × (letter < 256) }
    ensures { batch_rows batches.new ≡ set (batch_rows batches.old) place (reletter_from bank letter (get_or (batch_rows batches.old) place []) 49 (word (get_or (batch_rows batches.old) place []) 8)) }
{
    let a = place * Batch::WIDTH;
    let e = a + Batch::WIDTH;
    let n = batches[a + Batch::PAYMENTS_THERE] as usize;
    call_orders::lettering::reletter(&mut batches[a..e], n, bank, letter);
}

// The live batch of a BIN, and whether it waits.
// Kept: slices with their lengths beside them, since `call_change` calls `waiting` with them, and docs/ARCHITECTURE.md names `assembling`.
ghost use Rattle.std.specs.Prelude.{◌≡◌, [], ℕ, ◌≤◌, ◌<◌, length, take};
ghost use Rattle.model.specs.Messages.{waits, assembling, waiting};
ghost use Rattle.tables.specs.Seeking.{found_by};
ghost use Rattle.call_orders.specs.Heads.{view};
ghost use Rattle.call_orders.specs.Stages.{seen};

use call_orders::orders;
use codes::Code;

// Whether a place is pending or queued.
fn waits(queue: &[u64], nq: usize, pending: &[u64], nw: usize, place: usize) -> bool
    requires { (nq ≤ length queue.now) × (nw ≤ length pending.now) }
    ensures { result ≡ waits (view [] (take nq queue.now) (take nw pending.now)) place }
{
    let p = place as u64;
    orders::position(pending, nw, p).is_some() || orders::position(queue, nq, p).is_some()
}

// "BIN is being assembled": its batch is live, and neither pending nor queued.
#[tactic(auto, unfolding(model::specs::Messages::assembling))]
pub fn assembling(
    batches: &[u64],
    queue: &[u64],
    nq: usize,
    pending: &[u64],
    nw: usize,
    bin: Code,
) -> Option<usize>
    requires { (length batches.now ≡ 11168) × (nq ≤ length queue.now) × (nw ≤ length pending.now) }
    ensures { found_by result ≡ assembling (seen batches.now queue.now nq pending.now nw) bin }
{
    let p = tables::places::batch_of(batches, bin)?;
    if waits(queue, nq, pending, nw, p) {
        None
    } else {
        Some(p)
    }
}

// "a pending or queued batch"
#[tactic(auto, unfolding(model::specs::Messages::waiting))]
pub fn waiting(
    batches: &[u64],
    queue: &[u64],
    nq: usize,
    pending: &[u64],
    nw: usize,
    bin: Code,
) -> Option<usize>
    requires { (length batches.now ≡ 11168) × (nq ≤ length queue.now) × (nw ≤ length pending.now) }
    ensures { found_by result ≡ waiting (seen batches.now queue.now nq pending.now nw) bin }
{
    let p = tables::places::batch_of(batches, bin)?;
    if waits(queue, nq, pending, nw, p) {
        Some(p)
    } else {
        None
    }
}

// The stages of a call that change the batch table. Orders and memory are loaded into rows beside the table, changed there, and stored at the call's end.
#![tactic(auto)]

pub mod arriving;
pub mod heads;
pub mod joining;
pub mod lettering;
pub mod orders;
pub mod settled;

ghost use Rattle.std.specs.Prelude.{◌≡◌, ℕ, ◌+◌, ◌≤◌, ◌<◌, length};
ghost use Rattle.model.specs.Messages.{ended};
ghost use Rattle.model.specs.Joining.{join};
ghost use Rattle.tables.specs.Rows.{batches_in};
ghost use Rattle.call_orders.specs.Heads.{NeatTable};
ghost use Rattle.call_orders.specs.Stages.{seen, Ready, Became, due_at, tailed};

// How many are queued, and how many are pending.
#[derive(Clone, Copy)]
pub struct Counts {
    pub queued: usize,
    pub pending: usize,
}

// The orders that the table says.
pub fn load(batches: &[u64], queue: &mut [u64], pending: &mut [u64]) -> Counts
    requires { NeatTable batches.now × (32 ≤ length queue.old) × (32 ≤ length pending.old) }
    ensures became { Became (batches_in batches.now) batches.now queue.new result.queued pending.new result.pending }
    ensures queued_bound { (result.queued ≤ 32) × (result.pending ≤ 32) }
{
    let nq = heads::load_order(batches, 3, queue);
    let nw = heads::load_order(batches, 2, pending);
    Counts {
        queued: nq,
        pending: nw,
    }
}

// "an ended batch's place is zeroed", and it leaves its order.
pub fn end_batch(
    batches: &mut [u64],
    queue: &mut [u64],
    nq: usize,
    pending: &mut [u64],
    nw: usize,
    place: usize,
) -> Counts
    requires ready { Ready batches.old queue.old nq pending.old nw }
    requires place_bound { place < 32 }
    ensures { Became (ended (seen batches.old queue.old nq pending.old nw) place) batches.new queue.new result.queued pending.new result.pending }
{
    let left = orders::remove(queue, nq, place as u64);
    let waits = orders::remove(pending, nw, place as u64);
    tables::places::end_batch(batches, place);
    Counts {
        queued: left,
        pending: waits,
    }
}

// "pending if its activation minute has not begun, or the queue's tail"
pub fn to_tail(
    batches: &[u64],
    queue: &mut [u64],
    nq: usize,
    pending: &mut [u64],
    nw: usize,
    place: usize,
    clock: u64,
) -> Counts
    requires ready { Ready batches.now queue.old nq pending.old nw }
    requires nq_in_bounds { (nq < length queue.old) × (nw < length pending.old) }
    ensures { Became (tailed (due_at batches.now clock place) (seen batches.now queue.old nq pending.old nw) place) batches.now queue.new result.queued pending.new result.pending }
{
    if joining::is_due(batches, place as u64, clock) {
        orders::push(queue, nq, place as u64);
        return Counts {
            queued: nq + 1,
            pending: nw,
        };
    }
    orders::push(pending, nw, place as u64);
    Counts {
        queued: nq,
        pending: nw + 1,
    }
}

// "(b) pending batches whose minute has begun join the queue's tail, by activation time and then by completion"
pub fn join(
    batches: &[u64],
    queue: &mut [u64],
    nq: usize,
    pending: &mut [u64],
    nw: usize,
    clock: u64,
) -> Counts
    requires ready { Ready batches.now queue.old nq pending.old nw }
    requires nw_in_bounds { nq + nw ≤ length queue.old }
    ensures became { Became (join clock (seen batches.now queue.old nq pending.old nw)) batches.now queue.new result.queued pending.new result.pending }
    ensures pending_le_nw { result.pending ≤ nw }
{
    let n = joining::insert_due(batches, queue, nq, pending, nw, clock);
    let k = joining::keep_early(batches, pending, nw, clock);
    Counts {
        queued: n,
        pending: k,
    }
}

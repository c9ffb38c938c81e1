// How a call begins and how a day ends, on the rows.
ghost use Rattle.std.specs.Prelude.{◌≡◌, ℕ, ◌*◌, ◌≤◌, length, replicate};
ghost use Rattle.model.specs.Ending.{close_replies};
ghost use Rattle.model.specs.Joining.{join};
ghost use Rattle.tables.specs.Rows.{batches_in, memory_in, entries_in};
ghost use Rattle.call_orders.specs.Heads.{NeatTable};
ghost use Rattle.call_orders.specs.Stages.{Became};
ghost use Rattle.call_texts.specs.Writing.{Wrote, Room, Legible, batches_on};

use call_orders::{Counts, heads};
use call_texts::Progress;

// Orders and memory are loaded; "(b) pending batches whose minute has begun join the queue's tail".
pub fn begin(
    batches: &[u64],
    queue: &mut [u64],
    pending: &mut [u64],
    memory: &mut [u64],
    clock: u64,
) -> Counts
    requires { NeatTable batches.now × (64 ≤ length queue.old) × (32 ≤ length pending.old) × (length memory.old ≡ 32) }
    ensures became { Became (join clock (batches_in batches.now)) batches.now queue.new result.queued pending.new result.pending }
    ensures memory_after { (memory.new ≡ memory_in batches.now) × (result.pending ≤ 32) }
{
    heads::load_memory(batches, memory);
    let found = call_orders::load(batches, queue, pending);
    call_orders::join(batches, queue, found.queued, pending, found.pending, clock)
}

// "ends each live batch with 86": all that live are answered, and no place is left.
pub fn close(
    batches: &mut [u64],
    bins: &[u64],
    today: u64,
    texts: u64,
    out: &mut [u8],
    at: usize,
) -> Progress
    requires legible { Legible batches.old × (512 * 3 ≤ length bins.now) }
    requires room { Room out.old at texts (close_replies today (batches_on batches.old) (entries_in 512 bins.now)) }
    ensures wrote { Wrote out.old at texts (close_replies today (batches_on batches.old) (entries_in 512 bins.now)) out.new result.at result.texts }
    ensures batches_after { batches.new ≡ replicate (length batches.old) 0 }
{
    let told = call_texts::answer_close(batches, bins, today, texts, out, at);
    tables::places::clear(batches);
    told
}

// Step 6: "When all numbers are there: 01, or pending if its activation minute has not begun, or the queue's tail."
ghost use Rattle.std.specs.Prelude.{◌≡◌, ℕ, ◌≤◌, ◌<◌, length};
ghost use Rattle.model.specs.State.{Known, State};
ghost use Rattle.model.specs.Messages.{completed};
ghost use Rattle.request_read.specs.declared.whole.Reading.{Reading};
ghost use Rattle.call_orders.specs.Stages.{seen};
ghost use Rattle.call_message.specs.outcome.Doing.{InRows, Completable, batch_at};

use crate::outcome::{Acted, ending};
use chars::Refusal;
use settle::Batch;

// A batch that has just taken a message.
pub fn complete(
    clock: u64,
    batches: &mut [u64],
    queue: &mut [u64],
    nq: usize,
    pending: &mut [u64],
    nw: usize,
    memory: &mut [u64],
    place: usize,
    texts: u64,
    out: &mut [u8],
) -> Acted
    requires { Completable batches.old queue.old nq pending.old nw place out.old texts }
    ensures { (s : State) (g : Reading) (k : Known) → s.day.clock ≡ clock → InRows (completed s g (seen batches.old queue.old nq pending.old nw) k place (batch_at batches.old place)) memory.old out.old 0 texts result.answer batches.new queue.new result.queued pending.new result.pending memory.new out.new result.at result.texts }
{
    let a = place * Batch::WIDTH;
    let e = a + Batch::WIDTH;
    if batches[a + Batch::MESSAGES_THERE] != batches[a + Batch::COUNT] {
        queue::wake_batch(memory, place);
        return Acted {
            answer: Ok(()),
            queued: nq,
            pending: nw,
            at: 0,
            texts,
        };
    }
    if !tables_rules::payments::money::even(&batches[a..e]) {
        return ending::end_with(
            Refusal::Unequal,
            Err(Refusal::Unequal),
            batches,
            queue,
            nq,
            pending,
            nw,
            memory,
            place,
            texts,
            out,
            0,
        );
    }
    let tail = call_orders::to_tail(batches, queue, nq, pending, nw, place, clock);
    queue::wake_batch(memory, place);
    Acted {
        answer: Ok(()),
        queued: tail.queued,
        pending: tail.pending,
        at: 0,
        texts,
    }
}

// What becomes of a message, on the batches' rows: steps 5 and 6, and recalls.
mod answering;
mod completing;
mod ending;
mod taking;

ghost use Rattle.std.specs.Prelude.{◌≡◌, ℕ, ◌≤◌, ◌<◌, length};
ghost use Rattle.settle.specs.Settlement.{Accounts};
ghost use Rattle.model.specs.State.{Known};
ghost use Rattle.call_orders.specs.Stages.{seen};
ghost use Rattle.call_message.specs.outcome.Acting.{acted_with};
ghost use Rattle.call_message.specs.outcome.Doing.{state_on, InRows, Actable, Apt};

use call_plan::plan::Plan;
use chars::Refusal;
use request_read::whole::Reading;
use tables::Desk;

// What an action has left: its answer, how many wait, the place reached in the buffer and the texts of the day.
#[derive(Clone, Copy)]
pub struct Acted {
    pub answer: Result<(), Refusal>,
    pub queued: usize,
    pub pending: usize,
    pub at: usize,
    pub texts: u64,
}

// The plan that was chosen for a message, carried out. The desk's clock is the call's.
pub fn perform(
    plan: Plan,
    desk: Desk,
    codes: &[u64],
    flags: &[u64],
    r: Reading,
    batches: &mut [u64],
    queue: &mut [u64],
    nq: usize,
    pending: &mut [u64],
    nw: usize,
    memory: &mut [u64],
    out: &mut [u8],
) -> Acted
    requires actable { Actable desk codes.now flags.now batches.old queue.old nq pending.old nw out.old }
    requires apt { Apt (seen batches.old queue.old nq pending.old nw) r plan }
    ensures { (n : Accounts) (o k : Known) → InRows (acted_with (state_on desk codes.now flags.now (seen batches.old queue.old nq pending.old nw) n o) r k plan) memory.old out.old 0 desk.texts result.answer batches.new queue.new result.queued pending.new result.pending memory.new out.new result.at result.texts }
{
    let head = r.head;
    match plan {
        Plan::Untouched(f) => Acted {
            answer: Err(f),
            queued: nq,
            pending: nw,
            at: 0,
            texts: desk.texts,
        },
        Plan::Rejects(p, f) => answering::reject(
            f, batches, queue, nq, pending, nw, memory, p, desk.texts, out,
        ),
        Plan::Alone(q) => answering::refuse_alone(head, nq, nw, desk.texts, out),
        Plan::Comes(p, i, q) => taking::admit(
            desk, codes, flags, i, r, batches, queue, nq, pending, nw, memory, p, out,
        ),
        Plan::Begins(p, i, q, k) => taking::begin(
            desk, codes, flags, i, r, batches, queue, nq, pending, nw, memory, p, out,
        ),
        Plan::RecallsNone(q) => answering::recall_none(head, nq, nw, desk.texts, out),
        Plan::Recalls(p, q) => answering::recall(
            head, batches, queue, nq, pending, nw, memory, p, desk.texts, out,
        ),
    }
}

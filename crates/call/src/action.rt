// (c) and (d): the action, and the queue test behind it.
mod acts;

ghost use Rattle.std.specs.Prelude.{ℕ};
ghost use Rattle.call.specs.action.Working.{middle, acted_in, tested_in, Workable, Worked};

use chars::Refusal;
use model::Action;
use tables::Desk;

// What both have left: the answer, how many wait, the tries, the place reached in the buffer and the texts of the day.
#[derive(Clone, Copy)]
pub struct Report {
    pub answer: Result<(), Refusal>,
    pub queued: usize,
    pub pending: usize,
    pub tried: usize,
    pub at: usize,
    pub texts: u64,
}

// The desk's clock is the call's.
pub fn work(
    quick: bool,
    action: Action,
    desk: Desk,
    input: &[u8],
    codes: &[u64],
    flags: &[u64],
    balances: &mut [u64],
    sublimits: &mut [u64],
    batches: &mut [u64],
    references: &mut [u64],
    bins: &mut [u64],
    queue: &mut [u64],
    nq: usize,
    pending: &mut [u64],
    nw: usize,
    memory: &mut [u64],
    out: &mut [u8],
    tries: &mut [u64],
) -> Report
    requires { Workable quick desk action input.now codes.now flags.now balances.old sublimits.old batches.old queue.old nq pending.old nw references.old bins.old memory.old out.old tries.old }
    ensures { Worked (middle desk codes.now flags.now balances.old sublimits.old batches.old queue.old nq pending.old nw references.old bins.old) (acted_in desk action input.now codes.now flags.now balances.old sublimits.old batches.old queue.old nq pending.old nw references.old bins.old) (tested_in quick desk action input.now codes.now flags.now balances.old sublimits.old batches.old queue.old nq pending.old nw references.old bins.old memory.old) out.old tries.old desk.texts result.answer balances.new sublimits.new batches.new queue.new result.queued pending.new result.pending references.new bins.new memory.new out.new result.at result.texts tries.new result.tried }
{
    let acted = acts::act(
        action, desk, input, codes, flags, sublimits, batches, references, bins, queue, nq,
        pending, nw, memory, out,
    );
    let tested = crate::queue_test::test(
        quick,
        desk.date,
        desk.clock,
        balances,
        sublimits,
        batches,
        memory,
        queue,
        acted.queued,
        tries,
        acted.texts,
        out,
        acted.at,
    );
    Report {
        answer: acted.answer,
        queued: tested.waiting,
        pending: acted.pending,
        tried: tested.tried,
        at: tested.at,
        texts: tested.texts,
    }
}

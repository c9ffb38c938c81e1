// A call on a day that is open: (a) to (d), and the close.
mod edges;

ghost use Rattle.std.specs.Prelude.{◌≡◌, ℕ, length};
ghost use Rattle.model.specs.Kinds.{is_close};
ghost use Rattle.model.specs.Calls.{stepped};
ghost use Rattle.tables.specs.Moment.{call_for, lent_with};
ghost use Rattle.tables.specs.Rows.{engine_in};
ghost use Rattle.tables.specs.Lent.{left_by};
ghost use Rattle.call.specs.step.Stepping.{Steppable, lent_as, left_as, desk_after};

use call_orders::heads;
use chars::Refusal;
use model::{Action, Phase};
use tables::Desk;

// What a call tells: its answer, how much of buffer and row it has written, and the desk that it leaves.
#[derive(Clone, Copy)]
pub struct Told {
    pub answer: Result<(), Refusal>,
    pub written: usize,
    pub tried: usize,
    pub desk: Desk,
}

fn is_close(action: Action) -> bool
    ensures { result ≡ is_close action }
{
    matches!(action, Action::Close)
}

// The desk after a call's texts.
fn desk_after(desk: Desk, phase: Phase, texts: u64) -> Desk
    ensures { result ≡ desk_after phase texts desk }
{
    let streams = desk.streams;
    Desk {
        phase,
        date: desk.date,
        clock: desk.clock,
        texts,
        banks: desk.banks,
        streams,
        n: desk.n,
    }
}

// (a) to (d) on an open day; at the close the day ends behind them.
pub fn step(
    quick: bool,
    clock: u64,
    action: Action,
    input: &[u8],
    desk: Desk,
    codes: &[u64],
    flags: &[u64],
    balances: &mut [u64],
    sublimits: &mut [u64],
    batches: &mut [u64],
    references: &mut [u64],
    bins: &mut [u64],
    out: &mut [u8],
    tries: &mut [u64],
) -> Told
    requires { Steppable desk (lent_with codes.now flags.now balances.old sublimits.old batches.old references.old bins.old) clock action out.old tries.old }
    ensures { left_as result.answer result.written result.tried result.desk (lent_with codes.now flags.now balances.new sublimits.new batches.new references.new bins.new) out.new tries.new ≡ left_by (lent_as desk (lent_with codes.now flags.now balances.old sublimits.old batches.old references.old bins.old) out.old tries.old) (stepped (engine_in desk (lent_with codes.now flags.now balances.old sublimits.old batches.old references.old bins.old)) (call_for quick clock action input.now (length out.old) (length tries.old))) }
{
    let mut queue = [0u64; 64];
    let mut pending = [0u64; 64];
    let mut memory = [0u64; 32];
    let moved = tables::moment::moved(desk, clock);
    let found = edges::begin(batches, &mut queue, &mut pending, &mut memory, clock);
    let done = crate::action::work(
        quick,
        action,
        moved,
        input,
        codes,
        flags,
        balances,
        sublimits,
        batches,
        references,
        bins,
        &mut queue,
        found.queued,
        &mut pending,
        found.pending,
        &mut memory,
        out,
        tries,
    );
    if is_close(action) {
        let last = edges::close(batches, bins, desk.date, done.texts, out, done.at);
        let left = desk_after(moved, Phase::Closed, last.texts);
        return Told {
            answer: done.answer,
            written: last.at,
            tried: done.tried,
            desk: left,
        };
    }
    heads::store(
        batches,
        &queue,
        done.queued,
        &pending,
        done.pending,
        &memory,
    );
    let left = desk_after(moved, desk.phase, done.texts);
    Told {
        answer: done.answer,
        written: done.at,
        tried: done.tried,
        desk: left,
    }
}

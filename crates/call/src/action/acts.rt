// (c) the call's own action.
ghost use Rattle.std.specs.Prelude.{◌≡◌, List, ℕ, ◌≤◌, length};
ghost use Rattle.call_message.specs.outcome.Doing.{Actable};
ghost use Rattle.call.specs.action.Working.{acted_in, Carried};

use call_message::outcome::Acted;
use chars::Refusal;
use model::Action;
use tables::Desk;

// An action that writes nothing and moves no batch.
fn quiet(answer: Result<(), Refusal>, nq: usize, nw: usize, texts: u64) -> Acted
    ensures { (result.answer ≡ answer) × (result.queued ≡ nq) × (result.pending ≡ nw) × (result.at ≡ 0) × (result.texts ≡ texts) }
{
    Acted {
        answer,
        queued: nq,
        pending: nw,
        at: 0,
        texts,
    }
}

pub fn act(
    action: Action,
    desk: Desk,
    input: &[u8],
    codes: &[u64],
    flags: &[u64],
    sublimits: &mut [u64],
    batches: &mut [u64],
    references: &mut [u64],
    bins: &mut [u64],
    queue: &mut [u64],
    nq: usize,
    pending: &mut [u64],
    nw: usize,
    memory: &mut [u64],
    out: &mut [u8],
) -> Acted
    requires actable { Actable desk codes.now flags.now batches.old queue.old nq pending.old nw out.old }
    requires n_bound { (desk.n ≤ 8) × (length sublimits.old ≡ 64) × (length references.old ≡ 6144) × (length bins.old ≡ 1536) }
    ensures { (balances : List ℕ) → Carried (acted_in desk action input.now codes.now flags.now balances sublimits.old batches.old queue.old nq pending.old nw references.old bins.old) balances memory.old out.old desk.texts result.answer sublimits.new batches.new queue.new result.queued pending.new result.pending memory.new out.new result.at result.texts references.new bins.new }
{
    match action {
        Action::Message(sender) => call_message::receive::receive(
            desk, sender, input, codes, flags, batches, references, bins, queue, nq, pending, nw,
            memory, out,
        ),
        Action::SubLimit(code, cents) => {
            let answer = call_change::sub_limit(codes, desk.banks, sublimits, memory, code, cents);
            quiet(answer, nq, nw, desk.texts)
        }
        Action::Status(code, bin, letter) => {
            let answer = call_change::status(
                codes, desk.banks, batches, queue, nq, pending, nw, memory, code, bin, letter,
            );
            quiet(answer, nq, nw, desk.texts)
        }
        Action::Opening => quiet(Ok(()), nq, nw, desk.texts),
        Action::Tick => quiet(Ok(()), nq, nw, desk.texts),
        Action::Close => quiet(Ok(()), nq, nw, desk.texts),
        Action::ClosingBook(_) => quiet(Ok(()), nq, nw, desk.texts),
    }
}

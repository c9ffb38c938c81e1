// A message's action: it is read, a plan is chosen for it, what is to be noted is noted, and the plan is carried out.
ghost use Rattle.std.specs.Prelude.{◌≡◌, ◌≤◌, length};
ghost use Rattle.request_read.specs.whole.Request.{request_at};
ghost use Rattle.settle.specs.Settlement.{Accounts};
ghost use Rattle.model.specs.Messages.{message};
ghost use Rattle.call_orders.specs.Stages.{seen};
ghost use Rattle.call_message.specs.outcome.Acting.{known_by};
ghost use Rattle.call_message.specs.outcome.Doing.{state_on, Actable};
ghost use Rattle.call_message.specs.receive.Messaging.{known_in, Within, Noted, Received};

use crate::outcome::Acted;
use call_plan::plan::Plan;
use codes::Code;
use tables::Desk;

// "the reference is noted", "A new BIN is noted"
fn note_plan(
    plan: Plan,
    reference: Code,
    bin: Code,
    today: u64,
    references: &mut [u64],
    bins: &mut [u64],
)
    requires { (length references.old ≡ 6144) × (length bins.old ≡ 1536) × Within plan }
    ensures { Noted (known_by today reference bin plan (known_in references.old bins.old)) references.new bins.new }
{
    match plan {
        Plan::Untouched(_) => {}
        Plan::Rejects(_, _) => {}
        Plan::Alone(q) => call_plan::entries::note(references, q, today, reference),
        Plan::Comes(_, _, q) => call_plan::entries::note(references, q, today, reference),
        Plan::Begins(_, _, q, k) => {
            call_plan::entries::note(references, q, today, reference);
            call_plan::entries::note(bins, k, today, bin);
        }
        Plan::RecallsNone(q) => call_plan::entries::note(references, q, today, reference),
        Plan::Recalls(_, q) => call_plan::entries::note(references, q, today, reference),
    }
}

// A text from a sender. The desk's clock is the call's.
pub fn receive(
    desk: Desk,
    sender: u64,
    text: &[u8],
    codes: &[u64],
    flags: &[u64],
    batches: &mut [u64],
    references: &mut [u64],
    bins: &mut [u64],
    queue: &mut [u64],
    nq: usize,
    pending: &mut [u64],
    nw: usize,
    memory: &mut [u64],
    out: &mut [u8],
) -> Acted
    requires actable { Actable desk codes.now flags.now batches.old queue.old nq pending.old nw out.old }
    requires n_bound { (desk.n ≤ 8) × (length references.old ≡ 6144) × (length bins.old ≡ 1536) }
    ensures { (n : Accounts) → Received (message (state_on desk codes.now flags.now (seen batches.old queue.old nq pending.old nw) n (known_in references.old bins.old)) sender (request_at text.now)) memory.old out.old desk.texts result.answer batches.new queue.new result.queued pending.new result.pending memory.new out.new result.at result.texts references.new bins.new }
{
    let r = request_read::whole::read_request(text);
    let head = r.head;
    let plan = call_plan::plan::choose(
        desk, sender, r.outcome, head, batches, queue, nq, pending, nw, references, bins,
    );
    let reference = head.reference.code;
    let bin = head.address.bin.code;
    note_plan(plan, reference, bin, desk.date, references, bins);
    crate::outcome::perform(
        plan, desk, codes, flags, r, batches, queue, nq, pending, nw, memory, out,
    )
}

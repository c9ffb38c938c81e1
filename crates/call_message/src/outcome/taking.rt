// Step 5: a message before its batch, and in it.
ghost use Rattle.std.specs.Prelude.{◌≡◌, ℕ, ◌≤◌, ◌<◌, length};
ghost use Rattle.settle.specs.Settlement.{Accounts};
ghost use Rattle.model.specs.State.{live, Batches, Known, with_place};
ghost use Rattle.model.specs.Messages.{admit, completed, first_batch, with_message};
ghost use Rattle.model.specs.Rules.{RightMinute};
ghost use Rattle.tables.specs.Rows.{activation_in};
ghost use Rattle.call_orders.specs.Stages.{seen};
ghost use Rattle.call_message.specs.outcome.Doing.{state_on, InRows, Beginnable, Takeable, Fair, batch_at};

use crate::outcome::{Acted, completing, ending};
use codes::Code;
use request_read::terms::Activation;
use request_read::whole::Reading;
use settle::Batch;
use tables::Desk;

// The message comes into the row of its batch, and the batch may be complete.
fn take_in(
    desk: Desk,
    codes: &[u64],
    flags: &[u64],
    r: Reading,
    batches: &mut [u64],
    queue: &mut [u64],
    nq: usize,
    pending: &mut [u64],
    nw: usize,
    memory: &mut [u64],
    place: usize,
    out: &mut [u8],
) -> Acted
    requires takeable { Takeable desk codes.now flags.now r batches.old queue.old nq pending.old nw place out.old }
    requires fair { Fair desk codes.now flags.now r batches.old place }
    ensures { (c : Batches) (n : Accounts) (o k : Known) → InRows (completed (state_on desk codes.now flags.now c n o) r (seen batches.old queue.old nq pending.old nw) k place (with_message (state_on desk codes.now flags.now c n o) r (batch_at batches.old place))) memory.old out.old 0 desk.texts result.answer batches.new queue.new result.queued pending.new result.pending memory.new out.new result.at result.texts }
{
    let mut words = [0u64; 30];
    call_plan::rules::words::put_message(&mut words, codes, desk.banks, r);
    let reference = r.head.reference.code;
    call_orders::arriving::arrive_at(batches, place, reference, r.terms.number, &words, r.n);
    completing::complete(
        desk.clock, batches, queue, nq, pending, nw, memory, place, desk.texts, out,
    )
}

// "Any of these rejects the batch with this message in it."
pub fn admit(
    desk: Desk,
    codes: &[u64],
    flags: &[u64],
    stream: usize,
    r: Reading,
    batches: &mut [u64],
    queue: &mut [u64],
    nq: usize,
    pending: &mut [u64],
    nw: usize,
    memory: &mut [u64],
    place: usize,
    out: &mut [u8],
) -> Acted
    requires { Takeable desk codes.now flags.now r batches.old queue.old nq pending.old nw place out.old × (stream ≤ 8) }
    ensures { (c : Batches) (n : Accounts) (o k : Known) → InRows (admit (state_on desk codes.now flags.now c n o) r stream (seen batches.old queue.old nq pending.old nw) k place (batch_at batches.old place)) memory.old out.old 0 desk.texts result.answer batches.new queue.new result.queued pending.new result.pending memory.new out.new result.at result.texts }
{
    let a = place * Batch::WIDTH;
    let e = a + Batch::WIDTH;
    let fault = call_plan::rules::messages::message_fault(
        desk.date,
        codes,
        desk.banks,
        flags,
        stream,
        &batches[a..e],
        r,
    );
    match fault {
        Err(f) => {
            let bin = Code {
                high: batches[a + 2],
                low: batches[a + 3],
            };
            let reference = r.head.reference.code;
            ending::end_with_message(
                f, reference, bin, batches, queue, nq, pending, nw, memory, place, desk.texts, out,
            )
        }
        Ok(()) => take_in(
            desk, codes, flags, r, batches, queue, nq, pending, nw, memory, place, out,
        ),
    }
}

// 0 none, else the minute and 1.
fn activation_word(a: Activation) -> u64
    requires { RightMinute a }
    ensures { activation_in result ≡ a }
{
    match a {
        Activation::AtOnce => 0,
        Activation::Minute(m) => m + 1,
    }
}

// A message begins a batch at a free place.
pub fn begin(
    desk: Desk,
    codes: &[u64],
    flags: &[u64],
    stream: usize,
    r: Reading,
    batches: &mut [u64],
    queue: &mut [u64],
    nq: usize,
    pending: &mut [u64],
    nw: usize,
    memory: &mut [u64],
    place: usize,
    out: &mut [u8],
) -> Acted
    requires { Beginnable desk codes.now flags.now r batches.old queue.old nq pending.old nw place out.old × (stream ≤ 8) }
    ensures { (c : Batches) (n : Accounts) (o k : Known) → InRows (admit (state_on desk codes.now flags.now c n o) r stream (with_place (seen batches.old queue.old nq pending.old nw) place (live (first_batch (state_on desk codes.now flags.now c n o) r))) k place (first_batch (state_on desk codes.now flags.now c n o) r)) memory.old out.old 0 desk.texts result.answer batches.new queue.new result.queued pending.new result.pending memory.new out.new result.at result.texts }
{
    let bin = r.head.address.bin.code;
    let word = activation_word(r.terms.activation);
    call_orders::arriving::begin_at(batches, place, bin, r.terms.count, word);
    admit(
        desk, codes, flags, stream, r, batches, queue, nq, pending, nw, memory, place, out,
    )
}

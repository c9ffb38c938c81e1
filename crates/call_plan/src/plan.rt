// What is to be done with a message that was read: steps 1 to 5, before anything is changed.
pub mod finding;

ghost use Rattle.std.specs.Prelude.{◌≡◌, ℕ, ◌≤◌, ◌<◌, length};
ghost use Rattle.model.specs.State.{at};
ghost use Rattle.model.specs.Messages.{is_broken_part};
ghost use Rattle.tables.specs.Rows.{entries_in, streams_on};
ghost use Rattle.tables.specs.Seeking.{found_by};
ghost use Rattle.call_orders.specs.Stages.{seen, places_in};
ghost use Rattle.call_plan.specs.plan.Plans.{rejects_on, known_on, new_on, noted_on, settlement_on, recall_on, broken_on, sent_on, Lookable, plan_on};

use crate::entries::Looked;
use crate::rules::places;
use chars::Refusal;
use codes::Code;
use request_read::whole::{Head, Outcome, Reached};
use tables::Desk;
use text_fields::Break;

// What becomes of a message. The numbers are places: of a batch, of its stream, and the free ones that its reference and its BIN take.
#[derive(Clone, Copy)]
pub enum Plan {
    // It is refused, touches no batch and is not noted.
    Untouched(Refusal),
    // It is refused and not noted, and the batch that it is for is ended with its number.
    Rejects(usize, Refusal),
    // It is noted, and refused alone.
    Alone(usize),
    // It comes to a batch that is being assembled: batch, stream, reference.
    Comes(usize, usize, usize),
    // It begins a batch: batch, stream, reference, BIN.
    Begins(usize, usize, usize, usize),
    // A recall that finds nothing.
    RecallsNone(usize),
    // A recall of a batch: batch, reference.
    Recalls(usize, usize),
}

// A 131 that is refused and not noted, by the batch that its BIN is assembling.
fn on_refused(assembling: Option<usize>, refusal: Refusal) -> Plan
    ensures { result ≡ rejects_on (found_by assembling) refusal }
{
    match assembling {
        Some(p) => Plan::Rejects(p, refusal),
        None => Plan::Untouched(refusal),
    }
}

// "a remembered BIN that is not being assembled 87, this message alone"
fn on_known(assembling: Option<usize>, stream: usize, reference: usize) -> Plan
    ensures { result ≡ known_on (found_by assembling) stream reference }
{
    match assembling {
        Some(p) => Plan::Comes(p, stream, reference),
        None => Plan::Alone(reference),
    }
}

// "04 .. if a 131's BIN is not remembered and there is no free batch .. place"
fn on_new(place: Option<usize>, stream: usize, reference: usize, bin: usize) -> Plan
    ensures { result ≡ new_on (found_by place) (at bin) stream reference }
{
    match place {
        Some(p) => Plan::Begins(p, stream, reference, bin),
        None => Plan::Untouched(Refusal::NoRoom),
    }
}

// A 131 whose reference can be noted: "04 .. if a 131's BIN is not remembered and there is no free .. BIN place"
fn on_noted(
    batches: &[u64],
    bins: &[u64],
    today: u64,
    assembling: Option<usize>,
    stream: usize,
    reference: usize,
    bin: Code,
) -> Plan
    requires { (length batches.now ≡ 11168) × (length bins.now ≡ 1536) }
    ensures { result ≡ noted_on today (places_in batches.now) (entries_in 512 bins.now) (found_by assembling) stream reference bin }
{
    let l = crate::entries::look(bins, 512, today, bin);
    match l {
        Looked::Used => on_known(assembling, stream, reference),
        Looked::Full => Plan::Untouched(Refusal::NoRoom),
        Looked::Free(b) => {
            let place = tables::places::lowest_free(batches);
            on_new(place, stream, reference, b)
        }
    }
}

// Steps 3 to 5 of a 131.
fn settlement_plan(
    batches: &[u64],
    queue: &[u64],
    nq: usize,
    pending: &[u64],
    nw: usize,
    references: &[u64],
    bins: &[u64],
    today: u64,
    stream: usize,
    reference: Code,
    bin: Code,
) -> Plan
    requires { Lookable batches.now queue.now nq pending.now nw references.now bins.now }
    ensures { result ≡ settlement_on today (seen batches.now queue.now nq pending.now nw) (entries_in 2048 references.now) (entries_in 512 bins.now) stream reference bin }
{
    let assembling = finding::assembling(batches, queue, nq, pending, nw, bin);
    let l = crate::entries::look(references, 2048, today, reference);
    let q = match l {
        Looked::Used => return on_refused(assembling, Refusal::UsedReference),
        Looked::Full => return Plan::Untouched(Refusal::NoRoom),
        Looked::Free(q) => q,
    };
    on_noted(batches, bins, today, assembling, stream, q, bin)
}

// Steps 3 and 4 of a 133: "A recall acts on a pending or queued batch".
fn recall_plan(
    batches: &[u64],
    queue: &[u64],
    nq: usize,
    pending: &[u64],
    nw: usize,
    references: &[u64],
    today: u64,
    reference: Code,
    bin: Code,
) -> Plan
    requires { (length batches.now ≡ 11168) × (nq ≤ length queue.now) × (nw ≤ length pending.now) × (length references.now ≡ 6144) }
    ensures { result ≡ recall_on today (seen batches.now queue.now nq pending.now nw) (entries_in 2048 references.now) reference bin }
{
    let l = crate::entries::look(references, 2048, today, reference);
    match l {
        Looked::Used => Plan::Untouched(Refusal::UsedReference),
        Looked::Full => Plan::Untouched(Refusal::NoRoom),
        Looked::Free(q) => {
            let waiting = finding::waiting(batches, queue, nq, pending, nw, bin);
            match waiting {
                Some(p) => Plan::Recalls(p, q),
                None => Plan::RecallsNone(q),
            }
        }
    }
}

// Kept: the bound of `desk.n` is asked of `choose`, which is named in docs/CONTRACTS.md, so of what it calls too.
// The place of a stream whose administrator is the sender: "Stream not in the book 87; sender not that stream's administrator 73."
fn sender_stream(desk: Desk, sender: u64, code: u64) -> Result<usize, Refusal>
    requires { desk.n ≤ 8 }
    ensures { result ≡ sent_on (streams_on desk) sender code }
{
    let streams = desk.streams;
    let i = places::stream_place(streams, desk.n, code).ok_or(Refusal::Malformed)?;
    if sender != streams[2 * i + 1] {
        return Err(Refusal::WrongSender);
    }
    Ok(i)
}

// "where step 1 fails in a 131 after 22A and 119 were read well", and no field is missing.
fn is_broken_part(head: Head, b: Break) -> bool
    ensures { result ≡ is_broken_part head b }
{
    head.subtype.number == 131 && matches!(head.address.reached, Reached::Bin) && !b.missing
}

// Step 1: "the stream is known, the sender is its administrator and that BIN is being assembled, the batch ends with the same code".
#[tactic(auto, unfolding(crate::specs::plan::Plans::broken_on))]
fn broken_plan(
    desk: Desk,
    sender: u64,
    head: Head,
    b: Break,
    batches: &[u64],
    queue: &[u64],
    nq: usize,
    pending: &[u64],
    nw: usize,
) -> Plan
    requires n_bound { desk.n ≤ 8 }
    requires batches_len { (length batches.now ≡ 11168) × (nq ≤ length queue.now) × (nw ≤ length pending.now) }
    ensures { result ≡ broken_on (streams_on desk) sender head b (seen batches.now queue.now nq pending.now nw) }
{
    let refusal = b.refusal;
    if !is_broken_part(head, b) {
        return Plan::Untouched(refusal);
    }
    let address = head.address;
    let assembling = finding::assembling(batches, queue, nq, pending, nw, address.bin.code);
    if sender_stream(desk, sender, address.stream.number).is_err() {
        return Plan::Untouched(refusal);
    }
    on_refused(assembling, refusal)
}

// Steps 1 to 5 of a message, by its outcome and head.
pub fn choose(
    desk: Desk,
    sender: u64,
    outcome: Outcome,
    head: Head,
    batches: &[u64],
    queue: &[u64],
    nq: usize,
    pending: &[u64],
    nw: usize,
    references: &[u64],
    bins: &[u64],
) -> Plan
    requires n_bound { desk.n ≤ 8 }
    requires lookable { Lookable batches.now queue.now nq pending.now nw references.now bins.now }
    ensures { result ≡ plan_on desk.date (streams_on desk) sender outcome head (seen batches.now queue.now nq pending.now nw) (entries_in 2048 references.now) (entries_in 512 bins.now) }
{
    let stream = head.address.stream.number;
    let bin = head.address.bin.code;
    let reference = head.reference.code;
    match outcome {
        Outcome::Refused(b) => {
            broken_plan(desk, sender, head, b, batches, queue, nq, pending, nw)
        }
        Outcome::Settlement => match sender_stream(desk, sender, stream) {
            Ok(i) => settlement_plan(
                batches, queue, nq, pending, nw, references, bins, desk.date, i, reference, bin,
            ),
            Err(f) => Plan::Untouched(f),
        },
        Outcome::Recall => match sender_stream(desk, sender, stream) {
            Ok(_) => recall_plan(
                batches, queue, nq, pending, nw, references, desk.date, reference, bin,
            ),
            Err(f) => Plan::Untouched(f),
        },
    }
}

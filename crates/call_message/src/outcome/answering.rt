// Messages that end at once: those that are refused and end a batch, those that are refused alone, recalls.
ghost use Rattle.std.specs.Prelude.{◌≡◌, ◌∷◌, [], ◌++◌, ℕ, ◌≤◌, ◌<◌, length, Ok, Err};
ghost use Rattle.chars.specs.Refusals.{number_of};
ghost use Rattle.chars.specs.declared.Refusal.TheVariants.{NothingThere, Recalled as WasRecalled, Malformed};
ghost use Rattle.response_write.specs.declared.Outcome.TheVariants.{Rejected};
ghost use Rattle.response_write.specs.declared.Answer.TheVariants.{Recalled, Kept};
ghost use Rattle.model.specs.Replies.{settlement, recall};
ghost use Rattle.call_orders.specs.Stages.{seen, Ready};
ghost use Rattle.call_texts.specs.Writing.{Wrote, Room, Legible, replies_at};
ghost use Rattle.call_message.specs.outcome.Doing.{Ends, Stays};

use crate::outcome::{Acted, ending};
use chars::Refusal;
use request_read::whole::Head;
use response_write::Answer as Told;

// The message is refused and not noted, and the batch that its BIN is assembling ends with the same number: by a broken part, or with 74.
pub fn reject(
    refusal: Refusal,
    batches: &mut [u64],
    queue: &mut [u64],
    nq: usize,
    pending: &mut [u64],
    nw: usize,
    memory: &mut [u64],
    place: usize,
    texts: u64,
    out: &mut [u8],
) -> Acted
    requires ready { Ready batches.old queue.old nq pending.old nw × Legible batches.old × (place < 32) }
    requires room { Room out.old 0 texts (replies_at batches.old place (Rejected (number_of refusal))) }
    ensures { (result.answer ≡ Err refusal) × Ends (replies_at batches.old place (Rejected (number_of refusal))) (seen batches.old queue.old nq pending.old nw) place memory.old out.old 0 texts batches.new queue.new result.queued pending.new result.pending memory.new out.new result.at result.texts }
{
    ending::end_with(
        refusal,
        Err(refusal),
        batches,
        queue,
        nq,
        pending,
        nw,
        memory,
        place,
        texts,
        out,
        0,
    )
}

// "a remembered BIN that is not being assembled 87, this message alone"
pub fn refuse_alone(head: Head, nq: usize, nw: usize, texts: u64, out: &mut [u8]) -> Acted
    requires { Room out.old 0 texts (settlement head.reference.code head.address.bin.code (Rejected (number_of Malformed)) ∷ []) }
    ensures { Stays (Err Malformed) (settlement head.reference.code head.address.bin.code (Rejected (number_of Malformed)) ∷ []) nq nw out.old texts result.answer result.queued result.pending out.new result.at result.texts }
{
    let reference = head.reference.code;
    let bin = head.address.bin.code;
    let told = call_texts::answer_alone(reference, bin, Refusal::Malformed.number(), texts, out, 0);
    Acted {
        answer: Err(Refusal::Malformed),
        queued: nq,
        pending: nw,
        at: told.at,
        texts: told.texts,
    }
}

// "else its 134 carries 02"
pub fn recall_none(head: Head, nq: usize, nw: usize, texts: u64, out: &mut [u8]) -> Acted
    requires { Room out.old 0 texts (recall head.reference.code (Kept (number_of NothingThere)) ∷ []) }
    ensures { Stays (Err NothingThere) (recall head.reference.code (Kept (number_of NothingThere)) ∷ []) nq nw out.old texts result.answer result.queued result.pending out.new result.at result.texts }
{
    let reference = head.reference.code;
    let told = call_texts::answer_recall(
        reference,
        Told::Kept(Refusal::NothingThere.number()),
        texts,
        out,
        0,
    );
    Acted {
        answer: Err(Refusal::NothingThere),
        queued: nq,
        pending: nw,
        at: told.at,
        texts: told.texts,
    }
}

// "a 134 before the batch it recalls"
pub fn recall(
    head: Head,
    batches: &mut [u64],
    queue: &mut [u64],
    nq: usize,
    pending: &mut [u64],
    nw: usize,
    memory: &mut [u64],
    place: usize,
    texts: u64,
    out: &mut [u8],
) -> Acted
    requires ready { Ready batches.old queue.old nq pending.old nw × Legible batches.old × (place < 32) }
    requires room { Room out.old 0 texts ((recall head.reference.code Recalled ∷ []) ++ replies_at batches.old place (Rejected (number_of WasRecalled))) }
    ensures { (result.answer ≡ Ok tt) × Ends ((recall head.reference.code Recalled ∷ []) ++ replies_at batches.old place (Rejected (number_of WasRecalled))) (seen batches.old queue.old nq pending.old nw) place memory.old out.old 0 texts batches.new queue.new result.queued pending.new result.pending memory.new out.new result.at result.texts }
{
    let reference = head.reference.code;
    let told = call_texts::answer_recall(reference, Told::Recalled, texts, out, 0);
    ending::end_with(
        Refusal::Recalled,
        Ok(()),
        batches,
        queue,
        nq,
        pending,
        nw,
        memory,
        place,
        told.texts,
        out,
        told.at,
    )
}

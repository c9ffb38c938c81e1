// A batch is ended: its messages are answered, its place is zeroed, it leaves its order and is no more remembered as held.
ghost use Rattle.std.specs.Prelude.{◌≡◌, ◌∷◌, [], ◌++◌, ℕ, ◌≤◌, ◌<◌, length, Err};
ghost use Rattle.chars.specs.Refusals.{number_of};
ghost use Rattle.response_write.specs.declared.Outcome.TheVariants.{Rejected};
ghost use Rattle.model.specs.Replies.{settlement};
ghost use Rattle.call_orders.specs.Stages.{seen, Ready};
ghost use Rattle.call_texts.specs.Writing.{Room, Legible, replies_at};
ghost use Rattle.call_message.specs.outcome.Doing.{Ends};

use crate::outcome::Acted;
use chars::Refusal;
use codes::Code;
use response_write::Outcome;

// With a refusal; what the action then answers is told apart, since a recall is done.
pub fn end_with(
    refusal: Refusal,
    answer: Result<(), Refusal>,
    batches: &mut [u64],
    queue: &mut [u64],
    nq: usize,
    pending: &mut [u64],
    nw: usize,
    memory: &mut [u64],
    place: usize,
    texts: u64,
    out: &mut [u8],
    at: usize,
) -> Acted
    requires ready { Ready batches.old queue.old nq pending.old nw × Legible batches.old × (place < 32) }
    requires room { Room out.old at texts (replies_at batches.old place (Rejected (number_of refusal))) }
    ensures { (result.answer ≡ answer) × Ends (replies_at batches.old place (Rejected (number_of refusal))) (seen batches.old queue.old nq pending.old nw) place memory.old out.old at texts batches.new queue.new result.queued pending.new result.pending memory.new out.new result.at result.texts }
{
    let number = refusal.number();
    let told = call_texts::answer_batch(batches, place, Outcome::Rejected(number), texts, out, at);
    let left = call_orders::end_batch(batches, queue, nq, pending, nw, place);
    queue::wake_batch(memory, place);
    Acted {
        answer,
        queued: left.queued,
        pending: left.pending,
        at: told.at,
        texts: told.texts,
    }
}

// "rejects the batch with this message in it": the message stands in no row, and is answered last.
pub fn end_with_message(
    refusal: Refusal,
    reference: Code,
    bin: Code,
    batches: &mut [u64],
    queue: &mut [u64],
    nq: usize,
    pending: &mut [u64],
    nw: usize,
    memory: &mut [u64],
    place: usize,
    texts: u64,
    out: &mut [u8],
) -> Acted
    requires ready { Ready batches.old queue.old nq pending.old nw × Legible batches.old × (place < 32) }
    requires room { Room out.old 0 texts (replies_at batches.old place (Rejected (number_of refusal)) ++ (settlement reference bin (Rejected (number_of refusal)) ∷ [])) }
    ensures { (result.answer ≡ Err refusal) × Ends (replies_at batches.old place (Rejected (number_of refusal)) ++ (settlement reference bin (Rejected (number_of refusal)) ∷ [])) (seen batches.old queue.old nq pending.old nw) place memory.old out.old 0 texts batches.new queue.new result.queued pending.new result.pending memory.new out.new result.at result.texts }
{
    let number = refusal.number();
    let first = call_texts::answer_batch(batches, place, Outcome::Rejected(number), texts, out, 0);
    let told = call_texts::answer_alone(reference, bin, number, first.texts, out, first.at);
    let left = call_orders::end_batch(batches, queue, nq, pending, nw, place);
    queue::wake_batch(memory, place);
    Acted {
        answer: Err(refusal),
        queued: left.queued,
        pending: left.pending,
        at: told.at,
        texts: told.texts,
    }
}

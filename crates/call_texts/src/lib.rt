// The texts that a call writes, straight into the lent buffer: each function goes on from the place reached so far.
#![tactic(auto)]

ghost use Rattle.std.specs.Prelude.{◌≡◌, ◌∷◌, [], ℕ, ◌+◌, ◌*◌, ◌≤◌, ◌<◌, length, take};
ghost use Rattle.response_write.specs.declared.Outcome.TheVariants.{Rejected};
ghost use Rattle.queue.specs.Tests.{passed_of};
ghost use Rattle.model.specs.State.{place_messages};
ghost use Rattle.model.specs.Replies.{settlement, recall};
ghost use Rattle.model.specs.Ending.{settled_replies, close_replies};
ghost use Rattle.tables.specs.Rows.{place_in, entries_in};
ghost use Rattle.call_texts.specs.Writing.{Wrote, Room, Legible, batches_on, replies_at, replies_in, replies_from, day_at, arrived_at};

use chars::Refusal;
use codes::Code;
use response_write::{Answer, Outcome, Recall, Settlement};
use settle::Batch;

// The place reached so far, and the texts written today.
#[derive(Clone, Copy)]
pub struct Progress {
    pub at: usize,
    pub texts: u64,
}

// Remembered BINs, and the words of one.
const BINS: usize = 512;

const BIN_WIDTH: usize = 3;

// 132 to one message.
fn answer_message(
    reference: Code,
    bin: Code,
    outcome: Outcome,
    texts: u64,
    out: &mut [u8],
    at: usize,
) -> Progress
    requires { Room out.old at texts (settlement reference bin outcome ∷ []) }
    ensures { Wrote out.old at texts (settlement reference bin outcome ∷ []) out.new result.at result.texts }
{
    let number = texts + 1;
    let stream = text_names::rules::stream_of(bin);
    let end = response_write::put_settlement(
        out,
        at,
        Settlement {
            number,
            reference,
            stream,
            bin,
            outcome,
        },
    );
    Progress {
        at: end,
        texts: number,
    }
}

// "a 131 refused alone in step 5, at once"
pub fn answer_alone(
    reference: Code,
    bin: Code,
    number: u64,
    texts: u64,
    out: &mut [u8],
    at: usize,
) -> Progress
    requires { Room out.old at texts (settlement reference bin (Rejected number) ∷ []) }
    ensures { Wrote out.old at texts (settlement reference bin (Rejected number) ∷ []) out.new result.at result.texts }
{
    answer_message(reference, bin, Outcome::Rejected(number), texts, out, at)
}

// 134.
pub fn answer_recall(
    reference: Code,
    answer: Answer,
    texts: u64,
    out: &mut [u8],
    at: usize,
) -> Progress
    requires { Room out.old at texts (recall reference answer ∷ []) }
    ensures { Wrote out.old at texts (recall reference answer ∷ []) out.new result.at result.texts }
{
    let next = texts + 1;
    let end = response_write::put_recall(
        out,
        at,
        Recall {
            number: next,
            reference,
            answer,
        },
    );
    Progress {
        at: end,
        texts: next,
    }
}

// The first n messages of a row, "in arrival order".
fn answer_messages(
    row: &[u64],
    n: usize,
    bin: Code,
    outcome: Outcome,
    texts: u64,
    out: &mut [u8],
    at: usize,
) -> Progress
    requires row_len { (length row.now ≡ 349) × (n ≤ 10) }
    requires room { Room out.old at texts (replies_from row.now bin outcome 0 n) }
    ensures { Wrote out.old at texts (replies_from row.now bin outcome 0 n) out.new result.at result.texts }
{
    let mut reached = Progress { at, texts };
    for i in 0..n {
        let k = Batch::MESSAGE + Batch::MESSAGE_WIDTH * i;
        let reference = Code {
            high: row[k],
            low: row[k + 1],
        };
        reached = answer_message(reference, bin, outcome, reached.texts, out, reached.at);
    }
    reached
}

// A batch whose row is lent; a free place has no messages.
fn answer_row(row: &[u64], outcome: Outcome, texts: u64, out: &mut [u8], at: usize) -> Progress
    requires row_len { (length row.now ≡ 349) × (length (place_messages (place_in row.now)) ≤ 10) }
    requires room { Room out.old at texts (replies_in row.now outcome) }
    ensures { Wrote out.old at texts (replies_in row.now outcome) out.new result.at result.texts }
{
    if row[Batch::PHASE] == 0 {
        return Progress { at, texts };
    }
    let bin = Code {
        high: row[Batch::BIN],
        low: row[Batch::BIN + 1],
    };
    let n = row[Batch::MESSAGES_THERE] as usize;
    answer_messages(row, n, bin, outcome, texts, out, at)
}

// "any other when its batch ends": the batch at a place, if there is one.
pub fn answer_batch(
    batches: &[u64],
    place: usize,
    outcome: Outcome,
    texts: u64,
    out: &mut [u8],
    at: usize,
) -> Progress
    requires legible { Legible batches.now }
    requires room { Room out.old at texts (replies_at batches.now place outcome) }
    ensures { Wrote out.old at texts (replies_at batches.now place outcome) out.new result.at result.texts }
{
    if Batch::LIVE <= place {
        return Progress { at, texts };
    }
    let a = place * Batch::WIDTH;
    let e = a + Batch::WIDTH;
    answer_row(&batches[a..e], outcome, texts, out, at)
}

// The batch of a try, where it passed.
fn answer_try(
    batches: &[u64],
    tried: u64,
    date: u64,
    clock: u64,
    texts: u64,
    out: &mut [u8],
    at: usize,
) -> Progress
    requires legible { Legible batches.now }
    requires room { Room out.old at texts (settled_replies (day_at date clock) (batches_on batches.now) (passed_of (tried ∷ []))) }
    ensures { Wrote out.old at texts (settled_replies (day_at date clock) (batches_on batches.now) (passed_of (tried ∷ []))) out.new result.at result.texts }
{
    if tried % 2 != 1 {
        return Progress { at, texts };
    }
    let place = (tried / 2) as usize;
    let outcome = Outcome::Settled(date, clock);
    answer_batch(batches, place, outcome, texts, out, at)
}

// What passed in the first n tries, in their order: settled on the day at the clock.
pub fn answer_settled(
    batches: &[u64],
    tries: &[u64],
    n: usize,
    date: u64,
    clock: u64,
    texts: u64,
    out: &mut [u8],
    at: usize,
) -> Progress
    requires legible { Legible batches.now × (n ≤ length tries.now) }
    requires room { Room out.old at texts (settled_replies (day_at date clock) (batches_on batches.now) (passed_of (take n tries.now))) }
    ensures { Wrote out.old at texts (settled_replies (day_at date clock) (batches_on batches.now) (passed_of (take n tries.now))) out.new result.at result.texts }
{
    let mut reached = Progress { at, texts };
    for i in 0..n {
        reached = answer_try(
            batches,
            tries[i],
            date,
            clock,
            reached.texts,
            out,
            reached.at,
        );
    }
    reached
}

// The place of the live batch of a BIN that is remembered; 32 where there is none.
#[tactic(auto, unfolding(crate::specs::Writing::arrived_at))]
fn arrived(batches: &[u64], bin: Code, day: u64, today: u64) -> usize
    requires { length batches.now ≡ 11168 }
    ensures { result ≡ arrived_at today (batches_on batches.now) (record { code = bin; day = day }) }
{
    if !dates::remembered(day, today) {
        return Batch::LIVE;
    }
    tables::places::batch_of(batches, bin).unwrap_or(Batch::LIVE)
}

// "ends each live batch with 86 by arrival of its first message": arrival is the order of the remembered BINs.
pub fn answer_close(
    batches: &[u64],
    bins: &[u64],
    today: u64,
    texts: u64,
    out: &mut [u8],
    at: usize,
) -> Progress
    requires legible { Legible batches.now × (512 * 3 ≤ length bins.now) }
    requires room { Room out.old at texts (close_replies today (batches_on batches.now) (entries_in 512 bins.now)) }
    ensures { Wrote out.old at texts (close_replies today (batches_on batches.now) (entries_in 512 bins.now)) out.new result.at result.texts }
{
    let outcome = Outcome::Rejected(Refusal::Unsettled.number());
    let mut reached = Progress { at, texts };
    for i in 0..BINS {
        let a = i * BIN_WIDTH;
        let bin = Code {
            high: bins[a],
            low: bins[a + 1],
        };
        let place = arrived(batches, bin, bins[a + 2], today);
        reached = answer_batch(batches, place, outcome, reached.texts, out, reached.at);
    }
    reached
}

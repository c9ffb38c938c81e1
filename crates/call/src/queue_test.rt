// "(d) the queue test": what it settles is answered, and leaves its place.
ghost use Rattle.std.specs.Prelude.{ℕ, ◌≤◌};
ghost use Rattle.model.specs.Ending.{settled_replies};
ghost use Rattle.call_texts.specs.Writing.{Wrote, Room, Legible, batches_on, day_at};
ghost use Rattle.call.specs.queue_test.Settling.{Testable, outcome_of, Ended};

// How many batches wait, how many tries were made, the place reached in the buffer and the texts of the day.
#[derive(Clone, Copy)]
pub struct Tested {
    pub waiting: usize,
    pub tried: usize,
    pub at: usize,
    pub texts: u64,
}

// The texts say the date and the clock.
pub fn test(
    quick: bool,
    date: u64,
    clock: u64,
    balances: &mut [u64],
    sublimits: &[u64],
    batches: &mut [u64],
    memory: &mut [u64],
    queue: &mut [u64],
    nq: usize,
    tries: &mut [u64],
    texts: u64,
    out: &mut [u8],
    at: usize,
) -> Tested
    requires testable { Testable balances.old sublimits.now batches.old memory.old queue.old nq tries.old × Legible batches.old }
    requires room { Room out.old at texts (settled_replies (day_at date clock) (batches_on batches.old) (outcome_of quick balances.old sublimits.now batches.old memory.old queue.old nq).done) }
    ensures ended { Ended (outcome_of quick balances.old sublimits.now batches.old memory.old queue.old nq) sublimits.now batches.old tries.old balances.new batches.new memory.new queue.new result.waiting tries.new result.tried }
    ensures wrote { Wrote out.old at texts (settled_replies (day_at date clock) (batches_on batches.old) (outcome_of quick balances.old sublimits.now batches.old memory.old queue.old nq).done) out.new result.at result.texts }
{
    let reached = queue::run(
        quick, balances, sublimits, batches, memory, queue, nq, tries, 0,
    );
    let n = reached.tried;
    let told = call_texts::answer_settled(batches, tries, n, date, clock, texts, out, at);
    call_orders::settled::end_passed(batches, memory, tries, n);
    Tested {
        waiting: reached.waiting,
        tried: n,
        at: told.at,
        texts: told.texts,
    }
}

// The batches that the queue test settled leave their places.
ghost use Rattle.std.specs.Prelude.{◌≡◌, ◌∷◌, [], ℕ, ◌+◌, ◌≤◌, ◌<◌, length, set, take};
ghost use Rattle.model.specs.State.{free};
ghost use Rattle.queue.specs.Tests.{passed_of};
ghost use Rattle.call_orders.specs.Heads.{NeatTable};
ghost use Rattle.call_orders.specs.Stages.{places_in, Emptied};

// A place is zeroed, if there is one.
fn clear_place(batches: &mut [u64], place: u64)
    requires { NeatTable batches.old }
    ensures { NeatTable batches.new × (places_in batches.new ≡ set (places_in batches.old) place free) }
{
    if place < 32 {
        tables::places::end_batch(batches, place as usize);
    }
}

// A batch that passed leaves its place.
fn end_try(batches: &mut [u64], memory: &mut [u64], tried: u64)
    requires { NeatTable batches.old }
    ensures { Emptied (passed_of (tried ∷ [])) batches.old memory.old batches.new memory.new }
{
    if tried % 2 != 1 {
        return;
    }
    let place = tried / 2;
    clear_place(batches, place);
    queue::wake_batch(memory, place as usize);
}

// All that passed in the first n tries.
pub fn end_passed(batches: &mut [u64], memory: &mut [u64], tries: &[u64], n: usize)
    requires { NeatTable batches.old × (n ≤ length tries.now) }
    ensures { Emptied (passed_of (take n tries.now)) batches.old memory.old batches.new memory.new }
{
    for tried in &tries[..n] {
        end_try(batches, memory, *tried);
    }
}

// Numbers that are marked one by one.
ghost use Rattle.std.specs.Prelude.{◌≡◌, ℕ, ◌+◌, ◌*◌, ◌<◌, ◌≤◌, true, length};
ghost use Rattle.tables_rules.specs.payments.Marks.{Marked};

// A number below n that was not seen yet, which is seen from now on.
pub fn mark(seen: &mut [u64], n: usize, k: u64) -> bool
    requires { n ≤ length seen.old }
    ensures { Marked n k seen.old seen.new result }
{
    if n as u64 <= k {
        return false;
    }
    let i = k as usize;
    if seen[i] != 0 {
        return false;
    }
    seen[i] = 1;
    true
}

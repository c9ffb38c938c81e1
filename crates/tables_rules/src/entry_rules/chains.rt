// "no reference or BIN remembered twice", in one pass: entries are compared along the chain of their slot alone.
ghost use Rattle.std.specs.Prelude.{◌≡◌, ℕ, ◌+◌, ◌*◌, ◌<◌, ◌≤◌, true, length};
ghost use Rattle.chars.specs.Words.{Says};
ghost use Rattle.model.specs.Rules.{remembered, Unlike, AllUnlike};
ghost use Rattle.tables.specs.Rows.{entries_in};
ghost use Rattle.tables_rules.specs.entry_rules.EntryRules.{code_of, entries_from};
ghost use Rattle.tables_rules.specs.entry_rules.Chains.{slot_of, kept_at, First, Nexts, Chained, Entered};

use crate::entry_rules::entries;

// Past the last entry: the end of a chain.
const NOWHERE: u16 = 2048;

const SLOTS: u64 = 2039;

fn slot(high: u64, low: u64) -> usize
    ensures { (result ≡ slot_of high low) × (result < 2039) }
{
    (std::num::wrapping_add_u64(high, low) % SLOTS) as usize
}

fn wide(k: u16) -> usize
    ensures { result ≡ k }
{
    k as usize
}

// No entry of the chain from k on has the code; the chain is that of the code's slot, behind entry i.
fn unlike_chain(
    t: &[u64],
    n: usize,
    today: u64,
    next: &[u16],
    from: usize,
    i: usize,
    high: u64,
    low: u64,
) -> bool
    requires t_len { (length t.now ≡ 3 * n) × (n ≤ 2048) × (length next.now ≡ 2048) }
    requires first { First t.now n today (slot_of high low) (i + 1) from × Nexts t.now n today next.now (i + 1) }
    ensures { Says (Unlike (code_of high low) (remembered today (entries_from t.now n (i + 1)))) result }
{
    let mut k = from;
    // Kept: the place moves along the chain.
    while k < n {
        if entries::same(high, low, t[k * 3 + 0], t[k * 3 + 1]) {
            return false;
        }
        k = wide(next[k]);
    }
    true
}

// Entry i, unless one behind it has its code.
fn enter(t: &[u64], n: usize, today: u64, first: &mut [u16], next: &mut [u16], i: usize) -> bool
    requires t_len { (length t.now ≡ 3 * n) × (n ≤ 2048) × (i < n) }
    requires first_len { (length first.old ≡ 2048) × (length next.old ≡ 2048) }
    requires i_value { (kept_at t.now n today i ≡ true) × Chained t.now n today first.old next.old (i + 1) }
    ensures { Entered t.now n today i first.new next.new result }
{
    let high = t[i * 3 + 0];
    let low = t[i * 3 + 1];
    let s = slot(high, low);
    let from = wide(first[s]);
    if !unlike_chain(t, n, today, next, from, i, high, low) {
        return false;
    }
    next[i] = first[s];
    first[s] = i as u16;
    true
}

fn all_unlike(t: &[u64], n: usize, today: u64, first: &mut [u16], next: &mut [u16]) -> bool
    requires t_len { (length t.now ≡ 3 * n) × (n ≤ 2048) }
    requires first_len { (length first.old ≡ 2048) × (length next.old ≡ 2048) }
    requires chained { Chained t.now n today first.old next.old n }
    ensures { Says (AllUnlike (remembered today (entries_in n t.now))) result }
{
    for i in (0..n).rev() {
        let high = t[i * 3 + 0];
        let low = t[i * 3 + 1];
        let day = t[i * 3 + 2];
        if !entries::kept(high, low, day, today) {
            continue;
        }
        if !enter(t, n, today, first, next, i) {
            return false;
        }
    }
    true
}

pub fn entries_once(t: &[u64], n: usize, today: u64) -> bool
    requires { (length t.now ≡ 3 * n) × (n ≤ 2048) }
    ensures { Says (AllUnlike (remembered today (entries_in n t.now))) result }
{
    let mut first = [NOWHERE; 2048];
    let mut next = [NOWHERE; 2048];
    all_unlike(t, n, today, &mut first, &mut next)
}

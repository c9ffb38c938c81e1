// An order of places: the first n of a row.
ghost use Rattle.std.specs.Prelude.{◌≡◌, not, cond, ◌++◌, ◌∷◌, [], ℕ, ◌+◌, ◌≤◌, ◌<◌, eqb, length, take};
ghost use Rattle.model.specs.State.{seek};
ghost use Rattle.model.specs.Joining.{keep};
ghost use Rattle.tables.specs.Seeking.{found_by};

// Where a place stands in an order.
pub fn position(order: &[u64], n: usize, place: u64) -> Option<usize>
    requires { n ≤ length order.now }
    ensures { found_by result ≡ seek (eqb place) (take n order.now) }
{
    for i in 0..n {
        if order[i] == place {
            return Some(i);
        }
    }
    None
}

// A place goes to the tail.
pub fn push(order: &mut [u64], n: usize, place: u64)
    requires { n < length order.old }
    ensures { take (n + 1) order.new ≡ take n order.old ++ (place ∷ []) }
{
    order[n] = place;
}

// One more, or not.
pub fn kept(k: usize, keep: bool) -> usize
    requires { k < 18446744073709551615 }
    ensures { (result ≡ k + cond keep 1 0) × (result ≤ k + 1) }
{
    if keep { k + 1 } else { k }
}

// A place leaves, and those behind it close up.
pub fn remove(order: &mut [u64], n: usize, place: u64) -> usize
    requires { n ≤ length order.old }
    ensures { (take result order.new ≡ keep (λ q. not (eqb q place)) (take n order.old)) × (result ≤ n) }
{
    let mut k = 0;
    for i in 0..n {
        let q = order[i];
        order[k] = q;
        k = kept(k, q != place);
    }
    k
}

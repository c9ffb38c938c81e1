// "that debit's ESA letter is changed"
ghost use Rattle.std.specs.Prelude.{◌≡◌, ℕ, ◌+◌, ◌*◌, ◌≤◌, ◌<◌, length};
ghost use Rattle.call_orders.specs.Lettering.{letters_with, reletter_from};

// The letters of one payment.
fn letters_with(bank: u64, letter: u64, k: u64, l: u64) -> u64
    requires { letter < 256 }
    ensures { result ≡ letters_with bank letter k l }
{
    if l == 0 {
        return 0;
    }
    if k == bank {
        letter * 16777216 + l % 16777216
    } else {
        l
    }
}

// The letters of the n payments of a row.
pub fn reletter(row: &mut [u64], n: usize, bank: u64, letter: u64)
    requires { (49 + 3 * n ≤ length row.old) × (letter < 256) }
    ensures { row.new ≡ reletter_from bank letter row.old 49 n }
{
    for i in 0..n {
        let at = 49 + 3 * i;
        row[at + 2] = letters_with(bank, letter, row[at], row[at + 2]);
    }
}

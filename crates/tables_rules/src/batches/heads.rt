// The messages of a row.
ghost use Rattle.std.specs.Prelude.{◌≡◌, ℕ, ◌+◌, ◌*◌, ◌<◌, ◌≤◌, length};
ghost use Rattle.chars.specs.Words.{Says};
ghost use Rattle.book_read.specs.Book.{each};
ghost use Rattle.book_read.specs.Range.{Each};
ghost use Rattle.tables.specs.Rows.{word};
ghost use Rattle.tables_rules.specs.batch_rules.BatchRules.{head_at, RightHead, RightHeads, numbers_of, sizes_of};
ghost use Rattle.tables_rules.specs.payments.Marks.{Below};

use crate::payments::marks;
use codes::Code;

// "reference"; numbers 1 to count; 1 to 10 payments.
fn head_right(row: &[u64], i: usize, count: u64) -> bool
    requires { (length row.now ≡ 349) × (i < 10) }
    ensures { Says (RightHead count (head_at row.now i)) result }
{
    let number = row[11 + 4 * i];
    let size = row[12 + 4 * i];
    let high = row[9 + 4 * i];
    let low = row[9 + 4 * i + 1];
    1 <= number
        && number <= count
        && 1 <= size
        && size <= 10
        && text_names::quick::is_reference(Code { high, low })
}

fn each_right(row: &[u64], n: usize, count: u64) -> bool
    requires { (length row.now ≡ 349) × (n ≤ 10) }
    ensures { Says (Each (RightHead count) (each (head_at row.now) 0 n)) result }
{
    for i in 0..n {
        if !head_right(row, i, count) {
            return false;
        }
    }
    true
}

// Message numbers are distinct.
fn numbers_apart(row: &[u64], n: usize) -> bool
    requires { (length row.now ≡ 349) × (n ≤ 10) }
    ensures { Says (Below 11 (numbers_of (each (head_at row.now) 0 n))) result }
{
    let mut seen = [0u64; 11];
    for i in 0..n {
        if !marks::mark(&mut seen, 11, row[11 + 4 * i]) {
            return false;
        }
    }
    true
}

// How many payments the messages have.
fn total(row: &[u64], n: usize) -> u64
    requires row_len { (length row.now ≡ 349) × (n ≤ 10) }
    requires each { Each (λ h. h.size ≤ 10) (each (head_at row.now) 0 n) }
    ensures { result ≡ sizes_of (each (head_at row.now) 0 n) }
{
    let mut sum: u64 = 0;
    for i in 0..n {
        sum += row[12 + 4 * i];
    }
    sum
}

pub fn heads_right(row: &[u64]) -> bool
    requires { (length row.now ≡ 349) × (word row.now 7 ≤ 10) × (word row.now 4 ≤ 10) }
    ensures { Says (RightHeads row.now) result }
{
    let n = row[7] as usize;
    if !each_right(row, n, row[4]) {
        return false;
    }
    if !numbers_apart(row, n) {
        return false;
    }
    total(row, n) == row[8]
}

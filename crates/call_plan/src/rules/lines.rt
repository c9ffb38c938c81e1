// The payments of a message. Of the banks whose places are taken in the batch the marks are not 0.
ghost use Rattle.std.specs.Prelude.{◌≡◌, ◌+◌, ◌*◌, ◌≤◌, ◌<◌, length, get_or, set, take};
ghost use Rattle.call_plan.specs.rules.Steps.{standing_of, line_on, taken_on, lines_on, marked};

use crate::rules::banks::Banks;
use chars::Refusal;
use request_read::payments::Payment;

// ", already in this batch 87"; the bank's place is taken where nothing is wrong.
#[tactic(auto, using(crate::proofs::rules::LineLaws::taken_below))]
fn line_fault(banks: &Banks, taken: &mut [u64], code: u64) -> Result<(), Refusal>
    requires { banks.now.count ≤ length taken.old }
    ensures value { result ≡ line_on (standing_of banks.now.count banks.now.codes.now banks.now.flags.now banks.now.stream code) taken.old }
    ensures marks { taken.new ≡ taken_on (standing_of banks.now.count banks.now.codes.now banks.now.flags.now banks.now.stream code) taken.old }
{
    let p = banks.standing(code)?;
    if taken[p] != 0 {
        return Err(Refusal::Malformed);
    }
    taken[p] = 1;
    Ok(())
}

// "then each payment in order"
#[tactic(auto, using(crate::proofs::rules::LineLaws::lines_end))]
pub fn lines_fault(
    banks: &Banks,
    taken: &mut [u64],
    lines: [Payment; 10],
    n: usize,
) -> Result<(), Refusal>
    requires { (banks.now.count ≤ length taken.old) × (n ≤ 10) }
    ensures { result ≡ lines_on banks.now.count banks.now.codes.now banks.now.flags.now banks.now.stream taken.old (take n lines) }
{
    for i in 0..n {
        line_fault(banks, taken, lines[i].bank.number)?;
    }
    Ok(())
}

// A place is taken, if it is one of the marks.
fn mark(taken: &mut [u64], place: u64)
    ensures { taken.new ≡ set taken.old place 1 }
{
    let p = place as usize;
    if p < taken.len() {
        taken[p] = 1;
    }
}

// The banks of the row's payments.
pub fn mark_row(row: &[u64], taken: &mut [u64])
    requires { (length row.now ≡ 349) × (get_or row.now 8 0 ≤ 100) }
    ensures { taken.new ≡ marked row.now 49 (get_or row.now 8 0) taken.old }
{
    let n = row[8] as usize;
    for i in (0..n).rev() {
        mark(taken, row[49 + 3 * i]);
    }
}

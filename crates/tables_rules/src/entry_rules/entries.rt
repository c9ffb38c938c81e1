// References and BINs: rows of three words, code and day.
ghost use Rattle.std.specs.Prelude.{◌≡◌, ℕ, ◌+◌, ◌*◌, ◌<◌, ◌≤◌, not, ◌&&◌, length, ◌==◌};
ghost use Rattle.chars.specs.Words.{Says};
ghost use Rattle.book_read.specs.Range.{Each};
ghost use Rattle.codes.specs.Codes.{no_code};
ghost use Rattle.model.specs.State.{no_entry, same_code};
ghost use Rattle.dates.specs.Dates.{is_remembered};
ghost use Rattle.model.specs.Rules.{RightEntry, remembered, Unlike, noted_today};
ghost use Rattle.tables.specs.Rows.{entries_in};
ghost use Rattle.tables_rules.specs.entry_rules.EntryRules.{entry_of, code_of, entries_from, code_right};

use codes::Code;

fn none(high: u64, low: u64, day: u64) -> bool
    ensures { Says (entry_of high low day ≡ no_entry) result }
{
    high == 0 && low == 0 && day == 0
}

// Never used, or a code that the text's rules allow, of a day not after the last opened one.
fn entry_right(high: u64, low: u64, day: u64, last: u64, references: bool) -> bool
    ensures { Says (RightEntry (code_right references) last (entry_of high low day)) result }
{
    if none(high, low, day) {
        return true;
    }
    if last < day {
        return false;
    }
    if references {
        return text_names::quick::is_reference(Code { high, low });
    }
    text_names::quick::is_bin(Code { high, low })
}

pub fn entries_right(t: &[u64], n: usize, last: u64, references: bool) -> bool
    requires { (length t.now ≡ 3 * n) × (n ≤ 2048) }
    ensures { Says (Each (RightEntry (code_right references) last) (entries_in n t.now)) result }
{
    for i in 0..n {
        let high = t[i * 3 + 0];
        let low = t[i * 3 + 1];
        let day = t[i * 3 + 2];
        if !entry_right(high, low, day, last, references) {
            return false;
        }
    }
    true
}

fn noted(high: u64, low: u64, day: u64, today: u64) -> bool
    ensures { result ≡ (not (same_code (entry_of high low day).code no_code) && day == today) }
{
    day == today && (high != 0 || low != 0)
}

// How many entries were noted today.
pub fn noted_today(t: &[u64], n: usize, today: u64) -> usize
    requires { (length t.now ≡ 3 * n) × (n ≤ 2048) }
    ensures { (result ≡ noted_today today (entries_in n t.now)) × (result ≤ n) }
{
    let mut count: usize = 0;
    for i in 0..n {
        let high = t[i * 3 + 0];
        let low = t[i * 3 + 1];
        let day = t[i * 3 + 2];
        if !noted(high, low, day, today) {
            continue;
        }
        count += 1;
    }
    count
}

// A code that is still remembered.
pub fn kept(high: u64, low: u64, day: u64, today: u64) -> bool
    ensures { result ≡ (not (same_code (entry_of high low day).code no_code) && is_remembered day today) }
{
    dates::remembered(day, today) && (high != 0 || low != 0)
}

pub fn same(high: u64, low: u64, other: u64, end: u64) -> bool
    ensures { result ≡ same_code (code_of high low) (code_of other end) }
{
    high == other && low == end
}

// No remembered code from entry `from` on is this one.
pub fn alone(t: &[u64], n: usize, from: usize, high: u64, low: u64, today: u64) -> bool
    requires { (length t.now ≡ 3 * n) × (n ≤ 2048) × (from ≤ n) }
    ensures { Says (Unlike (code_of high low) (remembered today (entries_from t.now n from))) result }
{
    for i in from..n {
        let other = t[i * 3 + 0];
        let end = t[i * 3 + 1];
        let day = t[i * 3 + 2];
        if !kept(other, end, day, today) {
            continue;
        }
        if same(high, low, other, end) {
            return false;
        }
    }
    true
}

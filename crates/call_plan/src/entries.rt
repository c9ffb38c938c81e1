// Remembered references and BINs: rows of three words, the code's two and the day.
ghost use Rattle.std.specs.Prelude.{◌≡◌, ◌∷◌, [], ℕ, ◌+◌, ◌*◌, ◌≤◌, ◌<◌, length};
ghost use Rattle.std.proofs.lemmas.List.Edits.{sets};
ghost use Rattle.model.specs.Memory.{holds, is_vacant};
ghost use Rattle.tables.specs.Rows.{entry_in, entries_in};
ghost use Rattle.call_plan.specs.entries.Looking.{Looks, lowest_of};

use codes::Code;

const WIDTH: usize = 3;

// A code is used; or it is not, and the lowest free place for it is found, or there is none.
#[derive(Clone, Copy)]
pub enum Looked {
    Used,
    Free(usize),
    Full,
}

// Whether a row holds the code of today or of one of the 14 days before.
fn row_holds(row: &[u64], today: u64, code: Code) -> bool
    requires { length row.now ≡ 3 }
    ensures { result ≡ holds today code (entry_in row.now) }
{
    row[0] == code.high && row[1] == code.low && dates::remembered(row[2], today)
}

// "a place is free again when its day is more than 14 days back"
fn row_vacant(row: &[u64], today: u64) -> bool
    requires { length row.now ≡ 3 }
    ensures { result ≡ is_vacant today (entry_in row.now) }
{
    row[0] == 0 && row[1] == 0 || !dates::remembered(row[2], today)
}

// The place found before, or this one where none was and it is vacant.
fn lowest(found: Option<usize>, place: usize, vacant: bool) -> Option<usize>
    ensures { result ≡ lowest_of found place vacant }
{
    if vacant { found.or(Some(place)) } else { found }
}

// "Reference used .. today or on one of the 14 days before", and "the lowest free place", in one pass over the first n rows.
pub fn look(entries: &[u64], n: usize, today: u64, code: Code) -> Looked
    requires { n * 3 ≤ length entries.now }
    ensures { Looks today code (entries_in n entries.now) result }
{
    let mut found = None;
    for i in 0..n {
        let a = i * WIDTH;
        let e = a + WIDTH;
        if row_holds(&entries[a..e], today, code) {
            return Looked::Used;
        }
        let vacant = row_vacant(&entries[a..e], today);
        found = lowest(found, i, vacant);
    }
    match found {
        Some(place) => Looked::Free(place),
        None => Looked::Full,
    }
}

// "A new entry": the code with today's date, at a place.
pub fn note(entries: &mut [u64], place: usize, today: u64, code: Code)
    requires { place * 3 + 3 ≤ length entries.old }
    ensures { entries.new ≡ sets entries.old (place * 3) (code.high ∷ code.low ∷ today ∷ []) }
{
    let a = place * WIDTH;
    entries[a] = code.high;
    entries[a + 1] = code.low;
    entries[a + 2] = today;
}

// Opening and closing book, on the lent accounts.
#![tactic(auto)]

ghost use Rattle.std.specs.Prelude.{◌≡◌, ℕ, ◌*◌, ◌≤◌, ◌<◌, length};
ghost use Rattle.std.proofs.lemmas.List.Edits.{sets};
ghost use Rattle.dates.specs.Dates.{day_of};
ghost use Rattle.book_write.specs.Closing.{book_bytes, blocks_for};
ghost use Rattle.model.specs.Days.{is_later, on_date, opening_answer};
ghost use Rattle.tables.specs.Rows.{streams_on};
ghost use Rattle.tables.specs.Moment.{day_on};
ghost use Rattle.call_day.specs.Opening.{Columns, columns, Full, opened_on, banks_on};

use book_read::Book;
use chars::Refusal;
use model::Phase;
use tables::Desk;

// What an opening answers, and the desk that it leaves.
#[derive(Clone, Copy)]
pub struct Begun {
    pub answer: Result<(), Refusal>,
    pub desk: Desk,
}

// A day is later than the last opened one; any is, where none was opened.
fn is_later(desk: Desk, day: u64) -> bool
    ensures { result ≡ is_later (day_on desk) day }
{
    matches!(desk.phase, Phase::Fresh) || desk.date < day
}

// All four columns are replaced.
fn take_over(
    codes: &mut [u64],
    flags: &mut [u64],
    balances: &mut [u64],
    sublimits: &mut [u64],
    bank: &[u64],
    flag: &[u64],
    balance: &[u64],
    sublimit: &[u64],
)
    requires full { Full (columns codes.old flags.old balances.old sublimits.old) }
    requires full_2 { Full (columns bank.now flag.now balance.now sublimit.now) }
    ensures { columns codes.new flags.new balances.new sublimits.new ≡ columns bank.now flag.now balance.now sublimit.now }
{
    codes.copy_from_slice(bank);
    flags.copy_from_slice(flag);
    balances.copy_from_slice(balance);
    sublimits.copy_from_slice(sublimit);
}

// "An opening": 11 to 15, then the date; else accounts, streams and date are the book's, the clock is set anew, and no text is written yet.
pub fn open_day(
    desk: Desk,
    clock: u64,
    codes: &mut [u64],
    flags: &mut [u64],
    balances: &mut [u64],
    sublimits: &mut [u64],
    input: &[u8],
) -> Begun
    requires { Full (columns codes.old flags.old balances.old sublimits.old) }
    ensures { record { answer = result.answer; desk = result.desk; columns = columns codes.new flags.new balances.new sublimits.new } ≡ opened_on (opening_answer (day_on desk) input.now) desk clock input.now (columns codes.old flags.old balances.old sublimits.old) }
{
    let mut streams = [0u64; 16];
    let mut bank = [0u64; 64];
    let mut flag = [0u64; 64];
    let mut balance = [0u64; 64];
    let mut sublimit = [0u64; 64];
    let reading = book_read::read(
        input,
        &mut streams,
        &mut bank,
        &mut flag,
        &mut balance,
        &mut sublimit,
    );
    match reading {
        Err(f) => Begun {
            answer: Err(f),
            desk,
        },
        Ok(held) => {
            if !is_later(desk, held.day) {
                return Begun {
                    answer: Err(Refusal::WrongMoment),
                    desk,
                };
            }
            take_over(
                codes, flags, balances, sublimits, &bank, &flag, &balance, &sublimit,
            );
            Begun {
                answer: Ok(()),
                desk: Desk {
                    phase: Phase::Open,
                    date: held.day,
                    clock,
                    texts: 0,
                    banks: held.banks,
                    streams,
                    n: held.streams,
                },
            }
        }
    }
}

// The day number of a date; 0 for an untrue one.
fn day_for(date: u64) -> u64
    ensures { result ≡ on_date (day_of date) }
{
    dates::day_of(date).unwrap_or(0)
}

// "A closing book carries the date given": its length; the buffer has room for it.
pub fn give_book(
    desk: Desk,
    codes: &[u64],
    flags: &[u64],
    balances: &[u64],
    sublimits: &[u64],
    date: u64,
    out: &mut [u8],
) -> usize
    requires full { Full (columns codes.now flags.now balances.now sublimits.now) }
    requires le_n { (1 ≤ desk.n) × (desk.n ≤ 8) × (1 ≤ desk.banks) × (desk.banks ≤ 64) }
    requires banks_in_bounds { 512 * blocks_for desk.banks ≤ length out.old }
    ensures { (out.new ≡ sets out.old 0 (book_bytes (on_date (day_of date)) (streams_on desk) (banks_on desk (columns codes.now flags.now balances.now sublimits.now)))) × (result ≡ 512 * blocks_for desk.banks) }
{
    let day = day_for(date);
    let streams = desk.streams;
    let book = Book {
        day,
        streams: desk.n,
        banks: desk.banks,
    };
    book_write::write(out, book, &streams, codes, flags, balances, sublimits).unwrap_or(0)
}

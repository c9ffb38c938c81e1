// 05 and 07: the moment and the room of a call, from the day's scalars by value.
ghost use Rattle.std.specs.Prelude.{◌≡◌, ◌&&◌, ℕ, ◌≤◌};
ghost use Rattle.dates.specs.Dates.{day_of};
ghost use Rattle.model.specs.Days.{right_date};
ghost use Rattle.model.specs.Kinds.{is_opening};
ghost use Rattle.model.specs.Calls.{is_open, is_closed, right_clock, right_day};
ghost use Rattle.tables.specs.Moment.{day_on, moved_to, Needs, Roomy, Judged};

use crate::Desk;
use book_read::Book;
use chars::Refusal;
use clock::Clock;
use model::{Action, Phase};
use response_write::Settlement;
use settle::Batch;

// The most texts of a call: one for each live message, and the 134 of a recall.
const TEXTS: usize = Batch::LIVE * Batch::MESSAGES + 1;

const ROOM: usize = TEXTS * Settlement::LONGEST;

// (a) the clock moves.
pub fn moved(desk: Desk, clock: u64) -> Desk
    ensures { result ≡ moved_to desk clock }
{
    Desk { clock, ..desk }
}

fn is_opening(action: Action) -> bool
    ensures { result ≡ is_opening action }
{
    matches!(action, Action::Opening)
}

// "clock not in 0 to 86,399 or before the last one (an opening sets the clock anew)"
#[tactic(auto, unfolding(clock::specs::Clock::clock_of))]
fn right_clock(desk: Desk, clock: u64, action: Action) -> bool
    ensures { result ≡ right_clock action (day_on desk) clock }
{
    let Some(given) = Clock::new(clock) else {
        return false;
    };
    is_opening(action) || desk.clock <= given.seconds
}

fn is_open(phase: Phase) -> bool
    ensures { result ≡ is_open phase }
{
    matches!(phase, Phase::Open)
}

fn is_closed(phase: Phase) -> bool
    ensures { result ≡ is_closed phase }
{
    matches!(phase, Phase::Closed)
}

// "a closing book's date not true, .. not later than the last opened day's"
fn right_date(desk: Desk, date: u64) -> bool
    ensures { result ≡ right_date (day_on desk) (day_of date) }
{
    match dates::day_of(date) {
        Some(k) => desk.date < k,
        None => false,
    }
}

fn right_closing(desk: Desk, date: u64) -> bool
    ensures { result ≡ (is_closed desk.phase && right_date (day_on desk) (day_of date)) }
{
    is_closed(desk.phase) && right_date(desk, date)
}

// "day not open (an opening wants a fresh start or a closed day, a closing book a closed day)"
fn right_day(desk: Desk, action: Action) -> bool
    ensures { result ≡ right_day action (day_on desk) }
{
    match action {
        Action::Opening => !is_open(desk.phase),
        Action::ClosingBook(date) => right_closing(desk, date),
        _ => is_open(desk.phase),
    }
}

// 05 where this is not.
pub fn right_moment(desk: Desk, clock: u64, action: Action) -> bool
    ensures { result ≡ (right_clock action (day_on desk) clock && right_day action (day_on desk)) }
{
    right_clock(desk, clock, action) && right_day(desk, action)
}

// "output buffer under 33,705 bytes (closing book: under its own length)"
fn room_needed(desk: Desk, action: Action) -> usize
    requires { (desk.banks ≤ 64) × (desk.n ≤ 8) }
    ensures { Needs desk action result }
{
    match action {
        Action::ClosingBook(_) => Book::BLOCK
            * ((desk.banks + (Book::ENTRIES - 1)) / Book::ENTRIES + 1),
        _ => ROOM,
    }
}

// "try row under 528 numbers"
fn has_room(desk: Desk, action: Action, room: usize, rows: usize) -> bool
    requires { (desk.banks ≤ 64) × (desk.n ≤ 8) }
    ensures { Roomy desk action room rows result }
{
    room_needed(desk, action) <= room && Batch::TRIES <= rows
}

// 05, then 07.
pub fn judge(
    desk: Desk,
    clock: u64,
    action: Action,
    room: usize,
    rows: usize,
) -> Result<(), Refusal>
    requires { (desk.banks ≤ 64) × (desk.n ≤ 8) }
    ensures { Judged desk clock action room rows result }
{
    if !right_moment(desk, clock, action) {
        return Err(Refusal::WrongMoment);
    }
    if !has_room(desk, action, room, rows) {
        return Err(Refusal::ShortBuffer);
    }
    Ok(())
}

// Dates of 2000 to 2099. A date is the number YYMMDD; a day number counts from 2000-01-01, which is 0.
#![tactic(auto)]

ghost use Rattle.std.specs.Prelude.{◌≡◌, ◌≤◌};
ghost use Rattle.dates.specs.Dates.{months, days_in, days_before, month_day, day_of, date_of, is_remembered};

// For how many days after its own a thing is remembered.
const DAYS_BACK: u64 = 14;

// The days of a month; 0 for a number that is no month.
pub fn days_in(year: u64, month: u64) -> u64
    ensures value { result ≡ days_in year month }
    ensures small { result ≤ 31 }
{
    match month {
        4 | 6 | 9 | 11 => 30,
        2 => { if year % 4 == 0 { 29 } else { 28 } }
        1..=12 => 31,
        _ => 0,
    }
}

// The day number of YYMMDD, if that is a true date of 2000 to 2099.
pub fn day_of(date: u64) -> Option<u64>
    ensures { result ≡ day_of date }
{
    if 1_000_000 <= date {
        return None;
    }
    let year = date / 10_000;
    let month = date / 100 % 100;
    let day = date % 100;
    if day < 1 || days_in(year, month) < day {
        return None;
    }
    Some(365 * year + (year + 3) / 4 + days_before(year, month) + (day - 1))
}

// The days of a year before a month.
fn days_before(year: u64, month: u64) -> u64
    ensures value { result ≡ days_before year month }
    ensures small { result ≤ 366 }
{
    let mut days = 0;
    for m in 0..month {
        days += days_in(year, m);
    }
    days
}

// MMDD of a day of the year, of which 1 January is 0.
fn month_day(year: u64, day: u64) -> u64
    ensures value { result ≡ month_day 0 (months year) day }
    ensures small { result ≤ 1231 }
{
    let mut place = day;
    for month in 1..13 {
        let days = days_in(year, month);
        if place < days {
            return 100 * month + (place + 1);
        }
        place -= days;
    }
    0
}

// YYMMDD of a day number; 0 past 2099-12-31.
pub fn date_of(day: u64) -> u64
    ensures { result ≡ date_of day }
{
    if 36_525 <= day {
        return 0;
    }
    let year = 4 * day / 1461;
    let start = 365 * year + (year + 3) / 4;
    10_000 * year + month_day(year, day - start)
}

// Whether a thing of that day is remembered today.
pub fn remembered(day: u64, today: u64) -> bool
    ensures { result ≡ is_remembered day today }
{
    day <= today && today - day <= DAYS_BACK
}

// Times of the day. The clock counts seconds from midnight; an activation is a minute of the day.
#![tactic(auto)]

ghost use Rattle.std.specs.Prelude.{◌≡◌};
ghost use Rattle.clock.specs.Clock.{clock_of, has_begun, hhmmss_of, minute_of, hhmm_of, second_of};

#[derive(Clone, Copy)]
pub struct Clock {
    pub seconds: u64,
}

impl Clock {
    pub const DAY: u64 = 86_400;

    pub const HOUR: u64 = 3_600;

    pub const MINUTE: u64 = 60;

    pub fn new(seconds: u64) -> Option<Clock>
        ensures { result ≡ clock_of seconds }
    {
        if seconds < Clock::DAY {
            Some(Clock { seconds })
        } else {
            None
        }
    }

    // Whether a minute of the day has begun.
    pub fn has_begun(self, minute: u64) -> bool
        ensures { result ≡ has_begun self.seconds minute }
    {
        minute <= self.seconds / Clock::MINUTE
    }
}

// The minute of HHMM, 00 to 23 and 00 to 59.
pub fn minute_of(hhmm: u64) -> Option<u64>
    ensures { result ≡ minute_of hhmm }
{
    let hour = hhmm / 100;
    let minute = hhmm % 100;
    if 24 <= hour || 60 <= minute {
        return None;
    }
    Some(Clock::MINUTE * hour + minute)
}

// HHMM of a minute of the day; 0 past the last.
pub fn hhmm_of(minute: u64) -> u64
    ensures { result ≡ hhmm_of minute }
{
    if minute < 1_440 {
        100 * (minute / 60) + minute % 60
    } else {
        0
    }
}

// The second of HHMMSS, 00 to 23, 00 to 59 and 00 to 59.
pub fn second_of(hhmmss: u64) -> Option<u64>
    ensures { result ≡ second_of hhmmss }
{
    let hour = hhmmss / 10_000;
    let minute = hhmmss / 100 % 100;
    let second = hhmmss % 100;
    if 24 <= hour || 60 <= minute || 60 <= second {
        return None;
    }
    Some(Clock::HOUR * hour + (Clock::MINUTE * minute + second))
}

// HHMMSS of a second of the day; 0 past the last.
pub fn hhmmss_of(second: u64) -> u64
    ensures { result ≡ hhmmss_of second }
{
    let Some(clock) = Clock::new(second) else {
        return 0;
    };
    let s = clock.seconds;
    10_000 * (s / Clock::HOUR) + (100 * (s / Clock::MINUTE % 60) + s % Clock::MINUTE)
}

// Classes of bytes, digits, and the refusal numbers.
#![tactic(auto)]

ghost use Rattle.std.specs.Prelude.{◌≡◌, ◌<◌};
ghost use Rattle.chars.specs.Chars.{is_digit, is_letter, is_code, digit_value};
ghost use Rattle.chars.specs.Refusals.{number_of};

// 0-9
pub fn is_digit(b: u8) -> bool
    ensures { result ≡ is_digit b }
{
    b.is_ascii_digit()
}

// A-Z
pub fn is_letter(b: u8) -> bool
    ensures { result ≡ is_letter b }
{
    b.is_ascii_uppercase()
}

// A-Z 0-9
pub fn is_code(b: u8) -> bool
    ensures { result ≡ is_code b }
{
    b.is_ascii_uppercase() || b.is_ascii_digit()
}

// The number that a digit stands for; 0 for a byte that is none.
pub fn digit_value(b: u8) -> u64
    ensures value { result ≡ digit_value b }
    ensures small { result < 10 }
{
    if b.is_ascii_digit() {
        u64::from(b - 48)
    } else {
        0
    }
}

// Why something is refused.
#[derive(Clone, Copy)]
pub enum Refusal {
    Unequal,
    NothingThere,
    Recalled,
    NoRoom,
    WrongMoment,
    BrokenTables,
    ShortBuffer,
    BookLength,
    BookCheck,
    BookHeader,
    OutOfRange,
    BookTotal,
    WrongSender,
    UsedReference,
    UnknownBank,
    SuspendedBank,
    PastDate,
    WrongEsa,
    WrongLetter,
    FutureDate,
    Unsettled,
    Malformed,
    OtherSubType,
}

impl Refusal {
    // Document 01's number of the refusal.
    pub fn number(self) -> u64
        ensures { result ≡ number_of self }
    {
        match self {
            Refusal::Unequal => 1,
            Refusal::NothingThere => 2,
            Refusal::Recalled => 3,
            Refusal::NoRoom => 4,
            Refusal::WrongMoment => 5,
            Refusal::BrokenTables => 6,
            Refusal::ShortBuffer => 7,
            Refusal::BookLength => 11,
            Refusal::BookCheck => 12,
            Refusal::BookHeader => 13,
            Refusal::OutOfRange => 14,
            Refusal::BookTotal => 15,
            Refusal::WrongSender => 73,
            Refusal::UsedReference => 74,
            Refusal::UnknownBank => 76,
            Refusal::SuspendedBank => 77,
            Refusal::PastDate => 78,
            Refusal::WrongEsa => 80,
            Refusal::WrongLetter => 81,
            Refusal::FutureDate => 84,
            Refusal::Unsettled => 86,
            Refusal::Malformed => 87,
            Refusal::OtherSubType => 88,
        }
    }
}

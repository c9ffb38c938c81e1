// The engine's vocabulary: what a call asks for, and what it answers.
#![tactic(auto)]

ghost use Rattle.std.specs.Prelude.{◌≡◌};
ghost use Rattle.model.specs.Answers.{answer_number};

use chars::Refusal;
use codes::Code;

// Where the day stands.
#[derive(Clone, Copy)]
pub enum Phase {
    Fresh,
    Open,
    Closed,
}

// What a call asks for. Text and book are lent beside it.
#[derive(Clone, Copy)]
pub enum Action {
    // A book opens the day.
    Opening,
    // A text from the sender with this number.
    Message(u64),
    // A bank's sub-limit becomes so many cents.
    SubLimit(u64, u64),
    // The ESA letter of a bank's debit in the batch of a BIN.
    Status(u64, Code, u64),
    // Only the clock moves.
    Tick,
    // The day ends.
    Close,
    // The closing book, with this date YYMMDD.
    ClosingBook(u64),
}

// 0 for a call that is carried out, or document 01's number of the refusal.
pub fn number_of(answer: Result<(), Refusal>) -> u64
    ensures { result ≡ answer_number answer }
{
    match answer {
        Ok(()) => 0,
        Err(r) => r.number(),
    }
}

// The banks of the house, before a message of a stream.
ghost use Rattle.std.specs.Prelude.{◌≡◌, [], ◌≤◌, ◌<◌, length};
ghost use Rattle.model.specs.Messages.{is_suspended, is_member};
ghost use Rattle.call_plan.specs.rules.Steps.{banks_house, standing_of};

use crate::rules::places;
use chars::Refusal;

// The codes and flags of the first so many places, and the stream that the message is of.
#[derive(Clone, Copy)]
pub struct Banks<'a> {
    pub codes: &'a [u64],
    pub flags: &'a [u64],
    pub count: usize,
    pub stream: usize,
    ghost held: { (count ≤ length codes.now) × (count ≤ length flags.now) },
    ghost served: { stream ≤ 8 },
}

impl<'a> Banks<'a> {
    fn is_suspended(&self, place: usize) -> bool
        requires { place < self.now.count }
        ensures { result ≡ is_suspended (banks_house 0 [] self.now.flags.now) place }
    {
        places::is_suspended(self.flags, place)
    }

    fn is_member(&self, place: usize) -> bool
        requires { place < self.now.count }
        ensures { result ≡ is_member (banks_house 0 [] self.now.flags.now) self.now.stream place }
    {
        places::is_member(self.flags, self.stream, place)
    }

    // The place of a bank that may pay, or why it may not: "bank unknown 76, suspended 77, not in the stream 76"
    #[tactic(auto, unfolding(crate::specs::rules::Steps::standing_of))]
    pub fn standing(&self, code: u64) -> Result<usize, Refusal>
        ensures { result ≡ standing_of self.now.count self.now.codes.now self.now.flags.now self.now.stream code }
    {
        let p = places::bank_place(self.codes, self.count, code).ok_or(Refusal::UnknownBank)?;
        if self.is_suspended(p) {
            return Err(Refusal::SuspendedBank);
        }
        if !self.is_member(p) {
            return Err(Refusal::UnknownBank);
        }
        Ok(p)
    }
}

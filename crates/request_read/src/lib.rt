// The reader of requests (131, 133), from its terms and payments to the whole.
#![tactic(auto)]

pub mod parts;
pub mod payments;
pub mod terms;
pub mod whole;

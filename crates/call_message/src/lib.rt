// A message's action: its plan made and carried out.
#![tactic(auto)]

pub mod outcome;
pub mod receive;

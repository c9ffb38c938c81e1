// The codes that a text allows as a reference or a BIN, and a quick test of them.
#![tactic(auto)]

pub mod quick;
pub mod rules;

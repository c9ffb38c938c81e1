// A call: 06, 05, 07, then the action, (a) to (d).
#![tactic(auto)]

pub mod action;
pub mod entry;
pub mod premises;
pub mod queue_test;
pub mod step;

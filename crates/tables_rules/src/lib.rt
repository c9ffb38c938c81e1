// The table rules over what is lent, and their one test.
#![tactic(auto)]

pub mod batch_rules;
pub mod batches;
pub mod entry_rules;
pub mod payments;
pub mod whole;

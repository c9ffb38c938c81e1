// What is to be done with a message, before anything is changed.
#![tactic(auto)]

pub mod entries;
pub mod plan;
pub mod rules;

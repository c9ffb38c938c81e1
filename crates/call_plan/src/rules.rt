// The tests of a message, before it comes into its batch.
mod banks;
mod lines;
pub mod messages;
pub mod places;
pub mod words;

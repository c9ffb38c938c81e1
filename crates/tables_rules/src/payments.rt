// The table rules of a row's payments: each test is true exactly where its rule holds.
mod letters;
pub mod marks;
pub mod money;

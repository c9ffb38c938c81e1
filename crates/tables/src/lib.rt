// The lent tables and the day's scalars.
#![tactic(auto)]

pub mod house;
pub mod moment;
pub mod places;

use model::Phase;

// The day's scalars, by value. Of the streams the first n are in use: code and administrator of each.
#[derive(Clone, Copy)]
pub struct Desk {
    pub phase: Phase,
    pub date: u64,
    pub clock: u64,
    pub texts: u64,
    pub banks: usize,
    pub streams: [u64; 16],
    pub n: usize,
}

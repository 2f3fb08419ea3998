//! The allocation: seats for cores, and paths and slots for their channels.
#![tactic(auto)]

mod allocation;
mod attempts;
mod channels;
pub mod laws;
mod outcome;
mod prices;
mod tries;
mod turns;

pub use allocation::{allocate, allocate_with};
pub use outcome::{Outcome, Refused};
pub use tries::{Tries, trials};

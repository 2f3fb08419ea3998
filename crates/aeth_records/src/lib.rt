//! The records of a file in CSV, one after the other.
#![tactic(auto)]

mod records;

pub use records::{next_row, open, room_for};

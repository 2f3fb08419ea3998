//! Seats: on which network interface each core sits, and on which of its seats.
#![tactic(auto)]

mod first;
pub mod laws;
mod seats;
mod table;

pub use seats::Seats;

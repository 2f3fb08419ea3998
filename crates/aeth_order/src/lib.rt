//! The order in which units take their turns.
#![tactic(auto)]

mod grid;
mod keys;
pub mod laws;
mod sorted;
mod units;

pub use keys::UnitKeys;
pub use units::{Units, next};

//! The network that the program simulates, as a machine.
#![tactic(auto)]

mod machine;
mod network;

pub use network::{Network, simulate, simulate_counted};

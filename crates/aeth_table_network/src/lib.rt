//! The network whose routers have slot tables, with the tables of each use case by an accepted plan.
#![tactic(auto)]

pub mod laws;
mod machine;
mod network;
mod rows;

pub use network::{TableNetwork, simulate_tables};

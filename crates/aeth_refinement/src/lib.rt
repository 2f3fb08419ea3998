//! The components of a network, seen as the law on networks sees them, follow it from cycle to cycle.
#![tactic(auto)]

pub mod laws;

//! The routed sessions of accepted inputs: a chip's wires, and the sessions of a plan over them.
#![tactic(auto)]

pub mod laws;

//! What a run of accepted inputs gives the components of its chip, and its sessions as they go.
#![tactic(auto)]

pub mod laws;

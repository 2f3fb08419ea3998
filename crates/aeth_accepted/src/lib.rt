//! What accepted inputs give: a run that is sound, whose channels keep what the tables print.
#![tactic(auto)]

mod inputs;
pub mod laws;

pub use inputs::{BorrowedTraces, RunInputs};

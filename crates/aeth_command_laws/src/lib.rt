//! What the jobs of commands tell of the files that they read, over the definitions alone: nothing
//! here executes.
#![tactic(auto)]

pub mod laws;

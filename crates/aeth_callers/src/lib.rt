//! Callers of the crates that are of use alone, as their pages CALLING.md have them.
#![tactic(auto)]

#[cfg(test)]
mod answers;
mod clocked;
mod paths;
mod plans;
mod server;
mod slots;

pub use clocked::step;
pub use paths::shortest;
pub use plans::accepted_plan;
pub use server::safe_buffer;
pub use slots::slots_beside;

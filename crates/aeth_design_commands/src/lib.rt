//! The commands on designs: slots and their latency, chips, applications, their allocation, and the
//! check of a plan.
#![tactic(auto)]

mod allocate;
mod app;
mod check;
mod chip;
mod command;
mod server;
mod slots;

pub use allocate::refusals;
pub use command::DesignCommand;

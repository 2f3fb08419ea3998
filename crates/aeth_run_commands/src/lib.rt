//! The commands that play runs: the log of a run by its files, in a network of either kind, and a large
//! run that is made from a number.
#![tactic(auto)]

mod command;
mod demo;
mod simulate;
mod traced_designs;

pub use command::RunCommand;
pub use simulate::SimulatedRun;
pub use traced_designs::{TracedDesign, files_named, read_traced};

//! The command on refusals: why channels were refused, by certificates, and whether those of a text
//! are complete.
#![tactic(auto)]

mod command;
mod confirm;
mod explain;

pub use command::ExplainCommand;

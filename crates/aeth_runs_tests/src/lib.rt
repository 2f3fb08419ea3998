//! Tests of what a run reads and shows: traces channel by channel, worked texts, audits and chains from the definitions,
//! timelines, and programs.
#![tactic(auto)]

pub mod audits;
pub mod chains;
#[cfg(test)]
mod channels;
#[cfg(test)]
mod designs;
#[cfg(test)]
mod programs;
#[cfg(test)]
mod rows;
pub mod texts;
#[cfg(test)]
mod timelines;
#[cfg(test)]
mod two;

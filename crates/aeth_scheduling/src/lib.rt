//! The schedule of a run: what its switches do to tables and queues, cycle by cycle, and when its sessions go, made
//! before the first cycle.
#![tactic(auto)]

mod changes;
mod closing;
mod durations;
mod entering;
mod lines;
mod placing;
mod rooms;
mod schedule;
mod session_start;
mod switching;
mod task;
mod timed;
mod windows;

pub use schedule::{is_entered, schedule_of};

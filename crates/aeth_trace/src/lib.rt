//! Traces: the words, the receivers' pulls and the switches of a run, as files in CSV tell them.
#![tactic(auto)]

mod by_channel;
mod columns;
mod fault;
mod fields;
mod found;
mod judging;
pub mod laws;
mod receivers;
mod row;
mod spans;
mod switches;
mod table;
mod words;

pub use fault::TraceFault;
pub use fields::number_to;
pub use receivers::{MAX_PULL, PullRow, Receivers, pull, read_receivers};
pub use spans::Spans;
pub use switches::{MAX_SWITCH_ROWS, SwitchRow, Switches, go_after, read_switches};
pub use words::{MAX_ROWS, MAX_VALUE, WordRow, Words, read_words};

//! Network interfaces: words and credits sent in their own slots, and landed.
#![tactic(auto)]

mod interface;
pub mod laws;
mod queue;
mod row;
mod write;

pub use interface::{Ni, QUEUES_OF_INTERFACE};
pub use queue::WAITING_WORDS;
pub use row::ChannelRow;
pub use write::Write;

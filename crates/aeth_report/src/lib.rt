//! What a run shows: the sessions of its channels, the flits that links carry, the log and its text.
#![tactic(auto)]

pub mod laws;
mod lines;
mod log;
mod session;
mod text;

pub use log::{ChannelLog, Landing, SessionLog, SimLog};
pub use session::{Close, Session};
pub use text::{push_landings, sim_text};

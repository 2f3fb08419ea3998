//! Judging a log of the links: whether each flit in it is one that the network of an accepted plan
//! may carry there.
#![tactic(auto)]

mod auditing;
mod fault;
mod judge;
mod judging;
pub mod laws;
mod lines;
mod log;
mod places;
mod reading;
mod row;
mod rules;
mod sessions;
mod starts;
mod table;
mod verdict;

pub use auditing::audit;
pub use fault::LogFault;
pub use lines::push_row;
pub use log::{LinkLog, MAX_LINK_ROWS, read_log};
pub use row::LinkRow;
pub use verdict::Audit;

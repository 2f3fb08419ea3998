//! Switches between use cases: the writes to the tables of the interfaces, and the sessions of each
//! connection.
#![tactic(auto)]

pub mod laws;
mod timeline;
mod times;
mod writes;

pub use aeth_report::{Close, Session};
pub use timeline::Timeline;
pub use times::{close_by, go_by};
pub use writes::program;

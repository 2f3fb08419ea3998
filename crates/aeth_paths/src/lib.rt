//! The first path of least cost for a channel, among all that are allowed.
#![tactic(auto)]

mod cost;
mod ends;
pub mod laws;
mod least;
mod pairs;
mod prefix;
mod priced;
mod request;
mod search;
mod trial;

pub use cost::Cost;
pub use pairs::{find, find_counted};
pub use request::{Found, Request};
pub use trial::Trial;

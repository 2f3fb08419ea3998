//! Groups of use cases that smooth switches join, which connections are together in a group, and
//! the grants and seats that a plan is made of.
#![tactic(auto)]

mod closing;
mod grant;
mod groups;
pub mod laws;
mod numbering;
mod rows;
mod use_group;

pub use grant::{Grant, SeatLine};
pub use groups::Groups;

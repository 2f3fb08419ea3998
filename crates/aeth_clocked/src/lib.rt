//! Components that drive and latch, one after the other, with one result in every order.
#![tactic(auto)]

mod chosen;
mod clocked;
mod cycle;
mod flit;
mod order;
mod wires;

pub use chosen::{drive_some, latch_some};
pub use clocked::Clocked;
pub use cycle::{drive_all, latch_all};
pub use flit::Flit;
pub use order::Order;
pub use wires::Wires;

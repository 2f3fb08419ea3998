//! Chips: their slot table size, routers, network interfaces and links, as a file tells them.
#![tactic(auto)]

mod chip;
mod delays;
mod distances;
mod fault;
mod index;
mod keys;
pub mod laws;
mod levels;
mod links;
mod lists;
mod making;
mod node;
mod paths;
mod ports;
mod reading;
mod summary;
mod wires;

pub use aeth_base::{Broken, BrokenRule, Fault, Shown};
pub use chip::{Chip, MAX_LINKS, MAX_NIS, MAX_PORTS, MAX_ROUTERS, MAX_SLOTS_OF_VERSION_1};
pub use distances::Distances;
pub use fault::ChipFault;
pub use node::{Link, Node};
pub use reading::read_chip;
pub use summary::Summary;

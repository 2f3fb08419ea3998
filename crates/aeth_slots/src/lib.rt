//! Sets of slots of a slot table, and the choice of slots out of the free ones.
#![tactic(auto)]

mod choice;
mod cyclic;
mod members;
mod slot_set;

pub use choice::choose;
pub use members::Members;
pub use slot_set::SlotSet;

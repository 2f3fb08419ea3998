//! Servers that send in the slots of a table: their latency, buffers, due cycles and bounds.
#![tactic(auto)]

mod due_times;
pub mod laws;
mod private_server;
mod service_latency;
mod shape;
mod slot_cycles;

pub use due_times::{Due, deadline};
pub use private_server::{Alone, AloneStep};
pub use service_latency::latency;
pub use shape::{ChannelShape, buffer};
pub use slot_cycles::next_slot;

//! The components of a network, the sessions of its channels, and what one cycle makes of them.
#![tactic(auto)]

mod beside;
mod channel_state;
mod channels;
mod components;
mod counting;
mod counts;
mod cycle;
mod driving;
mod ends;
mod enqueuing;
mod event;
mod forwarding;
mod homes;
mod injecting;
mod landing;
pub mod laws;
mod making;
mod noted;
mod parts;
mod phases;
mod queues;
mod replacing;
mod sending;
mod slot_marks;
mod turns;
mod worklist;

pub use channel_state::{ChannelEnd, ChannelState};
pub use components::Components;
pub use event::Event;
pub use making::RouterKind;

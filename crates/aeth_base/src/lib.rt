//! Numbers, names, paths and ids, want of memory, and the words and lemmas that every other crate
//! cites.
#![tactic(auto)]

mod fault;
mod ids;
mod limits;
mod marked;
mod marks;
mod memory;
mod name;
mod names;
mod number;
mod path;
mod shown;
mod steps;

pub use fault::{BrokenRule, Fault};
pub use ids::{Channel, ConnId, CoreId, GroupId, LinkId, NiId, RouterId, Side, Unit, UseId};
pub use limits::{
    CREDITS_PER_FLIT, MAX_CYCLES, MAX_LINK_DELAY, MAX_NAME_BYTES, MAX_PATH_DELAY, MAX_PATH_LINKS,
    MAX_QUEUE_WORDS, MAX_RECEIVER_DELAY, MAX_SLOTS, MIN_PATH_LINKS, WORDS_PER_FLIT,
};
pub use marked::Marked;
pub use marks::Marks;
pub use memory::NoMemory;
pub use name::Name;
pub use names::Names;
pub use number::{ceil_div, push_number, read_number};
pub use path::Path;
pub use shown::{Broken, Shown, shown_text};
pub use steps::Steps;

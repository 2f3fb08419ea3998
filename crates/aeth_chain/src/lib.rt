//! Chains of forwarding cores: their items, as a word tells them and by the rules that they keep; their rate and
//! latency, and the landings of a run.
#![tactic(auto)]

mod bound;
mod channels;
mod fault;
mod item;
mod items;
mod landing;
mod lane;
pub mod laws;
mod log;
mod names;
mod passing;
mod run;
mod shapes;
mod text;
mod word;

pub use bound::{ChainBound, chain_bound};
pub use fault::{ChainFault, ItemRule};
pub use item::ChainItem;
pub use items::chain_items;
pub use log::ChainLog;
pub use names::{ItemName, ItemNames};
pub use passing::Offer;
pub use run::run_chain;
pub use shapes::chain_shapes;
pub use text::chain_text;
pub use word::item_names;

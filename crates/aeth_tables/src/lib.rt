//! The tables of the network interfaces in a use case by an accepted plan, their text, and how long
//! switches between use cases take.
#![tactic(auto)]

mod buffering;
mod changes;
mod entries;
mod finding;
mod granted;
pub mod laws;
mod lines;
mod making;
mod printing;
mod promised;
mod queues;
mod route;
mod rows;
mod switching;
mod table;

pub use buffering::{Buffer, buffers};
pub use making::tables;
pub use printing::table_text;
pub use route::route_along;
pub use switching::spans;
pub use table::Tables;

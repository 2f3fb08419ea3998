//! The tables of routers that look a table up, in a use case by an accepted plan, and their text.
#![tactic(auto)]

mod hops;
pub mod laws;
mod lines;
mod printing;
mod rows;

pub use aeth_router::RouterRow;
pub use printing::route_text;
pub use rows::router_rows;

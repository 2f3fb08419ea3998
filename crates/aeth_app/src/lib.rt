//! Applications: their cores, connections and use cases, as a file tells them, and what each
//! connection needs in slots.
#![tactic(auto)]

mod app;
mod connection;
mod demands;
mod ends;
mod fault;
mod keys;
pub mod laws;
mod names;
mod parts;
mod ranges;
mod rates;
mod reading;
mod repeats;
mod unknown;
mod use_case;

pub use app::{
    App, MAX_CONNECTIONS, MAX_CORE_CONNECTIONS, MAX_CORES, MAX_DETOUR, MAX_USES, MIN_USES,
    SEATS_PER_NI,
};
pub use connection::{Connection, Core, MAX_LATENCY, MAX_PER, MAX_WORDS, Price, Wish};
pub use fault::AppFault;
pub use reading::read_app;

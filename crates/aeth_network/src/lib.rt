//! A network, cycle by cycle, and the log of its run.
#![tactic(auto)]

mod beginning;
mod given;
mod giving;
mod logging;
mod making_log;
mod network;
mod next;
mod places;
mod routing;
mod rows;
mod simulating;
mod state;
mod tables;
mod windows;

pub use beginning::UnloggedNetwork;
pub use network::RoutedNetwork;
pub use simulating::{simulate, simulate_counted};
pub use tables::{UseRows, UseTables};

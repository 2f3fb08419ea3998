//! What a run is simulated with: a machine that is made of accepted inputs, played, and asked for its log;
//! and what the log comes to.
#![tactic(auto)]

mod machine;
mod playing;
mod totals;
mod traces;

pub use machine::Machine;
pub use playing::played;
pub use totals::{flits, landings, late, offered, outside};
pub use traces::Traces;

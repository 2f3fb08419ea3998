//! The commands: from the words of a command line to the bytes that are written, and the status; and the headline, which
//! is what the program keeps of what it prints.
#![tactic(auto)]

mod commands;
mod headline;
pub mod laws;
mod program;

pub use aeth_answers::Status;
pub use aeth_demo::{DemoTexts, demo_texts};
pub use headline::start;
pub use program::run;

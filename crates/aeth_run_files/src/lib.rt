//! The files of runs, read and judged one after the other: an accepted plan, and the traces for it.
#![tactic(auto)]

mod files;
mod runs;
mod traces;

pub use files::{
    read_receivers_file, read_switches_file, read_words_file, receivers_in, switches_in, words_in,
};
pub use runs::{Run, RunFiles, read_run};

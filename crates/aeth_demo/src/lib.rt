//! The files of a large run, made from a number.
#![tactic(auto)]

mod draws;
mod mesh;
mod pieces;
mod streams;
mod texts;
mod traces;

pub use texts::{DEMO_CYCLES, DemoTexts, MAX_DEMO_NUMBER, demo_texts};

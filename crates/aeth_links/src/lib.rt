//! What the links carry in a run, as a log of links: each flit with the link and the cycle in which it enters it.
#![tactic(auto)]

pub mod laws;
mod text;

pub use text::links_text;

//! The independent check of a plan: seven rules on a finished plan, without search and book.
#![tactic(auto)]

mod channels;
mod conflicts;
mod grants;
mod judging;
pub mod laws;
mod lines;
mod masks;
mod routes;
mod seating;
mod seats;
mod verdict;

pub use judging::check;
pub use verdict::Verdict;

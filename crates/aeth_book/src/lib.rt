//! The grants of an allocation, and which starts they leave free.
#![tactic(auto)]

mod book;
mod changes;
mod making;

pub use book::Book;

//! Texts of lines, words and lists, read and printed.
#![tactic(auto)]

mod fields;
mod line_numbers;
mod numbers;
mod parts;
mod printing;
mod writing;

pub use fields::{ascending_in, links_in, number_in, side_in};
pub use line_numbers::line_after;
pub use parts::{next_line, next_word};
pub use printing::{push_item, push_links, push_side};
pub use writing::{write_field, write_text};

//! What commands are answered with: words that are read, files that are read and judged, statuses, and
//! texts, which are written.
#![tactic(auto)]

mod answer;
mod files;
mod status;
mod text;
mod words;
mod writing;

pub use answer::{Answer, Stop, ended};
pub use files::{judged, read_file};
pub use status::Status;
pub use text::{push_count, push_slots, push_total};
pub use words::{FileName, number_in, slots_in};
pub use writing::end_with;

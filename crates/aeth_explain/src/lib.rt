//! Certificates of refusals: why no path that a channel's try may take has suitable free slots.
#![tactic(auto)]

mod certificate;
mod cuts;
mod cuts_fault;
mod judge;
mod known_lines;
pub mod laws;
mod open_paths;
mod order;
mod places;
mod reading;
mod senders;
mod slot_tables;
mod taken;
mod text_lines;
mod text_printing;
mod text_reading;
mod try_judge;
mod try_line;
mod verdict;
mod walks;

pub use certificate::{certify, certify_with};
pub use cuts::Cuts;
pub use cuts_fault::CutsFault;
pub use judge::{verify, verify_with};
pub use reading::{read_blocks, read_cuts};
pub use slot_tables::SlotTables;
pub use text_printing::{cuts_text, push_block, push_end, push_head};
pub use try_judge::TryJudge;
pub use try_line::TryLine;
pub use verdict::CutVerdict;

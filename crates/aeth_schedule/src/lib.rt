//! What a run does to tables and queues, cycle by cycle, and its sessions in the order in which they go: a
//! schedule as a value, and the words of contracts that speak of it.
#![tactic(auto)]

mod lines;
mod placing;
mod schedule;
mod session_start;
mod timed;
mod windows;

pub use lines::{Line, Lines, end_of, lines_in};
pub use placing::{backward, forward, number_of, values};
pub use schedule::Schedule;
pub use session_start::{SessionStart, SessionStartByLine, SessionStartList, SessionStarts};
pub use timed::{Closing, Timed};
pub use windows::Window;

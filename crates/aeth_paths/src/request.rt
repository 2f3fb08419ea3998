// What a channel asks for, and what is found for it.

use aeth_base::{NiId, Path, Side, Unit};
use aeth_slots::SlotSet;

/// What a channel asks of a path: so many slots (`need`), so many cycles from a word's offer to its
/// landing (`latency`), and at most so many links more than the least number (`detour`).
#[derive(Clone, Copy)]
pub struct Request {
    pub unit: Unit,
    pub side: Side,
    pub need: u32,
    pub latency: u32,
    pub detour: u32,
}

/// A path from a network interface to a network interface, and slots that are free on it.
#[derive(Clone, Copy)]
pub struct Found {
    pub from: NiId,
    pub to: NiId,
    pub path: Path,
    pub slots: SlotSet,
}

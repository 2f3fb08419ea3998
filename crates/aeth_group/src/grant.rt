// What a plan is made of.

use aeth_base::{CoreId, NiId, Path, Side, Unit};
use aeth_slots::SlotSet;

/// A reservation of slots along a path, for one side of a unit. After Æthereal (2005).
#[derive(Clone, Copy)]
pub struct Grant {
    pub unit: Unit,
    pub side: Side,
    pub path: Path,
    /// The starts: the slots in which flits enter the first link of the path.
    pub slots: SlotSet,
}

/// Where a core is seated: on which network interface, after UMARS (2005), and on which of its four
/// seats.
#[derive(Clone, Copy)]
pub struct SeatLine {
    pub core: CoreId,
    pub ni: NiId,
    /// 0 to 3.
    pub seat: u8,
}

// The writes by which the tables of an interface change.

use aeth_base::NiId;

/// One write to the tables of a network interface.
#[derive(Clone, Copy, PartialEq)]
pub enum Write {
    /// No queue injects in this slot any more.
    ClearSlot {
        ni: NiId,
        slot: u32,
    },
    /// The queue has no route any more.
    ClearRoute {
        ni: NiId,
        queue: u8,
    },
    /// The queue has this route, this queue at the other end and this counter, and may inject.
    SetRoute {
        ni: NiId,
        queue: u8,
        route: u32,
        remote: u8,
        credits: u32,
    },
    /// The queue injects in this slot.
    SetSlot {
        ni: NiId,
        slot: u32,
        queue: u8,
    },
}

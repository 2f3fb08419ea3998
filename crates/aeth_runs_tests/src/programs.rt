// What no clause says: that programs are made where memory is left, and their writes, one by one.
ghost use Rattle.std.specs.Prelude.{◌<◌};

use aeth_base::{Channel, ConnId, NiId, Side};
use aeth_ni::{ChannelRow, Write};
use aeth_reconf::program;
use aeth_slots::SlotSet;
use std::alloc::Global;
use std::test::*;

const NI: NiId = NiId(0);

// Two slots of a table of 8.
fn two_slots(first: u32, second: u32) -> SlotSet
    requires first { first < 8 }
    requires second { second < 8 }
{
    let mut slots = SlotSet::empty(8);
    slots.insert(first);
    slots.insert(second);
    slots
}

// The row of the channel forward of a connection from interface 0.
fn row(conn: u32, queue: u8, slots: SlotSet, remote: u8, credits: u32) -> ChannelRow {
    ChannelRow {
        channel: Channel {
            conn: ConnId(conn),
            side: Side::Fwd,
        },
        ni: NI,
        queue,
        slots,
        route: 1,
        remote,
        credits,
    }
}

// The writes of a program that closes slots 0 and 4 of queue 0 and opens slots 1 and 6 of queue 8.
static WRITES: [Write; 6] = [
    Write::ClearSlot { ni: NI, slot: 0 },
    Write::ClearSlot { ni: NI, slot: 4 },
    Write::ClearRoute { ni: NI, queue: 0 },
    Write::SetRoute {
        ni: NI,
        queue: 8,
        route: 1,
        remote: 9,
        credits: 5,
    },
    Write::SetSlot {
        ni: NI,
        slot: 1,
        queue: 8,
    },
    Write::SetSlot {
        ni: NI,
        slot: 6,
        queue: 8,
    },
];

// Whether the program is made, and of these writes.
fn is_program(
    alloc: Global,
    closing: &[ChannelRow],
    opening: &[ChannelRow],
    expected: &[Write],
) -> bool {
    match program(alloc, closing, opening) {
        Ok(writes) => writes.as_slice() == expected,
        Err(_) => false,
    }
}

#[test]
fn a_channel_closes_before_another_opens(rt: HostRuntime) {
    let closing = [row(0, 0, two_slots(0, 4), 8, 9)];
    let opening = [row(1, 8, two_slots(1, 6), 9, 5)];
    assert!(rt; is_program(rt.alloc(), &closing, &opening, &WRITES));
}

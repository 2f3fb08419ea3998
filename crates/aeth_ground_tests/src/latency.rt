// The latency of slot sets, worked by hand.

use crate::slot_set::set_of;
use aeth_server::latency;
use aeth_slots::SlotSet;

// The latency of these slots, where they can carry the rate.
fn latency_of(slots: &SlotSet, cap: u32, rate: u32) -> Option<u32> {
    if cap < 1 || cap > 15 {
        return None;
    }
    if rate < 1 || u64::from(rate) > u64::from(cap) * u64::from(slots.count()) {
        return None;
    }
    Some(latency(slots, cap, rate))
}

// A table size, slots, words a slot, a rate in words per table, and the latency in cycles.
static WORKED: [(u32, &[u32], u32, u32, u32); 13] = [
    (8, &[0, 4], 2, 4, 1),
    (8, &[0, 1], 2, 4, 4),
    (8, &[2], 15, 4, 5),
    (8, &[0, 2, 5], 2, 4, 0),
    (8, &[0], 15, 4, 5),
    (8, &[0], 2, 2, 3),
    (8, &[0, 4], 15, 2, 0),

    // The second slot from cycle 1 on is the latest.
    (16, &[0, 6, 11, 14], 2, 8, 4),
    (1, &[0], 2, 2, 0),
    (64, &[63], 2, 2, 31),
    (128, &[127], 2, 2, 63),
    (128, &[0, 64], 2, 4, 31),
    (128, &[0, 1], 2, 4, 94),
];

// The table size, the words a slot and the rate of the first row whose latency is another.
fn first_other_latency() -> Option<(u32, u32, u32)> {
    for &(size, slots, cap, rate, theta) in &WORKED {
        if latency_of(&set_of(size, slots), cap, rate) != Some(theta) {
            return Some((size, cap, rate));
        }
    }
    None
}

#[test]
fn worked_latencies(rt: HostRuntime) {
    assert_eq!(rt; first_other_latency(), None);
}

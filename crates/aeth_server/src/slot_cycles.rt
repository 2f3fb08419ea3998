// The next cycle of a slot set.
ghost use Rattle.std.specs.Prelude.{◌≤◌, ◌*◌, length};
ghost use Rattle.aeth_base.specs.Limits.{max_cycles};
ghost use Rattle.aeth_server.specs.SlotCycles.{IsNextCycle};

use aeth_slots::SlotSet;

/// The first cycle at or after `t`, of cycles 0 to 2,000,000, whose slot is in the set, which isn't
/// empty. It takes constant time.
pub fn next_slot(slots: &SlotSet, t: u32) -> u32
    requires some { 1 ≤ length slots.now.slots }
    requires early { t ≤ 2 * max_cycles }
    ensures { IsNextCycle slots.now.size slots.now.slots t result }
{
    let size = slots.size();
    let from = t % size;
    match slots.at_or_after(from) {
        Some(slot) => t + (slot - from),
        None => t + (size - from) + slots.at_or_after(0).unwrap_or(0),
    }
}

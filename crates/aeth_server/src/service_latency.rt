// The latency of a slot set.
ghost use Rattle.std.specs.Prelude.{◌≡◌, ℕ, ◌*◌, ◌≤◌, length};
ghost use Rattle.aeth_base.specs.Limits.{credits_per_flit, max_slots};
ghost use Rattle.aeth_server.specs.Latency.{BoundsService, latency_of};

use aeth_slots::SlotSet;

/// The latency, in cycles, of a server that sends up to `cap` words in each of these slots and
/// keeps a rate of `rate` words per table: the least with which every slot, from every cycle on,
/// comes in time. A slot carries 1 to 15 words, and the rate is from 1 to what all slots carry. It
/// takes about as many steps as there are slots.
/// After the latency-rate server (Stiliadis and Varma, 1998), for whole words.
pub fn latency(slots: &SlotSet, cap: u32, rate: u32) -> u32
    requires least_cap { 1 ≤ cap }
    requires most_cap { cap ≤ credits_per_flit }
    requires least_rate { 1 ≤ rate }
    requires capacity { rate ≤ cap * length slots.now.slots }
    ensures enough { BoundsService slots.now.size slots.now.slots cap rate result }
    ensures least { (theta : ℕ) → BoundsService slots.now.size slots.now.slots cap rate theta
        → result ≤ theta }
    ensures gives { result ≡ latency_of slots.now.size slots.now.slots cap rate }
    ensures within { result ≤ slots.now.size }
    ensures most { result ≤ max_slots }
{
    let size = slots.size();
    let mut late = 0;

    // How far the slots so far are behind the rate, in words times the table size, from the cycle on
    // from which they are furthest. From the second table on it is the same as a table before.
    let mut behind = 0;
    let mut cycle = 0;
    'cycles: while cycle < 2 * size {
        let here = cycle % size;
        match slots.at_or_after(here) {
            Some(slot) => {
                behind += rate * (slot - here);
                late = late.max(behind.saturating_sub(size));
                behind = (behind + rate).saturating_sub(cap * size);
                cycle += slot - here + 1;
            }
            None => {
                behind += rate * (size - here);
                cycle += size - here;
            }
        }
    }
    late.div_ceil(rate)
}

// What no clause says: that the definition of the chosen set means what the rule says. It is
// compared with a plain enumeration of all subsets of small tables, each as a mask of its slots.
ghost use Rattle.std.specs.Prelude.{◌≡◌, ◌<◌, ◌≤◌};

use aeth_slots::{SlotSet, choose};

/// The set of those slots whose bit is in the mask.
fn set_of(size: u32, mask: u32) -> SlotSet
    requires some { 1 ≤ size }
    requires within { size ≤ 32 }
    ensures { result.size ≡ size }
{
    let mut set = SlotSet::empty(size);
    for slot in 0..size {
        if mask >> slot & 1 == 1 {
            set.insert(slot);
        }
    }
    set
}

/// The mask of a set's slots.
fn mask_of(set: &SlotSet) -> u32 {
    let mut mask = 0;
    for slot in set.iter() {
        if slot < 32 {
            mask |= 1 << slot;
        }
    }
    mask
}

/// How far the next one is after a slot, step by step round the table.
fn distance(size: u32, mask: u32, slot: u32) -> u32
    requires some { 1 ≤ size }
    requires within { size ≤ 32 }
    requires slot { slot < size }
{
    for steps in 1..size {
        if mask >> ((slot + steps) % size) & 1 == 1 {
            return steps;
        }
    }
    size
}

/// Whether the mask has the slots that are needed and no gap above the limit.
fn is_suitable(size: u32, mask: u32, need: u32, gap: u32) -> bool
    requires some { 1 ≤ size }
    requires within { size ≤ 32 }
{
    if mask == 0 || mask.count_ones() < need {
        return false;
    }
    for slot in 0..size {
        if mask >> slot & 1 == 1 && distance(size, mask, slot) > gap {
            return false;
        }
    }
    true
}

/// Whether one mask comes before another: with fewer slots, or with as many and the lower slot
/// where they first differ.
fn comes_before(mask: u32, other: u32) -> bool {
    if mask.count_ones() != other.count_ones() {
        return mask.count_ones() < other.count_ones();
    }
    (mask & !other).trailing_zeros() < (other & !mask).trailing_zeros()
}

/// The first suitable mask of all that have no other slots than the free ones.
fn first_of_all(size: u32, free: u32, need: u32, gap: u32) -> Option<u32>
    requires some { 1 ≤ size }
    requires within { size ≤ 16 }
{
    let mut first = None;
    for mask in 0..1 << size {
        if mask & free == mask && is_suitable(size, mask, need, gap) {
            first = match first {
                Some(other) if comes_before(other, mask) => Some(other),
                _ => Some(mask),
            };
        }
    }
    first
}

/// The mask of the set that is chosen out of the free slots.
fn choice(size: u32, free: u32, need: u32, gap: u32) -> Option<u32>
    requires some { 1 ≤ size }
    requires within { size ≤ 32 }
    requires need { 1 ≤ need }
{
    match choose(&set_of(size, free), need, gap) {
        Some(chosen) => Some(mask_of(&chosen)),
        None => None,
    }
}

/// The first need and gap for which the choice isn't the first of all.
fn first_other_choice(size: u32, free: u32) -> Option<(u32, u32)>
    requires some { 1 ≤ size }
    requires within { size ≤ 16 }
{
    for need in 1..size + 2 {
        for gap in 0..size + 2 {
            if choice(size, free, need, gap) != first_of_all(size, free, need, gap) {
                return Some((need, gap));
            }
        }
    }
    None
}

#[test]
fn choice_is_the_first_of_all_subsets(rt: HostRuntime) {
    for size in 1..7 {
        for free in 0..1 << size {
            assert_eq!(rt; first_other_choice(size, free), None, "{size} {free}");
        }
    }
}

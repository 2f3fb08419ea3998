// Slot sets from lists of slots and back, and the calls on them at both ends of small and large
// tables.
ghost use Rattle.std.specs.Prelude.{◌≡◌, ◌≤◌};

use aeth_slots::SlotSet;

/// The set of these slots; those past the table are left out.
pub(crate) fn set_of(size: u32, slots: &[u32]) -> SlotSet
    requires some { 1 ≤ size }
    requires within { size ≤ 128 }
    ensures { result.size ≡ size }
{
    let mut set = SlotSet::empty(size);
    for slot in slots {
        if *slot < size {
            set.insert(*slot);
        }
    }
    set
}

/// Whether the set has these slots, ascending, and no others.
pub(crate) fn has_slots(set: &SlotSet, slots: &[u32]) -> bool {
    let mut rest = set.iter();
    for slot in slots {
        if rest.next() != Some(*slot) {
            return false;
        }
    }
    rest.next().is_none()
}

/// A size of a table, how far a set is rotated, its slots, and those that they become.
static ROTATIONS: [(u32, u32, &[u32], &[u32]); 8] = [
    (8, 3, &[0, 4, 5], &[0, 3, 7]),
    (64, 1, &[0, 62, 63], &[0, 1, 63]),
    (65, 1, &[0, 63, 64], &[0, 1, 64]),
    (65, 64, &[0, 1, 64], &[0, 63, 64]),
    (128, 1, &[0, 63, 64, 127], &[0, 1, 64, 65]),
    (128, 127, &[0, 64, 65], &[63, 64, 127]),
    (128, 129, &[0, 127], &[0, 1]),
    (1, 7, &[0], &[0]),
];

/// The size and the step of the first rotation that gives another set.
fn first_other_rotation() -> Option<(u32, u32)> {
    for &(size, by, slots, turned) in &ROTATIONS {
        if !has_slots(&set_of(size, slots).rotate(by), turned) {
            return Some((size, by));
        }
    }
    None
}

#[test]
fn rotation_wraps_at_the_size(rt: HostRuntime) {
    assert_eq!(rt; first_other_rotation(), None);
}

/// The first size of which two sets are met, joined or taken away otherwise.
fn first_other_size() -> Option<u32> {
    for size in [64, 65, 127, 128] {
        let set = set_of(size, [0, 1, 62, 63, 64, 126, 127].as_slice());
        let other = set_of(size, [1, 63, 126].as_slice());
        let rest = set_of(size, [0, 62, 64, 127].as_slice());
        let holds = set.meet(&other) == other
            && set.join(&other) == set
            && set.without(&other) == rest
            && SlotSet::full(size).meet(&set) == set;
        if !holds {
            return Some(size);
        }
    }
    None
}

#[test]
fn sets_are_met_joined_and_taken_away(rt: HostRuntime) {
    assert_eq!(rt; first_other_size(), None);
}

/// Where a search in the set of 3, 63, 64 and 127 begins, and what it finds.
static SEARCHES: [(u32, Option<u32>); 8] = [
    (0, Some(3)),
    (3, Some(3)),
    (4, Some(63)),
    (64, Some(64)),
    (65, Some(127)),
    (127, Some(127)),
    (128, None),
    (4_294_967_295, None),
];

/// The first place from which on a search finds another slot.
fn first_other_search(set: &SlotSet) -> Option<u32> {
    for &(from, next) in &SEARCHES {
        if set.at_or_after(from) != next {
            return Some(from);
        }
    }
    None
}

#[test]
fn slots_are_found_past_a_word(rt: HostRuntime) {
    let set = set_of(128, [3, 63, 64, 127].as_slice());
    assert_eq!(rt; first_other_search(&set), None);
    assert!(rt; set.has(64) && set.has(127) && !set.has(65) && !set.has(126));
    assert_eq!(rt;
        [
            set.count(),
            set.size(),
            SlotSet::full(128).count(),
            SlotSet::full(65).count()
        ],
        [4, 128, 128, 65]
    );
}

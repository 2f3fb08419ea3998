// The choice out of whole tables of each size.
use crate::slot_set::set_of;
use aeth_slots::{SlotSet, choose};

// The first size of a table out of which another choice is made.
fn first_other_choice() -> Option<u32> {
    for size in 1..129 {
        let free = SlotSet::full(size);
        let first = set_of(size, [0].as_slice());
        let chosen = choose(&free, size, 1) == Some(free)
            && choose(&free, 1, 1) == Some(free)
            && choose(&free, size + 1, size).is_none()
            && choose(&free, 1, size) == Some(first);
        if !chosen {
            return Some(size);
        }
    }
    None
}

#[test]
fn whole_tables_are_chosen(rt: HostRuntime) {
    assert_eq!(rt; first_other_choice(), None);
}

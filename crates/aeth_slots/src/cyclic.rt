// Distances round the table, over the calls of a slot set alone.
ghost use Rattle.std.specs.Prelude.{◌≡◌, ◌<◌, ◌≤◌, ◌↔◌, length, IsTrue};
ghost use Rattle.aeth_slots.specs.SlotSet.{IsSlotSet, gap_of};
ghost use Rattle.aeth_slots.specs.Choice.{IsSuitable};

use crate::choice::fewest;
use crate::{Members, SlotSet};

impl SlotSet {
    /// The slots, ascending.
    pub fn iter(&self) -> Members
        ensures { result ≡ self.now.slots }
    {
        Members::of(*self)
    }

    /// The greatest cyclic distance from a slot to the next, in slots; the table size where there
    /// is one slot.
    pub fn gap(&self) -> u32
        requires { 1 ≤ length self.now.slots }
        ensures { result ≡ gap_of self.now }
    {
        let size = self.size();
        let mut slots = self.iter();
        let Some(first) = slots.next() else {
            return 0;
        };
        let mut widest = 0;
        let mut last = first;
        for slot in slots {
            widest = widest.max(slot - last);
            last = slot;
        }
        widest.max(first + size - last)
    }

    /// At least `need` slots, and at least one, with no gap above `gap`.
    pub fn suitable(&self, need: u32, gap: u32) -> bool
        ensures suitable { IsTrue result ↔ IsSuitable need gap self.now }
        ensures set { IsSlotSet self.now }
    {
        let count = self.count();
        let Some(first) = self.at_or_after(0) else {
            return false;
        };
        count >= need && fewest(self, first, gap).is_some()
    }
}

// A slot set as one mask, a bit for each slot. Only this file knows how wide a mask is.
ghost use Rattle.std.specs.Prelude.{◌≡◌, ◌<◌, ◌≤◌, ◌↔◌, ◌++◌, [], ◌∷◌, ℕ, length, IsTrue, IfSome};
ghost use Rattle.std.specs.Prelude.{IfNone, MatchOption, Contains};
ghost use Rattle.aeth_base.specs.Limits.{max_slots};
ghost use Rattle.aeth_slots.specs.SlotSet.{IsSlotSet, IsNextSlot, Ascends, inserted, rotated};
ghost use Rattle.aeth_slots.specs.SlotSet.{all_slots, common, joined, without};

use std::marker::Model;

// A mask with a bit for each slot of the largest table.
type Mask = u128;

/// A slot table's size, 1 to 128, and a set of its slots, which are numbered from 0.
///
/// A slot is one flit cycle of the table's period. All routers and network interfaces share one
/// slot count modulo the table size, after Æthereal (2005).
#[derive(Clone, Copy)]
pub struct SlotSet {
    size: u32,
    mask: Mask,
}

impl Model for SlotSet {
    ghost use Rattle.aeth_slots.specs.SlotSet.{Slots};
    ghost use Rattle.aeth_slots.specs.Bits.{IsMask, ones_from, mask_of};
    ghost use Rattle.aeth_slots.specs.BitLemmas.{mask_of-ones};

    ghost Value = { Slots };

    ghost view = { λ s. record { size = s.size; slots = ones_from s.mask 0 s.size } };

    ghost invariant = { λ s. IsMask s.size s.mask };

    ghost inverse = { λ v. record { size = v.size; mask = mask_of v.slots } };

    ghost inverse_ok = { λ a h i.
        record { size = a.size; mask = mask_of-ones a.size a.mask h.below i } };
}

impl SlotSet {
    /// No slot of a table of this size.
    pub fn empty(size: u32) -> SlotSet
        requires some { 1 ≤ size }
        requires within { size ≤ max_slots }
        ensures { result ≡ record { size = size; slots = [] } }
    {
        SlotSet { size, mask: 0 }
    }

    /// All slots of a table of this size.
    pub fn full(size: u32) -> SlotSet
        requires some { 1 ≤ size }
        requires within { size ≤ max_slots }
        ensures { result ≡ all_slots size }
    {
        SlotSet {
            size,
            mask: Mask::MAX >> (Mask::BITS - size),
        }
    }

    /// The size of the table.
    pub fn size(&self) -> u32
        ensures size { result ≡ self.now.size }
        ensures set { IsSlotSet self.now }
    {
        self.size
    }

    /// Whether the slot is in the set.
    pub fn has(&self, slot: u32) -> bool
        requires { slot < self.now.size }
        ensures { IsTrue result ↔ Contains self.now.slots slot }
    {
        self.mask >> slot & 1 == 1
    }

    /// Puts the slot in; one that is there already changes nothing.
    pub fn insert(&mut self, slot: u32)
        requires { slot < self.old.size }
        ensures set { self.new ≡ inserted slot self.old }

        // A slot after all others goes to the end of the list.
        ensures last { Ascends 0 slot self.old.slots
            → self.new.slots ≡ self.old.slots ++ slot ∷ [] }
    {
        let mask = self.mask;
        self.mask = mask | 1 << slot;
    }

    /// The number of slots in the set.
    pub fn count(&self) -> u32
        ensures count { result ≡ length self.now.slots }
        ensures set { IsSlotSet self.now }
    {
        self.mask.count_ones()
    }

    /// The least slot of the set at or after a slot, which may lie past the table.
    pub fn at_or_after(&self, slot: u32) -> Option<u32>
        ensures some { IfSome result (IsNextSlot self.now.slots slot) }
        ensures none { IfNone result ((other : ℕ) → Contains self.now.slots other → other < slot) }
    {
        if slot >= self.size {
            return None;
        }
        let rest = self.mask >> slot;
        if rest == 0 {
            return None;
        }
        Some(slot + rest.trailing_zeros())
    }

    /// The slots that both sets have.
    pub fn meet(&self, other: &SlotSet) -> SlotSet
        requires { self.now.size ≡ other.now.size }
        ensures { result ≡ common self.now other.now }
    {
        SlotSet {
            size: self.size,
            mask: self.mask & other.mask,
        }
    }

    /// The slots that one of the sets has.
    pub fn join(&self, other: &SlotSet) -> SlotSet
        requires { self.now.size ≡ other.now.size }
        ensures { result ≡ joined self.now other.now }
    {
        SlotSet {
            size: self.size,
            mask: self.mask | other.mask,
        }
    }

    /// The slots of this set that the other one hasn't.
    pub fn without(&self, other: &SlotSet) -> SlotSet
        requires { self.now.size ≡ other.now.size }
        ensures { result ≡ without self.now other.now }
    {
        SlotSet {
            size: self.size,
            mask: self.mask & !other.mask,
        }
    }

    /// Each slot `by` slots on, round the table.
    pub fn rotate(&self, by: u32) -> SlotSet
        ensures { result ≡ rotated by self.now }
    {
        let by = by % self.size;
        let onward = self.mask << by;

        // In two steps, since a shift by the whole width is none.
        let wrapped = self.mask >> (self.size - 1 - by) >> 1;
        SlotSet {
            size: self.size,
            mask: (onward | wrapped) & (Mask::MAX >> (Mask::BITS - self.size)),
        }
    }

    /// Takes the least slot out of the set.
    pub(crate) fn take_first(&mut self) -> Option<u32>
        ensures { MatchOption result ((self.new ≡ self.old) × (self.old.slots ≡ []))
            (λ slot. (self.new.size ≡ self.old.size) × (self.old.slots ≡ slot ∷ self.new.slots)) }
    {
        let mask = self.mask;
        if mask == 0 {
            return None;
        }
        let first = mask.trailing_zeros();
        self.mask = mask & !(1 << first);
        Some(first)
    }
}

impl PartialEq for SlotSet {
    ghost use Rattle.std.proofs.Common.{rules};
    ghost use Rattle.std.specs.Cmp.Rules.{comparing};
    ghost use Rattle.aeth_slots.specs.SlotSet.{same_set};

    ghost eq = { same_set };

    ghost laws = { Prim.search (comparing, rules) };

    fn eq(&self, other: &SlotSet) -> bool {
        self.size == other.size && self.mask == other.mask
    }
}

impl Eq for SlotSet {
    ghost use Rattle.std.proofs.Common.{rules};
    ghost use Rattle.std.specs.Cmp.Rules.{comparing};

    ghost laws = { Prim.search (comparing, rules) };
}

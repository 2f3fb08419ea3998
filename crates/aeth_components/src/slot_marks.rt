// For each slot marks of some numbers.

ghost use Rattle.std.specs.Prelude.{◌≡◌, ◌<◌, ◌≤◌, ◌+◌, ◌^◌, ℕ, All, IfOk, length};
ghost use Rattle.aeth_base.specs.Limits.{max_slots};
ghost use Rattle.aeth_base.specs.Marks.{bit_of, room_of};
ghost use Rattle.aeth_components.specs.SlotMarks.{MarksLess, MarksMore, marks_at};

use aeth_base::{Marks, NoMemory};
use std::alloc::Global;
use std::marker::Model;

// For each slot marks of some numbers, seen as the list of these marks. Slots in which none is marked are
// passed over.
#[derive(Drop)]
pub(crate) struct SlotMarks {
    marks: Vec<Marks>,
    // Marks of the slots in which a number is marked, and what all these numbers are below.
    filled: Marks,
    end: usize,
}

impl Model for SlotMarks {
    ghost use Rattle.std.specs.Prelude.{List, ℕ};
    ghost use Rattle.aeth_components.specs.SlotMarks.{AreFilled};

    ghost Value = { List (List ℕ) };

    ghost view = { λ slots. slots.marks.items };

    ghost invariant = { λ slots. AreFilled slots.marks.items slots.filled slots.end };
}

impl SlotMarks {
    // For so many slots, and the numbers up to `last`, none of which is marked. Later calls take no memory.
    pub(crate) fn none(alloc: Global, slots: u32, last: u32) -> Result<SlotMarks, NoMemory>
        ensures size { IfOk result (λ made. length made ≡ slots) }
        ensures room { IfOk result (All (λ marks. last < room_of marks)) }
        ensures unmarked { IfOk result (λ made. (slot number : ℕ)
            → bit_of (marks_at made slot) number ≡ 0) }
    {
        let mut marks = Vec::with_capacity(alloc, slots as usize)?;
        for _ in 0..slots {
            marks.push(Marks::none(alloc, last as usize)?)?;
        }
        Ok(SlotMarks {
            marks,
            filled: Marks::none(alloc, slots as usize)?,
            end: 0,
        })
    }

    // How many slots there are.
    #[inline(always)]
    pub(crate) fn len(&self) -> usize
        ensures { result ≡ length self.now }
    {
        self.marks.len()
    }

    // The marks of a slot.
    #[inline(always)]
    pub(crate) fn at(&self, slot: usize) -> &Marks
        requires { slot < length self.now }
        ensures { result.now ≡ marks_at self.now slot }
    {
        &self.marks[slot]
    }

    // Marks a number in a slot.
    #[inline(always)]
    pub(crate) fn mark(&mut self, slot: usize, number: usize)
        requires slot { slot < length self.old }
        requires number { number < 2 ^ 32 }
        requires room { All (λ marks. number + 1 < room_of marks) self.old }
        ensures more { MarksMore number self.old self.new }
        ensures here { bit_of (marks_at self.new slot) number ≡ 1 }
    {
        self.marks[slot].mark(number);
        self.filled.mark(slot);
        self.end = self.end.max(number + 1);
    }

    // Marks it there no more.
    #[inline(always)]
    pub(crate) fn unmark(&mut self, slot: usize, number: usize)
        requires slot { slot < length self.old }
        requires room { All (λ marks. number < room_of marks) self.old }
        ensures { MarksLess number slot self.old self.new }
    {
        self.marks[slot].unmark(number);
        if self.marks[slot].next(0, self.end) == self.end {
            self.filled.unmark(slot);
        }
    }

    // The first marked number of a slot from `from` on; `end` where none is marked below it.
    #[inline(always)]
    pub(crate) fn next(&self, slot: usize, from: usize, end: usize) -> usize
        requires slot { slot < length self.now }
        requires from { from ≤ end }
        ensures from { from ≤ result }
        ensures end { result ≤ end }
        ensures none { (number : ℕ) → from ≤ number → number < result
            → bit_of (marks_at self.now slot) number ≡ 1 → ⊥ }
        ensures found { result < end → bit_of (marks_at self.now slot) result ≡ 1 }
    {
        let last = self.end.min(end);
        if last <= from {
            return end;
        }
        let number = self.marks[slot].next(from, last);
        if number < last { number } else { end }
    }

    // The first slot from `from` on in which a number is marked; as many as there are where there is none.
    pub(crate) fn next_slot(&self, from: usize) -> usize
        requires { from ≤ length self.now }
        ensures from { from ≤ result }
        ensures end { result ≤ length self.now }
        ensures none { (slot number : ℕ) → from ≤ slot → slot < result
            → bit_of (marks_at self.now slot) number ≡ 1 → ⊥ }
    {
        self.filled.next(from, self.marks.len())
    }
}

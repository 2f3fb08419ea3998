// Which of some numbers are marked, as masks of 64 numbers each.

ghost use Rattle.std.specs.Prelude.{◌≡◌, ◌≢◌, ◌<◌, ◌≤◌, ◌+◌, ◌*◌, ◌/◌, ◌^◌, ◌⊎◌, ◌↔◌, ℕ, IfOk, IsTrue, length};
ghost use Rattle.aeth_base.specs.Marks.{bit_of, marked_from, numbers_of_mask, room_of};

use crate::marked::Marked;
use crate::memory::NoMemory;
use std::alloc::Global;
use std::marker::Model;

// The numbers of a mask.
pub(crate) const NUMBERS_OF_MASK: usize = 64;

/// Marks of numbers from 0 on, seen as the list of their masks: bit `n mod 64` of mask `n / 64` is 1
/// where the number `n` is marked. This project's own.
///
/// Only the calls that make marks take memory. `mark`, `unmark` and `has` look at one mask, `next` at
/// those from a number to the one that it finds, and `iter` and `clear` go over all.
#[derive(Drop)]
pub struct Marks {
    masks: Vec<u64>,
}

impl Model for Marks {
    ghost use Rattle.std.specs.Prelude.{List, ℕ, ◌≤◌, ◌^◌};
    ghost use Rattle.aeth_base.specs.Marks.{room_of};

    ghost Value = { List ℕ };

    ghost view = { λ marks. marks.masks.items };

    ghost invariant = { λ marks. room_of marks.masks.items ≤ 2 ^ 64 };
}

impl Marks {
    /// Marks with room for the numbers up to `last`, all of them marked.
    pub fn all(alloc: Global, last: usize) -> Result<Marks, NoMemory>
        ensures masks { IfOk result (λ marks. length marks ≡ last / numbers_of_mask + 1) }
        ensures room { IfOk result (λ marks. last < room_of marks) }
        ensures marked { IfOk result (λ marks. (number : ℕ) → number < room_of marks
            → bit_of marks number ≡ 1) }
    {
        Ok(Marks {
            masks: vec![in alloc; u64::MAX; last / NUMBERS_OF_MASK + 1]?,
        })
    }

    /// Marks with room for the numbers up to `last`, none of them marked.
    pub fn none(alloc: Global, last: usize) -> Result<Marks, NoMemory>
        ensures masks { IfOk result (λ marks. length marks ≡ last / numbers_of_mask + 1) }
        ensures room { IfOk result (λ marks. last < room_of marks) }
        ensures unmarked { IfOk result (λ marks. (number : ℕ) → bit_of marks number ≡ 0) }
    {
        Ok(Marks {
            masks: vec![in alloc; 0; last / NUMBERS_OF_MASK + 1]?,
        })
    }

    /// Marks a number.
    #[inline(always)]
    pub fn mark(&mut self, number: usize)
        requires { number < room_of self.old }
        ensures room { room_of self.new ≡ room_of self.old }
        ensures here { bit_of self.new number ≡ 1 }
        ensures away { (other : ℕ) → other ≢ number
            → bit_of self.new other ≡ bit_of self.old other }
    {
        mark(&mut self.masks, number);
    }

    /// Marks it no more.
    #[inline(always)]
    pub fn unmark(&mut self, number: usize)
        requires { number < room_of self.old }
        ensures room { room_of self.new ≡ room_of self.old }
        ensures here { bit_of self.new number ≡ 0 }
        ensures away { (other : ℕ) → other ≢ number
            → bit_of self.new other ≡ bit_of self.old other }
    {
        unmark(&mut self.masks, number);
    }

    /// Whether a number is marked.
    #[inline(always)]
    pub fn has(&self, number: usize) -> bool
        requires { number < room_of self.now }
        ensures { IsTrue result ↔ (bit_of self.now number ≡ 1) }
    {
        has(&self.masks, number)
    }

    /// The first marked number from `from` on; `end` where none is marked below it.
    #[inline(always)]
    pub fn next(&self, from: usize, end: usize) -> usize
        requires from { from ≤ end }
        requires end { end < room_of self.now }
        requires few { end < 2 ^ 63 }
        ensures from { from ≤ result }
        ensures end { result ≤ end }
        ensures none { (number : ℕ) → from ≤ number → number < result
            → bit_of self.now number ≡ 0 }
        ensures found { result < end → bit_of self.now result ≡ 1 }
    {
        first_from(&self.masks, from, end).min(end)
    }

    /// The marked numbers, upwards.
    pub fn iter(&self) -> Marked<'_>
        ensures { result ≡ marked_from self.now 0 }
    {
        Marked::of(&self.masks)
    }

    /// Marks no number any more.
    pub fn clear(&mut self)
        ensures room { room_of self.new ≡ room_of self.old }
        ensures unmarked { (number : ℕ) → bit_of self.new number ≡ 0 }
    {
        self.masks.fill(0);
    }
}

// Sets the bit of a number.
#[inline(always)]
fn mark(masks: &mut [u64], number: usize)
    requires { number < room_of masks.old }
    ensures size { length masks.new ≡ length masks.old }
    ensures here { bit_of masks.new number ≡ 1 }
    ensures away { (other : ℕ) → other ≢ number → bit_of masks.new other ≡ bit_of masks.old other }
{
    let place = number / NUMBERS_OF_MASK;
    let mask = masks[place];
    masks[place] = mask | 1 << (number % NUMBERS_OF_MASK);
}

// Clears it.
#[inline(always)]
fn unmark(masks: &mut [u64], number: usize)
    requires { number < room_of masks.old }
    ensures size { length masks.new ≡ length masks.old }
    ensures here { bit_of masks.new number ≡ 0 }
    ensures away { (other : ℕ) → other ≢ number → bit_of masks.new other ≡ bit_of masks.old other }
{
    let place = number / NUMBERS_OF_MASK;
    let mask = masks[place];
    masks[place] = mask & !(1 << (number % NUMBERS_OF_MASK));
}

// Whether it is 1.
#[inline(always)]
fn has(masks: &[u64], number: usize) -> bool
    requires { number < room_of masks.now }
    ensures { IsTrue result ↔ (bit_of masks.now number ≡ 1) }
{
    masks[number / NUMBERS_OF_MASK] >> (number % NUMBERS_OF_MASK) & 1 == 1
}

// The first marked number from one on, or a number past `end`, or this.
#[inline(always)]
fn first_from(masks: &[u64], from: usize, end: usize) -> usize
    requires from { from ≤ end }
    requires end { end < room_of masks.now }
    requires few { end < 2 ^ 63 }
    ensures from { from ≤ result }
    ensures none { (number : ℕ) → from ≤ number → number < result → bit_of masks.now number ≡ 0 }
    ensures found { result < end → bit_of masks.now result ≡ 1 }
{
    let place = from / NUMBERS_OF_MASK;
    let rest = masks[place] >> (from % NUMBERS_OF_MASK);
    if rest != 0 {
        return from + rest.trailing_zeros() as usize;
    }
    first_in(masks, place + 1, end)
}

// The first marked number of the masks from a place on, or a number past `end`, or this.
fn first_in(masks: &[u64], from: usize, end: usize) -> usize
    requires end { end < room_of masks.now }
    requires few { end < 2 ^ 63 }
    ensures from { (numbers_of_mask * from ≤ result) ⊎ (result ≡ end) }
    ensures none { (number : ℕ) → numbers_of_mask * from ≤ number → number < result
        → bit_of masks.now number ≡ 0 }
    ensures found { result < end → bit_of masks.now result ≡ 1 }
{
    let last = end / NUMBERS_OF_MASK + 1;
    let mut place = from;
    for mask in &masks[from.min(last)..last] {
        if *mask != 0 {
            return NUMBERS_OF_MASK * place + mask.trailing_zeros() as usize;
        }
        place += 1;
    }
    end
}

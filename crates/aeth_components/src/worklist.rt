// Marks of numbers of which few are marked at a time.

ghost use Rattle.std.specs.Prelude.{◌≡◌, ◌≢◌, ◌<◌, ◌≤◌, ◌+◌, ◌/◌, ◌^◌, ℕ, IfOk, length};
ghost use Rattle.aeth_base.specs.Marks.{bit_of, numbers_of_mask, room_of};

use aeth_base::{Marks, NoMemory};
use std::alloc::Global;
use std::marker::Model;

// The numbers of a mask.
const NUMBERS_OF_MASK: usize = 64;

// Marks of numbers, seen as the list of their masks. A look for the next one goes from the least to the
// greatest that may be marked, so none is made where no number is.
#[derive(Drop)]
pub(crate) struct Worklist {
    marks: Marks,
    // The least and the greatest number that may be marked; the least is above where none is.
    least: usize,
    greatest: usize,
}

impl Model for Worklist {
    ghost use Rattle.std.specs.Prelude.{List, ℕ};
    ghost use Rattle.aeth_components.specs.Worklist.{AreBetween};

    ghost Value = { List ℕ };

    ghost view = { λ list. list.marks };

    ghost invariant = { λ list. AreBetween list.marks list.least list.greatest };
}

impl Worklist {
    // With room for the numbers up to `last`, all of them marked. Later calls take no memory.
    pub(crate) fn all(alloc: Global, last: usize) -> Result<Worklist, NoMemory>
        requires { last < 2 ^ 63 }
        ensures masks { IfOk result (λ list. length list ≡ last / numbers_of_mask + 1) }
        ensures room { IfOk result (λ list. last < room_of list) }
        ensures marked { IfOk result (λ list. (number : ℕ) → number < room_of list
            → bit_of list number ≡ 1) }
    {
        let marks = Marks::all(alloc, last)?;
        Ok(Worklist {
            marks,
            least: 0,
            greatest: last / NUMBERS_OF_MASK * NUMBERS_OF_MASK + (NUMBERS_OF_MASK - 1),
        })
    }

    // Marks a number.
    pub(crate) fn mark(&mut self, number: usize)
        requires { number < room_of self.old }
        ensures room { room_of self.new ≡ room_of self.old }
        ensures here { bit_of self.new number ≡ 1 }
        ensures away { (other : ℕ) → other ≢ number
            → bit_of self.new other ≡ bit_of self.old other }
    {
        self.marks.mark(number);
        if self.greatest < self.least {
            self.least = number;
            self.greatest = number;
        } else {
            self.least = self.least.min(number);
            self.greatest = self.greatest.max(number);
        }
    }

    // Marks it no more.
    pub(crate) fn unmark(&mut self, number: usize)
        requires { number < room_of self.old }
        ensures room { room_of self.new ≡ room_of self.old }
        ensures here { bit_of self.new number ≡ 0 }
        ensures away { (other : ℕ) → other ≢ number
            → bit_of self.new other ≡ bit_of self.old other }
    {
        self.marks.unmark(number);
        if number == self.least {
            self.least = if number < self.greatest {
                self.marks.next(number, self.greatest)
            } else {
                number + 1
            };
        }
    }

    // The first marked number from `from` on; `end` where none is marked below it.
    pub(crate) fn next(&self, from: usize, end: usize) -> usize
        requires from { from ≤ end }
        requires end { end < room_of self.now }
        requires few { end < 2 ^ 63 }
        ensures from { from ≤ result }
        ensures end { result ≤ end }
        ensures none { (number : ℕ) → from ≤ number → number < result
            → bit_of self.now number ≡ 0 }
        ensures found { result < end → bit_of self.now result ≡ 1 }
    {
        let first = self.least.max(from);
        let last = end.min(self.greatest + 1);
        if last <= first {
            return end;
        }
        let number = self.marks.next(first, last);
        if number < last { number } else { end }
    }
}

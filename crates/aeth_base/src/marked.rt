// The marked numbers, one after the other.

ghost use Rattle.std.specs.Prelude.{◌≡◌, ◌≤◌, ◌^◌, [], ◌∷◌, MatchOption};
ghost use Rattle.std.specs.Iterator.{YieldsFirst, item_count};
ghost use Rattle.aeth_base.specs.Marks.{marked_from, room_of};

use crate::marks::NUMBERS_OF_MASK;
use std::marker::Model;

/// The marked numbers that are still to come, upwards. This project's own.
#[derive(Drop)]
pub struct Marked<'a> {
    masks: &'a [u64],
    // The mask of the next numbers, and what is left of it.
    place: usize,
    rest: u64,
}

impl<'a> Model for Marked<'a> {
    ghost use Rattle.std.specs.Prelude.{◌≡◌, ◌≤◌, ◌*◌, ◌^◌, List, ℕ, length};
    ghost use Rattle.std.specs.List.{slice_set};
    ghost use Rattle.aeth_base.specs.Marks.{marked_from, numbers_of_mask, room_of};

    ghost Value = { List ℕ };

    ghost view = { λ m. marked_from (slice_set m.masks.now m.place m.rest)
        (numbers_of_mask * m.place) };

    ghost invariant = { λ m. (m.place ≤ length m.masks.now)
        × (length m.masks.now ≤ m.place → m.rest ≡ 0) × (room_of m.masks.now ≤ 2 ^ 64) };
}

impl<'a> Marked<'a> {
    // All of these masks.
    pub(crate) fn of(masks: &'a [u64]) -> Marked<'a>
        requires { room_of masks.now ≤ 2 ^ 64 }
        ensures { result ≡ marked_from masks.now 0 }
    {
        Marked {
            masks,
            place: 0,
            rest: masks.first().copied().unwrap_or(0),
        }
    }

    // Takes the first number that is still to come.
    #[inline(always)]
    fn take_first(&mut self) -> Option<usize>
        ensures { MatchOption result ((self.new ≡ self.old) × (self.old ≡ []))
            (λ number. self.old ≡ number ∷ self.new) }
    {
        while self.rest == 0 {
            let place = self.place + 1;
            if place >= self.masks.len() {
                return None;
            }
            self.rest = self.masks[place];
            self.place = place;
        }
        let bit = self.rest.trailing_zeros();
        self.rest = self.rest & !(1 << bit);
        Some(NUMBERS_OF_MASK * self.place + bit as usize)
    }
}

impl<'a> Iterator for Marked<'a> {
    type Item = usize;

    ghost next_gives = { YieldsFirst (λ numbers. numbers) };

    ghost remaining = { item_count (λ numbers. numbers) };

    #[inline(always)]
    fn next(&mut self) -> Option<usize> {
        self.take_first()
    }
}

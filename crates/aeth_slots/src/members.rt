// The slots of a set, one after the other.
ghost use Rattle.std.specs.Prelude.{◌≡◌};
ghost use Rattle.std.specs.Iterator.{YieldsFirst, item_count};

use crate::SlotSet;
use std::marker::Model;

/// The slots of a set that are still to come, ascending.
#[derive(Drop)]
pub struct Members {
    rest: SlotSet,
}

impl Model for Members {
    ghost use Rattle.std.specs.Prelude.{List, ℕ};

    ghost Value = { List ℕ };

    ghost view = { λ m. m.rest.slots };
}

impl Members {
    pub(crate) fn of(set: SlotSet) -> Members
        ensures { result ≡ set.slots }
    {
        Members { rest: set }
    }
}

impl Iterator for Members {
    type Item = u32;

    ghost next_gives = { YieldsFirst (λ slots. slots) };

    ghost remaining = { item_count (λ slots. slots) };

    fn next(&mut self) -> Option<u32> {
        self.rest.take_first()
    }
}

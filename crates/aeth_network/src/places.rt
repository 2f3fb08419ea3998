// The place behind the rows of a cycle, in rows whose cycles don't fall.

ghost use Rattle.std.specs.Prelude.{◌≡◌, ◌≤◌, ◌==◌, ℕ, min};
ghost use Rattle.std.specs.List.Sorted.{IsNonDecreasingBy};
ghost use Rattle.aeth_network.specs.Behind.{IsBehind, passed};

use crate::rows::{Offered, Taking};
use crate::tables::EnteredUse;
use aeth_schedule::SessionStartByLine;

// What is brought in a cycle.
pub(crate) trait InCycle {
    // Its cycle.
    ghost cycle: { Self → ℕ };

    // Whether it is brought in this one.
    fn is_in(&self, time: u32) -> bool
        ensures { result ≡ (cycle self.now == time) };

    // Its cycle, but at most a limit.
    fn cycle_up_to(&self, limit: u32) -> u32
        ensures { result ≡ min (cycle self.now) limit };
}

// The cycle of an event.
impl InCycle for u32 {
    ghost cycle = { λ time. time };

    fn is_in(&self, time: u32) -> bool {
        *self == time
    }

    fn cycle_up_to(&self, limit: u32) -> u32 {
        (*self).min(limit)
    }
}

impl InCycle for SessionStartByLine {
    ghost cycle = { λ one. one.go };

    fn is_in(&self, time: u32) -> bool {
        self.go == time
    }

    fn cycle_up_to(&self, limit: u32) -> u32 {
        self.go.min(limit)
    }
}

impl InCycle for Offered {
    ghost cycle = { λ one. one.cycle };

    fn is_in(&self, time: u32) -> bool {
        self.cycle == time
    }

    fn cycle_up_to(&self, limit: u32) -> u32 {
        self.cycle.min(limit)
    }
}

impl InCycle for Taking {
    ghost cycle = { λ one. one.cycle };

    fn is_in(&self, time: u32) -> bool {
        self.cycle == time
    }

    fn cycle_up_to(&self, limit: u32) -> u32 {
        self.cycle.min(limit)
    }
}

impl InCycle for EnteredUse {
    ghost cycle = { λ one. one.cycle };

    fn is_in(&self, time: u32) -> bool {
        self.cycle == time as u64
    }

    fn cycle_up_to(&self, limit: u32) -> u32 {
        self.cycle.min(u64::from(limit)) as u32
    }
}

// The place behind the rows of a cycle.
pub(crate) fn behind<T: InCycle>(rows: &[T], from: usize, time: u32) -> usize
    requires order { IsNonDecreasingBy T.cycle rows.now }
    requires from { from ≡ passed T.cycle time rows.now }
    ensures { IsBehind T.cycle time rows.now from result }
{
    let mut place = from;
    'rows: while place < rows.len() && rows[place].is_in(time) {
        place += 1;
    }
    place
}

// A cycle, at most a limit, before which none of the rows from a place on is brought.
pub(crate) fn quiet_until<T: InCycle>(rows: &[T], place: usize, limit: u32) -> u32
    requires { IsNonDecreasingBy T.cycle rows.now }
    ensures most { result ≤ limit }
    ensures quiet { passed T.cycle result rows.now ≤ place }
{
    if place < rows.len() {
        rows[place].cycle_up_to(limit)
    } else {
        limit
    }
}

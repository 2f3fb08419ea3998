// What an allocation comes to.

use aeth_base::{Side, Unit};
use aeth_plan::Plan;
use std::marker::Model;

/// A unit that was refused, with the side that had no candidate, and its turn, counted from 1.
#[derive(Clone, Copy, PartialEq)]
pub struct Refused {
    pub unit: Unit,
    pub side: Side,
    pub turn: u32,
}

/// What an allocation comes to: a plan, and the refused units in the order of their turns.
#[derive(Drop)]
pub struct Outcome {
    pub plan: Plan,
    pub refused: Vec<Refused>,
}

impl Model for Outcome {
    ghost use Rattle.aeth_alloc.specs.Allocation.{OutcomeData};

    ghost Value = { OutcomeData };

    ghost view = { λ outcome. record { plan = outcome.plan; refused = outcome.refused.items } };
}

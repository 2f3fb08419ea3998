// The turns of units.
ghost use Rattle.std.specs.Prelude.{◌≡◌, ◌<◌, [], AllPairs, IfOk, OnOk, length};
ghost use Rattle.aeth_app.specs.App.{IsAppOf};
ghost use Rattle.aeth_book.specs.Book.{empty_book};
ghost use Rattle.aeth_group.specs.Members.{groups_of};
ghost use Rattle.aeth_order.specs.Units.{first_units};
ghost use Rattle.aeth_plan.specs.Making.{AreApart, IsPlanWith};
ghost use Rattle.aeth_seats.specs.First.{first_seats};
ghost use Rattle.aeth_seats.specs.Seats.{IsSeats};
ghost use Rattle.aeth_alloc.specs.Holds.{IsReservedOf, IsStateOf, unseated_of};
ghost use Rattle.aeth_alloc.specs.Turns.{after_turn, unit_tried};

use crate::channels::{Design, Reserved};
use crate::outcome::{Outcome, Refused};
use aeth_app::App;
use aeth_base::{CoreId, NoMemory, Side, Unit};
use aeth_chip::Chip;
use aeth_group::Groups;
use aeth_order::{Units, next};
use aeth_plan::Plan;
use aeth_seats::Seats;
use std::alloc::Global;
use std::marker::Model;

/// Between two turns: what was reserved, the units that wait, and the refusals so far.
#[derive(Drop)]
pub(crate) struct State {
    pub reserved: Reserved,
    pub units: Units,
    pub refused: Vec<Refused>,
}

impl Model for State {
    ghost use Rattle.aeth_alloc.specs.Turns.{State};

    ghost Value = { State };

    ghost view = { λ state. record {
      reserved = state.reserved;
      units = state.units;
      refused = state.refused.items;
    } };
}

impl State {
    /// Before the first turn.
    pub fn new(alloc: Global, chip: &Chip, app: &App, groups: &Groups) -> Result<State, NoMemory>
        requires app { IsAppOf chip.now app.now }
        requires groups { groups.now ≡ groups_of app.now }
        ensures { IfOk result (λ state. state ≡ record {
          reserved = record {
            book = empty_book chip.now groups.now;
            seats = first_seats chip.now app.now;
          };
          units = first_units app.now groups.now;
          refused = [];
        }) }
    {
        Ok(State {
            reserved: Reserved::new(alloc, chip, app, groups)?,
            units: Units::of(alloc, app, groups)?,
            refused: Vec::new(alloc),
        })
    }

    /// One turn: that of the next unit, if one waits.
    pub fn turn<F: Fn(u32, u32) -> u32>(
        &mut self,
        alloc: Global,
        design: &Design<F>,
        turn: u32,
    ) -> Result<(), NoMemory>
        requires { IsStateOf design.now self.old }
        ensures { OnOk result (self.new ≡ after_turn design.now turn self.old) }
    {
        let Some(unit) = next(&self.units, &self.reserved.seats) else {
            return Ok(());
        };
        if let Some(side) = try_unit(&mut self.reserved, alloc, design, unit)? {
            self.refused.push(Refused { unit, side, turn })?;
        }
        self.units.done(unit);
        Ok(())
    }

    /// What it comes to: the plan of the seats and the grants, and the refusals.
    pub fn outcome(self, alloc: Global, chip: &Chip) -> Result<Outcome, NoMemory>
        requires { AllPairs AreApart self.reserved.book.grants }
        ensures plan { IfOk result (λ outcome. IsPlanWith chip.now self.reserved.seats
            self.reserved.book.grants outcome.plan) }
        ensures refused { IfOk result (λ outcome. outcome.refused ≡ self.refused) }
    {
        let kept = &self.reserved;
        let plan = Plan::of(alloc, chip, &kept.seats, kept.book.list())?;
        Ok(Outcome {
            plan,
            refused: self.refused,
        })
    }
}

// A core, where it has no seat.
fn unseated(seats: &Seats, core: CoreId) -> Option<CoreId>
    requires { core.0 < length seats.now.places }
    ensures core { result ≡ unseated_of seats.now core }
    ensures seats { IsSeats seats.now }
{
    let _cores = seats.cores();
    if seats.seat(core).is_none() {
        Some(core)
    } else {
        None
    }
}

// The channels of a unit are tried, `fwd` and then `back`: the side for which it is refused, if it
// is. Then all is as before.
fn try_unit<F: Fn(u32, u32) -> u32>(
    reserved: &mut Reserved,
    alloc: Global,
    design: &Design<F>,
    unit: Unit,
) -> Result<Option<Side>, NoMemory>
    requires unit { unit.conn.0 < length design.now.app.connections }
    requires reserved { IsReservedOf design.now reserved.old }
    ensures { IfOk result (λ refused. unit_tried design.now reserved.old unit
        ≡ record { reserved = reserved.new; refused = refused }) }
{
    let _grants = reserved.book.list();
    let connection = design.app.connection(unit.conn);
    let from = unseated(&reserved.seats, connection.from);
    let to = unseated(&reserved.seats, connection.to);
    if !reserved.try_channel(alloc, design, unit, Side::Fwd)? {
        return Ok(Some(Side::Fwd));
    }
    if !reserved.try_channel(alloc, design, unit, Side::Back)? {
        reserved.give_back(from, to);
        return Ok(Some(Side::Back));
    }
    Ok(None)
}

// The units that wait for their turn, and whose turn is next.
ghost use Rattle.std.specs.Prelude.{◌≡◌, IfOk};
ghost use Rattle.aeth_group.specs.Members.{groups_of};
ghost use Rattle.aeth_order.specs.Order.{first_by, turn_order};
ghost use Rattle.aeth_order.specs.Units.{first_units, next_unit, without_unit};

use crate::grid::{grid_of, marked, marks_of};
use crate::keys::UnitKeys;
use crate::sorted::{first_seated, first_waiting, in_order, take_out};
use aeth_app::{App, MAX_USES};
use aeth_base::{NoMemory, Unit};
use aeth_group::Groups;
use aeth_seats::Seats;
use std::alloc::Global;
use std::marker::Model;

/// The units that wait for their turn.
///
/// Beside them it keeps those that wait in their own order, which doesn't change from turn to turn, the
/// first last. So the next unit is found near the end, and is taken out there.
#[derive(Drop)]
pub struct Units {
    cores: u32,
    grid: Vec<UnitKeys>,
    marks: Vec<bool>,
    order: Vec<UnitKeys>,
}

impl Model for Units {
    ghost use Rattle.std.specs.List.{items_where_true};
    ghost use Rattle.aeth_order.specs.Units.{UnitsData};
    ghost use Rattle.aeth_order.specs.Grid.{IsOrdered};

    ghost Value = { UnitsData };

    ghost view = { λ units. record {
      cores = units.cores;
      waiting = items_where_true units.marks.items units.grid.items;
    } };

    ghost invariant = { λ units.
        IsOrdered units.grid.items units.marks.items units.order.items };
}

impl Units {
    /// All units of an application wait. `Err` where there was no memory.
    pub fn of(alloc: Global, app: &App, groups: &Groups) -> Result<Units, NoMemory>
        requires { groups.now ≡ groups_of app.now }
        ensures { IfOk result (λ units. units ≡ first_units app.now groups.now) }
    {
        let _slots = app.slots();
        let grid = grid_of(alloc, app)?;
        let marks = marks_of(alloc, groups, app.connections())?;
        let waiting = marked(alloc, &marks, &grid)?;
        let order = in_order(waiting)?;
        Ok(Units {
            cores: app.cores(),
            grid,
            marks,
            order,
        })
    }

    /// A unit had its turn: it waits no more.
    pub fn done(&mut self, unit: Unit)
        ensures { self.new ≡ without_unit self.old unit }
    {
        let place = MAX_USES as usize * unit.conn.0 as usize + unit.group.0 as usize;
        if unit.group.0 < MAX_USES && place < self.grid.len() {
            self.marks[place] = false;
            take_out(&mut self.order, unit);
        }
    }

    // The first unit in a turn, with its keys.
    fn first(&self, seats: &Seats) -> Option<UnitKeys>
        ensures { result ≡ first_by (turn_order seats.now.places) self.now.waiting }
    {
        match first_seated(&self.order, &self.marks, seats) {
            Some(keys) => Some(keys),
            None => first_waiting(&self.order, &self.marks),
        }
    }
}

/// The unit whose turn is next: of those that wait the first, as `turn_order` compares them. `None`
/// exactly where none waits.
pub fn next(units: &Units, seats: &Seats) -> Option<Unit>
    ensures { result ≡ next_unit units.now seats.now.places }
{
    match units.first(seats) {
        Some(keys) => Some(keys.unit),
        None => None,
    }
}

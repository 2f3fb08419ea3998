// The table of units: a place for each connection and each number that a group may have.
ghost use Rattle.std.specs.Prelude.{◌≡◌, ◌<◌, ◌≤◌, IfOk, length};
ghost use Rattle.std.specs.List.{items_where_true};
ghost use Rattle.aeth_app.specs.Limits.{max_connections};
ghost use Rattle.aeth_order.specs.Grid.{grid_of, marks_of, unit_at};

use crate::keys::UnitKeys;
use aeth_app::{App, MAX_USES};
use aeth_base::{ConnId, GroupId, NoMemory, Unit};
use aeth_group::Groups;
use std::alloc::Global;

/// The unit of a place.
fn unit_at(place: u32) -> Unit
    ensures { result ≡ unit_at place }
{
    Unit {
        conn: ConnId(place / MAX_USES),
        group: GroupId(place % MAX_USES),
    }
}

/// The keys of the units of all places.
pub(crate) fn grid_of(alloc: Global, app: &App) -> Result<Vec<UnitKeys>, NoMemory>
    ensures { IfOk result (λ grid. grid.items ≡ grid_of app.now) }
{
    let mut grid = Vec::new(alloc);
    for place in 0..MAX_USES * app.connections() {
        grid.push(UnitKeys::of(app, unit_at(place)))?;
    }
    Ok(grid)
}

/// For each place whether its unit is one.
pub(crate) fn marks_of(
    alloc: Global,
    groups: &Groups,
    connections: u32,
) -> Result<Vec<bool>, NoMemory>
    requires some { connections ≡ groups.now.connections }
    requires few { connections ≤ max_connections }
    ensures { IfOk result (λ marks. marks.items ≡ marks_of groups.now) }
{
    let mut marks = Vec::new(alloc);
    for place in 0..MAX_USES * connections {
        let unit = unit_at(place);
        marks.push(groups.member(unit.group, unit.conn))?;
    }
    Ok(marks)
}

/// The marked ones.
pub(crate) fn marked(
    alloc: Global,
    marks: &[bool],
    grid: &[UnitKeys],
) -> Result<Vec<UnitKeys>, NoMemory>
    requires { length marks.now ≡ length grid.now }
    ensures { IfOk result (λ units. units.items ≡ items_where_true marks.now grid.now) }
{
    let mut units = Vec::new(alloc);
    for place in 0..grid.len() {
        if marks[place] {
            units.push(grid[place])?;
        }
    }
    Ok(units)
}

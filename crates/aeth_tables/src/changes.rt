// What the connections of a use case add to a switch that closes or opens them.
ghost use Rattle.aeth_chip.specs.Paths.{path_delay};
ghost use Rattle.aeth_group.specs.Members.{groups_of};
ghost use Rattle.aeth_plan.specs.Plan.{IsPlanOf, seat_before};
ghost use Rattle.aeth_tables.specs.Changes.{AreFew, HasLinks, change_of, lag_in, most_writes};
ghost use Rattle.aeth_tables.specs.Changes.{writes_in};
ghost use Rattle.aeth_tables.specs.Granted.{granted_in, granted_of, granted_with, line_of};
ghost use Rattle.aeth_text.specs.Order.{Rises};
ghost use Rattle.std.specs.List.{range_with_len};
ghost use Rattle.std.specs.Prelude.{◌≡◌, ◌<◌, ◌≤◌, ◌+◌, All, IfOk, IfSome, length, map, max};
ghost use Rattle.std.specs.Prelude.{option_copied, option_map};

use crate::finding::{grants_of, line_of};
use aeth_app::{App, Connection};
use aeth_base::{ConnId, GroupId, NoMemory, Unit, UseId};
use aeth_chip::Chip;
use aeth_group::{Grant, Groups, SeatLine};
use aeth_plan::Plan;
use std::alloc::Global;
use std::marker::Model;

/// What a connection adds to a switch that closes or opens it: of both its channels the greater path
/// delay, and the writes to the tables of the interfaces.
#[derive(Clone, Copy)]
pub(crate) struct Change {
    pub conn: ConnId,
    pub lag: u32,
    pub writes: u32,
}

/// What the connections of a use case add, one by one and all together.
#[derive(Drop)]
pub(crate) struct Changes {
    list: Vec<Change>,
    lag: u32,
    writes: u32,
}

impl Model for Changes {
    ghost use Rattle.aeth_tables.specs.Changes.{AreFew, lag_in, writes_in};
    ghost use Rattle.aeth_tables.specs.declared.changes.Change.{Change};
    ghost use Rattle.std.specs.Prelude.{◌≡◌, List};

    ghost Value = { List Change };

    ghost view = { λ changes. changes.list.items };

    ghost invariant = { λ changes. AreFew changes.list.items
        × (changes.lag ≡ lag_in changes.list.items)
        × (changes.writes ≡ writes_in changes.list.items) };
}

impl Changes {
    /// The changes, in the order of the connections.
    pub fn list(&self) -> &[Change]
        ensures list { result.now ≡ self.now }
        ensures few { AreFew self.now }
    {
        &self.list
    }

    /// The greatest lag of all.
    pub fn lag(&self) -> u32
        ensures { result ≡ lag_in self.now }
    {
        self.lag
    }

    /// The writes of all.
    pub fn writes(&self) -> u32
        ensures writes { result ≡ writes_in self.now }
        ensures few { AreFew self.now }
    {
        self.writes
    }
}

/// What a connection adds that has these grants.
fn change_by(chip: &Chip, conn: ConnId, fwd: &Grant, back: &Grant) -> Change
    requires fwd { HasLinks chip.now fwd.now }
    requires back { HasLinks chip.now back.now }
    ensures change { result ≡ record {
      conn = conn;
      lag = max (path_delay chip.now.links fwd.now.path) (path_delay chip.now.links back.now.path);
      writes = (length fwd.now.slots.slots + 1) + (length back.now.slots.slots + 1);
    } }
    ensures few { result.writes ≤ most_writes }
{
    let lag = chip.path_delay(&fwd.path).max(chip.path_delay(&back.path));
    Change {
        conn,
        lag,
        writes: (fwd.slots.count() + 1) + (back.slots.count() + 1),
    }
}

/// What a connection adds, where it has its seats and grants.
fn change_with(
    chip: &Chip,
    conn: ConnId,
    connection: &Connection,
    seats: &[SeatLine],
    fwd: Option<&Grant>,
    back: Option<&Grant>,
) -> Option<Change>
    requires seats { Rises seat_before seats.now }
    requires fwd { IfSome (option_copied fwd) (HasLinks chip.now) }
    requires back { IfSome (option_copied back) (HasLinks chip.now) }
    ensures change { result ≡ option_map (change_of chip.now) (granted_with conn.0 connection.now
        (line_of seats.now connection.now.from) (line_of seats.now connection.now.to)
        (option_copied fwd.entry) (option_copied back.entry)) }
    ensures few { IfSome result (λ change. change.writes ≤ most_writes) }
{
    line_of(seats, connection.from)?;
    line_of(seats, connection.to)?;
    let fwd = fwd?;
    let back = back?;
    Some(change_by(chip, conn, fwd, back))
}

/// What the connection of this number adds by a plan, in a group.
fn change_in(chip: &Chip, app: &App, plan: &Plan, group: GroupId, conn: ConnId) -> Option<Change>
    requires links { All (HasLinks chip.now) plan.now.grants }
    requires conn { conn.0 < length app.now.connections }
    ensures change { result ≡ option_map (change_of chip.now)
        (granted_of app.now plan.now group.0 conn.0) }
    ensures few { IfSome result (λ change. change.writes ≤ most_writes) }
{
    // The call tells that the lines of every plan are in order.
    let _slots = plan.slots();
    let (fwd, back) = grants_of(plan.grants(), Unit { conn, group });
    change_with(chip, conn, &app.connection(conn), plan.seats(), fwd, back)
}

/// What the connections of a use case add, one by one.
fn list_of(
    alloc: Global,
    chip: &Chip,
    app: &App,
    groups: &Groups,
    plan: &Plan,
    u: UseId,
) -> Result<Vec<Change>, NoMemory>
    requires groups { groups.now ≡ groups_of app.now }
    requires plan { IsPlanOf chip.now app.now groups.now plan.now }
    requires use_case { u.0 < length groups.now.uses }
    ensures list { IfOk result (λ list. list.items
        ≡ map (change_of chip.now) (granted_in app.now groups.now plan.now u.0)) }
    ensures few { IfOk result (λ list. AreFew list.items) }
{
    let group = groups.group_of(u);
    let mut list = Vec::new(alloc);
    for c in 0..app.connections() {
        let conn = ConnId(c);
        if groups.has(u, conn) {
            if let Some(change) = change_in(chip, app, plan, group, conn) {
                list.push(change)?;
            }
        }
    }
    Ok(list)
}

/// Some changes, with what they add all together.
fn changes_with(list: Vec<Change>) -> Changes
    requires { AreFew list.items }
    ensures { result ≡ list.items }
{
    let mut lag = 0;
    let mut writes = 0;
    for change in &list {
        lag = lag.max(change.lag);
        writes += change.writes;
    }
    Changes { list, lag, writes }
}

/// What the connections of a use case add.
fn changes_of(
    alloc: Global,
    chip: &Chip,
    app: &App,
    groups: &Groups,
    plan: &Plan,
    u: UseId,
) -> Result<Changes, NoMemory>
    requires groups { groups.now ≡ groups_of app.now }
    requires plan { IsPlanOf chip.now app.now groups.now plan.now }
    requires use_case { u.0 < length groups.now.uses }
    ensures { IfOk result (λ changes. changes
        ≡ map (change_of chip.now) (granted_in app.now groups.now plan.now u.0)) }
{
    let list = list_of(alloc, chip, app, groups, plan, u)?;
    Ok(changes_with(list))
}

/// What the connections of each use case add.
pub(crate) fn all_changes(
    alloc: Global,
    chip: &Chip,
    app: &App,
    groups: &Groups,
    plan: &Plan,
) -> Result<Vec<Changes>, NoMemory>
    requires groups { groups.now ≡ groups_of app.now }
    requires plan { IsPlanOf chip.now app.now groups.now plan.now }
    ensures { IfOk result (λ all. all.items
        ≡ map (λ u. map (change_of chip.now) (granted_in app.now groups.now plan.now u))
        (range_with_len 0 (length groups.now.uses))) }
{
    let mut all = Vec::new(alloc);
    for u in 0..groups.uses() {
        all.push(changes_of(alloc, chip, app, groups, plan, UseId(u))?)?;
    }
    Ok(all)
}

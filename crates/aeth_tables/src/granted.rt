// The connections of a use case, each with the seats of its cores and the grants of its two sides.
ghost use Rattle.aeth_group.specs.Members.{groups_of};
ghost use Rattle.aeth_plan.specs.Plan.{seat_before};
ghost use Rattle.aeth_tables.specs.Granted.{grant_on, granted_in, granted_of};
ghost use Rattle.aeth_tables.specs.Granted.{granted_with, line_of, other_side};
ghost use Rattle.aeth_tables.specs.Granted.{receiving_seat, sending_seat};
ghost use Rattle.aeth_text.specs.Order.{Rises};
ghost use Rattle.std.specs.Prelude.{◌≡◌, ◌<◌, IfOk, length, option_copied};

use crate::finding::{grants_near, grants_of, line_of};
use aeth_app::{App, Connection};
use aeth_base::{ConnId, GroupId, NoMemory, Side, Unit, UseId};
use aeth_group::{Grant, Groups, SeatLine};
use aeth_plan::Plan;
use std::alloc::Global;

/// A connection of a use case, with the seats of its cores and the grants of its two sides.
#[derive(Clone, Copy)]
pub(crate) struct GrantedConnection {
    pub conn: ConnId,
    pub connection: Connection,
    pub from: SeatLine,
    pub to: SeatLine,
    pub fwd: Grant,
    pub back: Grant,
}

/// The side of the opposite channel.
pub(crate) fn other_side(side: Side) -> Side
    ensures { result ≡ other_side side }
{
    match side {
        Side::Fwd => Side::Back,
        Side::Back => Side::Fwd,
    }
}

impl GrantedConnection {
    /// The seat of the core that sends on a side.
    pub fn sending_seat(&self, side: Side) -> SeatLine
        ensures { result ≡ sending_seat self.now side }
    {
        match side {
            Side::Fwd => self.from,
            Side::Back => self.to,
        }
    }

    /// The seat of the core that receives on a side.
    pub fn receiving_seat(&self, side: Side) -> SeatLine
        ensures { result ≡ receiving_seat self.now side }
    {
        match side {
            Side::Fwd => self.to,
            Side::Back => self.from,
        }
    }

    /// The grant for a side.
    pub fn grant_on(&self, side: Side) -> Grant
        ensures { result ≡ grant_on self.now side }
    {
        match side {
            Side::Fwd => self.fwd,
            Side::Back => self.back,
        }
    }
}

/// A connection with its seats and grants, where it has all of them.
fn granted_with(
    conn: ConnId,
    connection: &Connection,
    seats: &[SeatLine],
    fwd: Option<&Grant>,
    back: Option<&Grant>,
) -> Option<GrantedConnection>
    requires { Rises seat_before seats.now }
    ensures { result ≡ granted_with conn.0 connection.now (line_of seats.now connection.now.from)
        (line_of seats.now connection.now.to) (option_copied fwd.entry) (option_copied back.entry) }
{
    let from = line_of(seats, connection.from)?;
    let to = line_of(seats, connection.to)?;
    let fwd = fwd?;
    let back = back?;
    Some(GrantedConnection {
        conn,
        connection: *connection,
        from,
        to,
        fwd: *fwd,
        back: *back,
    })
}

/// The connection of this number, with its seats in a plan and its grants in a group.
fn granted_of(app: &App, plan: &Plan, group: GroupId, conn: ConnId) -> Option<GrantedConnection>
    requires { conn.0 < length app.now.connections }
    ensures { result ≡ granted_of app.now plan.now group.0 conn.0 }
{
    // The call tells that the lines of every plan are in order.
    let _slots = plan.slots();
    let (fwd, back) = grants_of(plan.grants(), Unit { conn, group });
    granted_with(conn, &app.connection(conn), plan.seats(), fwd, back)
}

/// The same, where the grants at a place and behind it are looked at first.
pub(crate) fn granted_near(
    app: &App,
    plan: &Plan,
    place: usize,
    unit: Unit,
) -> Option<GrantedConnection>
    requires { unit.conn.0 < length app.now.connections }
    ensures { result ≡ granted_of app.now plan.now unit.group.0 unit.conn.0 }
{
    // The call tells that the lines of every plan are in order.
    let _slots = plan.slots();
    let (fwd, back) = grants_near(plan.grants(), place, unit);
    granted_with(
        unit.conn,
        &app.connection(unit.conn),
        plan.seats(),
        fwd,
        back,
    )
}

/// The connections of a use case, in file order, with their seats in a plan and their grants in the
/// group of the use case.
pub(crate) fn granted_in(
    alloc: Global,
    app: &App,
    groups: &Groups,
    plan: &Plan,
    u: UseId,
) -> Result<Vec<GrantedConnection>, NoMemory>
    requires groups { groups.now ≡ groups_of app.now }
    requires use_case { u.0 < length groups.now.uses }
    ensures { IfOk result (λ granted. granted.items
        ≡ granted_in app.now groups.now plan.now u.0) }
{
    let group = groups.group_of(u);
    let mut granted = Vec::with_capacity(alloc, app.connections() as usize)?;
    for c in 0..app.connections() {
        let conn = ConnId(c);
        if groups.has(u, conn) {
            if let Some(one) = granted_of(app, plan, group, conn) {
                granted.push(one)?;
            }
        }
    }
    Ok(granted)
}

// How many words a queue must have room for, for each channel that a plan grants.
ghost use Rattle.aeth_app.specs.App.{IsApp};
ghost use Rattle.aeth_chip.specs.Chip.{IsChip};
ghost use Rattle.aeth_group.specs.Members.{groups_of};
ghost use Rattle.aeth_plan.specs.Plan.{IsPlanOf};
ghost use Rattle.aeth_plan.specs.Accepted.{IsAccepted};
ghost use Rattle.aeth_plan.specs.Design.{IsDesign};
ghost use Rattle.aeth_tables.specs.Buffers.{buffer_on, buffers_for, buffers_in, buffers_of, buffers_on};
ghost use Rattle.aeth_tables.specs.Reserved.{IsReserved};
ghost use Rattle.std.specs.Prelude.{◌≡◌, ◌<◌, ◌++◌, IfOk, OnOk, length};

use crate::granted::{GrantedConnection, granted_near};
use crate::rows::{queue_at, shape_on};
use aeth_app::App;
use aeth_base::{ConnId, GroupId, NiId, NoMemory, Side, Unit};
use aeth_chip::Chip;
use aeth_group::Groups;
use aeth_plan::Plan;
use aeth_server::buffer;
use std::alloc::Global;

/// What a channel needs at its receiving interface: the queue at which it lands, and the words for which
/// this must have room.
#[derive(Clone, Copy)]
pub struct Buffer {
    /// The receiving interface.
    pub ni: NiId,
    /// The queue there: below 32.
    pub queue: u8,
    /// The words that wait there at most.
    pub words: u32,
}

/// What the channel of a side needs.
fn buffer_on(chip: &Chip, app: &App, granted: &GrantedConnection, side: Side) -> Buffer
    requires chip { IsChip chip.now }
    requires app { IsApp app.now }
    requires granted { IsReserved chip.now app.now granted.now }
    ensures { result ≡ buffer_on chip.now app.now granted.now side }
{
    let receiver = granted.receiving_seat(side);
    Buffer {
        ni: receiver.ni,
        queue: queue_at(app, granted.conn, &receiver),
        words: buffer(&shape_on(chip, app, granted, side)),
    }
}

/// Appends what the two channels of a connection need.
fn push_granted(
    buffers: &mut Vec<Buffer>,
    chip: &Chip,
    app: &App,
    granted: &GrantedConnection,
) -> Result<(), NoMemory>
    requires chip { IsChip chip.now }
    requires app { IsApp app.now }
    requires granted { IsReserved chip.now app.now granted.now }
    ensures { OnOk result (buffers.new.items
        ≡ buffers.old.items ++ buffers_on chip.now app.now granted.now) }
{
    buffers.push(buffer_on(chip, app, granted, Side::Fwd))?;
    buffers.push(buffer_on(chip, app, granted, Side::Back))?;
    Ok(())
}

/// Appends what the channels of a connection need in a group, where this has it.
fn push_unit(
    buffers: &mut Vec<Buffer>,
    chip: &Chip,
    app: &App,
    groups: &Groups,
    plan: &Plan,
    unit: Unit,
) -> Result<(), NoMemory>
    requires design { IsDesign chip.now app.now plan.now }
    requires conn { unit.conn.0 < length app.now.connections }
    ensures { OnOk result (buffers.new.items ≡ buffers.old.items
        ++ buffers_for chip.now app.now groups.now plan.now unit.conn.0 unit.group.0) }
{
    if !groups.member(unit.group, unit.conn) {
        return Ok(());
    }

    // The grants of an accepted plan are in the same order.
    match granted_near(app, plan, buffers.len(), unit) {
        None => Ok(()),
        Some(granted) => push_granted(buffers, chip, app, &granted),
    }
}

/// Appends what the channels of a connection need in all groups.
fn push_connection(
    buffers: &mut Vec<Buffer>,
    chip: &Chip,
    app: &App,
    groups: &Groups,
    plan: &Plan,
    conn: ConnId,
) -> Result<(), NoMemory>
    requires design { IsDesign chip.now app.now plan.now }
    requires conn { conn.0 < length app.now.connections }
    ensures { OnOk result (buffers.new.items
        ≡ buffers.old.items ++ buffers_in chip.now app.now groups.now plan.now conn.0) }
{
    for g in 0..groups.count() {
        let unit = Unit {
            conn,
            group: GroupId(g),
        };
        push_unit(buffers, chip, app, groups, plan, unit)?;
    }
    Ok(())
}

/// What all channels need by an accepted plan, in each group that has their connections. `Err` where
/// there was no memory.
pub fn buffers(
    alloc: Global,
    chip: &Chip,
    app: &App,
    groups: &Groups,
    plan: &Plan,
) -> Result<Vec<Buffer>, NoMemory>
    requires groups { groups.now ≡ groups_of app.now }
    requires plan { IsPlanOf chip.now app.now groups.now plan.now }
    requires accepted { IsAccepted chip.now app.now groups.now plan.now }
    ensures { IfOk result (λ buffers. buffers.items
        ≡ buffers_of chip.now app.now groups.now plan.now) }
{
    // The calls tell what holds of every chip and every application.
    let _chip_slots = chip.slots();
    let _app_slots = app.slots();
    let mut buffers = Vec::with_capacity(alloc, plan.grants().len())?;
    for c in 0..app.connections() {
        push_connection(&mut buffers, chip, app, groups, plan, ConnId(c))?;
    }
    Ok(buffers)
}

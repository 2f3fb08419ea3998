// The rows and the shapes of channels.
ghost use Rattle.aeth_app.specs.App.{IsApp, is_end};
ghost use Rattle.aeth_app.specs.Limits.{seats_per_ni};
ghost use Rattle.aeth_chip.specs.Chip.{IsChip};
ghost use Rattle.aeth_tables.specs.Reserved.{IsReserved};
ghost use Rattle.aeth_tables.specs.Tables.{queue_at, row_on, rows_on, shape_on, shapes_on};
ghost use Rattle.aeth_tables.specs.Tables.{tables_with};
ghost use Rattle.std.specs.Prelude.{◌≡◌, ◌<◌, ◌++◌, ◌∷◌, [], All, IfOk, IsSomeAnd, IsTrue, OnOk};
ghost use Rattle.std.specs.Prelude.{slice_get};

use crate::granted::{GrantedConnection, other_side};
use crate::route::route_along;
use crate::table::Tables;
use aeth_app::{App, MAX_CORE_CONNECTIONS};
use aeth_base::{Channel, ConnId, NoMemory, Side, UseId};
use aeth_chip::Chip;
use aeth_group::SeatLine;
use aeth_ni::ChannelRow;
use aeth_server::{ChannelShape, buffer};
use std::alloc::Global;

/// The queue number of a connection at the seat of one of its cores.
pub(crate) fn queue_at(app: &App, conn: ConnId, line: &SeatLine) -> u8
    requires seat { line.now.seat < seats_per_ni }
    requires end { IsSomeAnd (slice_get app.now.connections conn.0) (λ connection.
        IsTrue (is_end line.now.core connection)) }
    ensures { result ≡ queue_at app.now conn line.now }
{
    (MAX_CORE_CONNECTIONS * line.seat as u32 + app.position(line.core, conn)) as u8
}

/// What the channel of a side is granted and asks for.
pub(crate) fn shape_on(
    chip: &Chip,
    app: &App,
    granted: &GrantedConnection,
    side: Side,
) -> ChannelShape
    requires { IsReserved chip.now app.now granted.now }
    ensures { result ≡ shape_on chip.now app.now granted.now side }
{
    let own = granted.grant_on(side);
    let opposite = granted.grant_on(other_side(side));
    let channel = Channel {
        conn: granted.conn,
        side,
    };
    ChannelShape {
        slots: own.slots,
        links: chip.path_delay(&own.path),
        delay: app.wish(channel).delay,
        need: app.need(channel),
        back: opposite.slots,
        back_links: chip.path_delay(&opposite.path),
    }
}

/// The row of the channel of a side that has this shape, at its sending interface.
fn row_on(
    chip: &Chip,
    app: &App,
    granted: &GrantedConnection,
    side: Side,
    shape: &ChannelShape,
) -> ChannelRow
    requires chip { IsChip chip.now }
    requires app { IsApp app.now }
    requires granted { IsReserved chip.now app.now granted.now }
    requires shape { shape.now ≡ shape_on chip.now app.now granted.now side }
    ensures { result ≡ row_on chip.now app.now granted.now side }
{
    let grant = granted.grant_on(side);
    let sender = granted.sending_seat(side);
    let receiver = granted.receiving_seat(side);
    ChannelRow {
        channel: Channel {
            conn: granted.conn,
            side,
        },
        ni: sender.ni,
        queue: queue_at(app, granted.conn, &sender),
        slots: grant.slots,
        route: route_along(chip, &grant.path),
        remote: queue_at(app, granted.conn, &receiver),
        credits: buffer(shape),
    }
}

/// Appends the row and the shape of the channel of a side.
fn push_channel(
    rows: &mut Vec<ChannelRow>,
    shapes: &mut Vec<ChannelShape>,
    chip: &Chip,
    app: &App,
    granted: &GrantedConnection,
    side: Side,
) -> Result<(), NoMemory>
    requires chip { IsChip chip.now }
    requires app { IsApp app.now }
    requires granted { IsReserved chip.now app.now granted.now }
    ensures rows { OnOk result (rows.new.items
        ≡ rows.old.items ++ row_on chip.now app.now granted.now side ∷ []) }
    ensures shapes { OnOk result (shapes.new.items
        ≡ shapes.old.items ++ shape_on chip.now app.now granted.now side ∷ []) }
{
    let shape = shape_on(chip, app, granted, side);
    rows.push(row_on(chip, app, granted, side, &shape))?;
    shapes.push(shape)?;
    Ok(())
}

/// Appends the rows and the shapes of the two channels of a connection.
fn push_connection(
    rows: &mut Vec<ChannelRow>,
    shapes: &mut Vec<ChannelShape>,
    chip: &Chip,
    app: &App,
    granted: &GrantedConnection,
) -> Result<(), NoMemory>
    requires chip { IsChip chip.now }
    requires app { IsApp app.now }
    requires granted { IsReserved chip.now app.now granted.now }
    ensures rows { OnOk result (rows.new.items
        ≡ rows.old.items ++ rows_on chip.now app.now granted.now) }
    ensures shapes { OnOk result (shapes.new.items
        ≡ shapes.old.items ++ shapes_on chip.now app.now granted.now) }
{
    push_channel(rows, shapes, chip, app, granted, Side::Fwd)?;
    push_channel(rows, shapes, chip, app, granted, Side::Back)
}

/// The tables of a use case that has these connections.
pub(crate) fn tables_with(
    alloc: Global,
    chip: &Chip,
    app: &App,
    u: UseId,
    connections: &[GrantedConnection],
) -> Result<Tables, NoMemory>
    requires chip { IsChip chip.now }
    requires app { IsApp app.now }
    requires connections { All (IsReserved chip.now app.now) connections.now }
    ensures { IfOk result (λ tables. tables
        ≡ tables_with chip.now app.now u connections.now) }
{
    let channels = connections.len().saturating_mul(2);
    let mut rows = Vec::with_capacity(alloc, channels)?;
    let mut shapes = Vec::with_capacity(alloc, channels)?;
    for granted in connections {
        push_connection(&mut rows, &mut shapes, chip, app, granted)?;
    }
    Ok(Tables {
        uses: u,
        rows,
        shapes,
    })
}

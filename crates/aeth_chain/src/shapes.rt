// The shapes of the channels of a chain.
ghost use Rattle.std.specs.Prelude.{◌≡◌, ◌<◌, ◌++◌, [], IfOk, OnOk, length};
ghost use Rattle.std.specs.List.{cons_option};
ghost use Rattle.aeth_group.specs.Members.{groups_of};
ghost use Rattle.aeth_plan.specs.Design.{IsDesign};
ghost use Rattle.aeth_tables.specs.Tables.{tables_of};
ghost use Rattle.aeth_chain.specs.Chain.{IsChain};
ghost use Rattle.aeth_chain.specs.ChainItems.{AreItemsOf};
ghost use Rattle.aeth_chain.specs.Shapes.{AreShapesIn, place_in, shape_in, shapes_in};

use crate::channels::is_channel;
use crate::item::ChainItem;
use aeth_base::{Channel, NoMemory, UseId};
use aeth_ni::ChannelRow;
use aeth_plan::{Design, Planned};
use aeth_server::ChannelShape;
use aeth_tables::{Tables, tables};
use std::alloc::Global;

/// The shapes of the channels of a chain in a use case, by an accepted plan. With them the items are a
/// chain. `Err` where there was no memory.
pub fn chain_shapes(
    alloc: Global,
    design: &Design,
    planned: &Planned,
    u: UseId,
    items: &[ChainItem],
) -> Result<Vec<ChannelShape>, NoMemory>
    requires groups { planned.now.groups ≡ groups_of design.now.app }
    requires design { IsDesign design.now.chip design.now.app planned.now.plan }
    requires use_case { u.0 < length design.now.app.uses }
    requires items { AreItemsOf design.now.app u.0 items.now }
    ensures gives { IfOk result (λ shapes. shapes.items ≡ shapes_in (tables_of design.now.chip
        design.now.app (groups_of design.now.app) planned.now.plan u) items.now) }
    ensures tabled { IfOk result (λ shapes. AreShapesIn (tables_of design.now.chip design.now.app
        (groups_of design.now.app) planned.now.plan u) items.now shapes.items) }
    ensures chain { IfOk result (λ shapes. IsChain items.now shapes.items) }
{
    let Design { chip, app } = design;
    let Planned { groups, plan } = planned;
    let tables = tables(alloc, chip, app, groups, plan, u)?;
    shapes_in(alloc, &tables, items)
}

// The shapes of the channels of some items in tables.
fn shapes_in(
    alloc: Global,
    tables: &Tables,
    items: &[ChainItem],
) -> Result<Vec<ChannelShape>, NoMemory>
    ensures { IfOk result (λ shapes. shapes.items ≡ shapes_in tables.now items.now) }
{
    let mut shapes = Vec::with_capacity(alloc, items.len())?;
    for item in items {
        push_some(&mut shapes, shape_in(tables, item.channel))?;
    }
    Ok(shapes)
}

// Appends a shape, if there is one.
fn push_some(shapes: &mut Vec<ChannelShape>, shape: Option<ChannelShape>) -> Result<(), NoMemory>
    ensures { OnOk result (shapes.new.items ≡ shapes.old.items ++ cons_option shape []) }
{
    if let Some(shape) = shape {
        shapes.push(shape)?;
    }
    Ok(())
}

// The shape of a channel in tables.
fn shape_in(tables: &Tables, channel: Channel) -> Option<ChannelShape>
    ensures { result ≡ shape_in tables.now channel }
{
    let place = place_in(&tables.rows, channel)?;
    tables.shapes.get(place).copied()
}

// The place of a channel's row.
fn place_in(rows: &[ChannelRow], channel: Channel) -> Option<usize>
    ensures { result ≡ place_in rows.now channel }
{
    rows.iter().position(|row| is_channel(channel, row.channel))
}

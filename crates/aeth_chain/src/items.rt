// The items of a chain, and the rules that they keep.
ghost use Rattle.std.specs.Prelude.{◌≡◌, ◌<◌, ◌≤◌, IfOk, length, map};
ghost use Rattle.std.specs.List.{list_any};
ghost use Rattle.aeth_base.specs.Faults.{Reads};
ghost use Rattle.aeth_trace.specs.Channels.{is_channel};
ghost use Rattle.aeth_chain.specs.Limits.{max_chain_items};
ghost use Rattle.aeth_chain.specs.ChainItems.{AreItemsOf, conn_of, first_core, item_of};
ghost use Rattle.aeth_chain.specs.ChainItems.{items_of, judged_by, keeps, last_core};
ghost use Rattle.aeth_chain.specs.Fault.{rule_of};
ghost use Rattle.aeth_chain.specs.ItemNames.{AreItemNames};

use crate::channels::is_channel;
use crate::fault::{ChainFault, ItemRule};
use crate::item::ChainItem;
use crate::names::ItemName;
use aeth_app::App;
use aeth_base::{Channel, ConnId, Name, NoMemory, Side, UseId};
use std::alloc::Global;

/// The items of names in a use case; or the first rule that they break, at its first item; or memory ran
/// out.
#[tactic(auto, unfolding(crate::specs::ChainItems::items_of))]
pub fn chain_items(
    alloc: Global,
    names: &[ItemName],
    app: &App,
    u: UseId,
) -> Result<Vec<ChainItem>, ChainFault>
    requires names { AreItemNames names.now }
    requires use_case { u.0 < length app.now.uses }
    ensures reads { Reads rule_of (λ items. items.items) result (items_of app.now u.0 names.now) }
    ensures items { IfOk result (λ items. AreItemsOf app.now u.0 items.items) }
{
    let items = items_named(alloc, names, app)?;
    judge(ItemRule::UnknownConnection, names, &items, app, u)?;
    judge(ItemRule::NotInUse, names, &items, app, u)?;
    judge(ItemRule::NotJoined, names, &items, app, u)?;
    judge(ItemRule::Repeated, names, &items, app, u)?;
    Ok(items)
}

// The items of names.
fn items_named(alloc: Global, names: &[ItemName], app: &App) -> Result<Vec<ChainItem>, NoMemory>
    ensures { IfOk result (λ items. items.items ≡ map (item_of app.now) names.now) }
{
    let mut items = Vec::with_capacity(alloc, names.len())?;
    for one in names {
        let conn = ConnId(conn_of(app, &one.name));
        let side = one.side;
        items.push(ChainItem {
            channel: Channel { conn, side },
            work: one.work,
        })?;
    }
    Ok(items)
}

// The connection of a name, and their number where none has it.
fn conn_of(app: &App, name: &Name) -> u32
    ensures { result ≡ conn_of app.now name.now }
{
    match app.find_connection(name) {
        Some(conn) => conn.0,
        None => app.connections(),
    }
}

// Judges a rule over all items of some names.
fn judge(
    rule: ItemRule,
    names: &[ItemName],
    items: &[ChainItem],
    app: &App,
    u: UseId,
) -> Result<(), ChainFault>
    requires few { length names.now ≤ max_chain_items }
    requires beside { length items.now ≡ length names.now }
    requires use_case { u.0 < length app.now.uses }
    ensures { Reads rule_of (λ done. done) result (judged_by rule app.now u.0 items.now names.now) }
{
    let mut place = 0;
    for one in names {
        if !keeps(rule, app, u, items, place) {
            return Err(ChainFault::Broken {
                rule,
                item: place as u32 + 1,
                name: one.name,
            });
        }
        place += 1;
    }
    Ok(())
}

// Whether the item at a place keeps a rule.
fn keeps(rule: ItemRule, app: &App, u: UseId, items: &[ChainItem], place: usize) -> bool
    requires place { place < length items.now }
    requires use_case { u.0 < length app.now.uses }
    ensures { result ≡ keeps rule app.now u.0 items.now place }
{
    let channel = items[place].channel;
    match rule {
        ItemRule::UnknownConnection => channel.conn.0 < app.connections(),
        ItemRule::NotInUse => app.has(u, channel.conn),
        ItemRule::NotJoined => {
            place == 0 || first_core(app, channel) == last_core(app, items[place - 1].channel)
        }
        ItemRule::Repeated => !has_channel(&items[..place], channel),
    }
}

// Whether a channel stands in some items.
fn has_channel(items: &[ChainItem], channel: Channel) -> bool
    ensures { result ≡ list_any (λ item. is_channel channel item.channel) items.now }
{
    items.iter().any(|item| is_channel(channel, item.channel))
}

// The core at which a channel begins; none where its connection is missing.
fn first_core(app: &App, channel: Channel) -> Option<u32>
    ensures { result ≡ first_core app.now channel }
{
    if channel.conn.0 >= app.connections() {
        return None;
    }
    let connection = app.connection(channel.conn);
    match channel.side {
        Side::Fwd => Some(connection.from.0),
        Side::Back => Some(connection.to.0),
    }
}

// The core at which it ends.
fn last_core(app: &App, channel: Channel) -> Option<u32>
    ensures { result ≡ last_core app.now channel }
{
    if channel.conn.0 >= app.connections() {
        return None;
    }
    let connection = app.connection(channel.conn);
    match channel.side {
        Side::Fwd => Some(connection.to.0),
        Side::Back => Some(connection.from.0),
    }
}

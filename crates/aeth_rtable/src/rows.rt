// The rows of router tables, in the order of routers, ports and slots.
ghost use Rattle.aeth_chip.specs.Chip.{IsChip};
ghost use Rattle.aeth_group.specs.Members.{groups_of};
ghost use Rattle.aeth_plan.specs.Plan.{IsPlanOf};
ghost use Rattle.aeth_plan.specs.Accepted.{IsAccepted};
ghost use Rattle.aeth_rtable.specs.Entries.{HasEntries};
ghost use Rattle.aeth_rtable.specs.Rows.{router_rows, rows_by, rows_of_port, rows_of_router, rows_with};
ghost use Rattle.aeth_rtable.specs.RouterTables.{AreTables};
ghost use Rattle.aeth_rtable.specs.declared.hops.Hop.{Hop};
ghost use Rattle.std.specs.Prelude.{◌≡◌, ◌<◌, ◌≤◌, ◌+◌, ◌*◌, ◌++◌, List, IfOk, OnOk, length};

use crate::hops::entries_in;
use aeth_app::App;
use aeth_base::{LinkId, NoMemory, RouterId, UseId};
use aeth_chip::Chip;
use aeth_group::Groups;
use aeth_plan::Plan;
use aeth_router::RouterRow;
use std::alloc::Global;

/// Appends the row of an entry, if there is one.
fn push_entry(
    rows: &mut Vec<RouterRow>,
    router: RouterId,
    port: u8,
    slot: u32,
    entry: Option<LinkId>,
) -> Result<(), NoMemory>
    ensures { OnOk result (rows.new.items ≡ rows.old.items ++ rows_with router port slot entry) }
{
    if let Some(from) = entry {
        rows.push(RouterRow {
            router,
            port,
            slot,
            from,
        })?;
    }
    Ok(())
}

/// Appends the rows of a port of a router, which sends on this link, by the entries of all links.
fn push_port(
    rows: &mut Vec<RouterRow>,
    entries: &[Option<LinkId>],
    slots: u32,
    router: RouterId,
    port: u8,
    link: LinkId,
) -> Result<(), NoMemory>
    requires { link.0 * slots + slots ≤ length entries.now }
    ensures { (hops : List Hop) → HasEntries slots hops entries.now → OnOk result
        (rows.new.items ≡ rows.old.items ++ rows_of_port hops slots router port link.0) }
{
    let first = link.0 as usize * slots as usize;
    for slot in 0..slots {
        push_entry(rows, router, port, slot, entries[first + slot as usize])?;
    }
    Ok(())
}

/// Appends the rows of a router.
fn push_router(
    rows: &mut Vec<RouterRow>,
    chip: &Chip,
    entries: &[Option<LinkId>],
    router: RouterId,
) -> Result<(), NoMemory>
    requires chip { IsChip chip.now }
    requires count { length entries.now ≡ length chip.now.links * chip.now.slots }
    requires router { router.0 < length chip.now.routers }
    ensures { (hops : List Hop) → HasEntries chip.now.slots hops entries.now → OnOk result
        (rows.new.items ≡ rows.old.items ++ rows_of_router hops chip.now router) }
{
    let links = chip.outgoing(router);
    for port in 0..links.len() {
        push_port(rows, entries, chip.slots(), router, port as u8, links[port])?;
    }
    Ok(())
}

/// The rows of all routers.
fn rows_by(
    alloc: Global,
    chip: &Chip,
    entries: &[Option<LinkId>],
) -> Result<Vec<RouterRow>, NoMemory>
    requires chip { IsChip chip.now }
    requires count { length entries.now ≡ length chip.now.links * chip.now.slots }
    ensures { (hops : List Hop) → HasEntries chip.now.slots hops entries.now
        → IfOk result (λ rows. rows.items ≡ rows_by hops chip.now) }
{
    let mut rows = Vec::new(alloc);
    for r in 0..chip.routers() {
        push_router(&mut rows, chip, entries, RouterId(r))?;
    }
    Ok(rows)
}

/// The tables of the routers in a use case by an accepted plan: a row for each entry, ascending by
/// router, port and slot, no two of which agree in all three. `Err` where there was no memory.
///
/// The flits of a channel enter each link of its path in its starts, turned by the delays of the links
/// before. So a router that sends on a link knows from the slot on which link the flit came, and
/// reads no header.
pub fn router_rows(
    alloc: Global,
    chip: &Chip,
    app: &App,
    groups: &Groups,
    plan: &Plan,
    u: UseId,
) -> Result<Vec<RouterRow>, NoMemory>
    requires groups { groups.now ≡ groups_of app.now }
    requires plan { IsPlanOf chip.now app.now groups.now plan.now }
    requires accepted { IsAccepted chip.now app.now groups.now plan.now }
    ensures gives { IfOk result (λ rows. rows.items
        ≡ router_rows chip.now groups.now plan.now u.0) }
    ensures tables { IfOk result (λ rows.
        AreTables chip.now groups.now plan.now u.0 rows.items) }
{
    // The calls tell what holds of every chip and every application.
    let _chip_slots = chip.slots();
    let _app_slots = app.slots();
    let entries = entries_in(alloc, chip, groups, plan, u)?;
    rows_by(alloc, chip, &entries)
}

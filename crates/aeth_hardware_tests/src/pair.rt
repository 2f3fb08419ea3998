// Two routers that send to each other, with an interface at each, and a channel either way.
ghost use Rattle.std.specs.Prelude.{◌≡◌, ◌*◌, All, IfSome, IsTrue, Some, length, map, slice_get};
ghost use Rattle.aeth_components.specs.Components.{wirings_of};
ghost use Rattle.aeth_components.specs.Events.{IsDoable};
ghost use Rattle.aeth_components.specs.Wirings.{RouterWiring, wiring_of};
ghost use Rattle.aeth_components.specs.Making.{made_router, new_parts};
ghost use Rattle.aeth_components.specs.declared.making.RouterKind.TheVariants.{ByHeader, ByTable};
ghost use Rattle.aeth_ni.specs.Limits.{queues_of_interface};
ghost use Rattle.aeth_router.specs.Rows.{IsRowFor};
ghost use Rattle.aeth_router.specs.TableRouter.{new_table_router};

use aeth_base::{LinkId, NiId, RouterId};
use aeth_chip::Chip;
use aeth_components::{ChannelEnd, ChannelState, Components, Event, RouterKind};
use aeth_ni::{QUEUES_OF_INTERFACE, Write};
use aeth_router::{Part, Router, RouterRow, TableRouter};
use std::alloc::Global;

pub const PAIR: &str = "version = 1\nslots = 8\nrouters = ['r0', 'r1']\nnis = ['n0', 'n1']\n\
    link = [{ from = 'n0', to = 'r0' }, { from = 'r0', to = 'n0' },\n\
    { from = 'n1', to = 'r1' }, { from = 'r1', to = 'n1' },\n\
    { from = 'r0', to = 'r1' }, { from = 'r1', to = 'r0' }]\n";

const SENDER: ChannelEnd = ChannelEnd {
    ni: NiId(0),
    queue: 0,
};

const RECEIVER: ChannelEnd = ChannelEnd {
    ni: NiId(1),
    queue: 0,
};

// A session of five words, from cycle 1 on.
const FORTH: ChannelState = ChannelState {
    sender: SENDER,
    receiver: RECEIVER,
    go: 1,
    fin: 1_000_000,
    first: 0,
    accepted: 5,
    pull: 2,
    enqueued: 0,
    landed: 0,
    taken: 0,
};

// One of three words, the other way.
const BACK: ChannelState = ChannelState {
    sender: RECEIVER,
    receiver: SENDER,
    first: 5,
    accepted: 3,
    ..FORTH
};

// The tables of both, by way of both routers: slots 0 and 4 forth, slot 4 back.
static TABLES: [Event; 5] = [
    Event::Change(Write::SetRoute {
        ni: NiId(0),
        queue: 0,
        route: 1,
        remote: 0,
        credits: 9,
    }),
    Event::Change(Write::SetSlot {
        ni: NiId(0),
        slot: 0,
        queue: 0,
    }),
    Event::Change(Write::SetSlot {
        ni: NiId(0),
        slot: 4,
        queue: 0,
    }),
    Event::Change(Write::SetRoute {
        ni: NiId(1),
        queue: 0,
        route: 1,
        remote: 0,
        credits: 9,
    }),
    Event::Change(Write::SetSlot {
        ni: NiId(1),
        slot: 4,
        queue: 0,
    }),
];

// The tables of the routers for the same slots: the first router one slot later than the sender, and the second two.
static ROWS: [RouterRow; 6] = [
    RouterRow {
        router: RouterId(0),
        port: 1,
        slot: 1,
        from: LinkId(0),
    },
    RouterRow {
        router: RouterId(0),
        port: 1,
        slot: 5,
        from: LinkId(0),
    },
    RouterRow {
        router: RouterId(1),
        port: 0,
        slot: 2,
        from: LinkId(4),
    },
    RouterRow {
        router: RouterId(1),
        port: 0,
        slot: 6,
        from: LinkId(4),
    },
    RouterRow {
        router: RouterId(1),
        port: 1,
        slot: 5,
        from: LinkId(2),
    },
    RouterRow {
        router: RouterId(0),
        port: 0,
        slot: 6,
        from: LinkId(5),
    },
];

// Whether a router of the chip can have the entry of a row.
fn does_fit(alloc: Global, chip: &Chip, row: &RouterRow) -> bool
    ensures { IsTrue result → IsRowFor (new_table_router row.now.router chip.now) row.now }
{
    match TableRouter::new(alloc, chip, row.router) {
        Ok(router) => router.can_set(row.port, row.slot, Some(row.from)),
        Err(_) => false,
    }
}

// Whether each row is one that a router of the chip can have.
fn do_fit(alloc: Global, chip: &Chip, rows: &[RouterRow]) -> bool
    ensures { IsTrue result
        → All (λ row. IsRowFor (new_table_router row.router chip.now) row) rows.now }
{
    for row in rows {
        if !does_fit(alloc, chip, row) {
            return false;
        }
    }
    true
}

// The components of the chip with both channels, whose routers are of a kind.
fn made(alloc: Global, chip: &Chip, kind: RouterKind, rooms: &[u32]) -> Option<Components>
    requires rooms { length rooms.now ≡ queues_of_interface * length chip.now.nis }
    requires few { length chip.now.nis ≡ 2 }
    ensures { IfSome result (λ pair. pair.parts ≡ new_parts chip.now kind rooms.now) }
{
    let channel_states = [FORTH, BACK].to_vec(alloc).ok()?;
    let words = [100, 101, 102, 103, 104, 105, 106, 107].to_vec(alloc).ok()?;
    Components::new(alloc, chip, kind, rooms, channel_states, words).ok()
}

// Rows enter the tables of routers that have none yet, if they can.
fn enter(
    alloc: Global,
    chip: &Chip,
    pair: &mut Components,
    rooms: &[u32],
    rows: &[RouterRow],
) -> bool
    requires { pair.old.parts ≡ new_parts chip.now ByTable rooms.now }
    ensures { wirings_of pair.new ≡ wirings_of pair.old }
{
    if !do_fit(alloc, chip, rows) {
        return false;
    }
    pair.enter(rows);
    true
}

// The components of the chip with both channels, with routers that read headers, or that have a table each.
fn routed(alloc: Global, chip: &Chip, by_table: bool, rooms: &[u32]) -> Option<Components>
    requires rooms { length rooms.now ≡ queues_of_interface * length chip.now.nis }
    requires few { length chip.now.nis ≡ 2 }
    ensures { IfSome result (λ pair.
        wirings_of pair ≡ map wiring_of (new_parts chip.now ByHeader rooms.now)) }
{
    if !by_table {
        return made(alloc, chip, RouterKind::ByHeader, rooms);
    }
    let mut pair = made(alloc, chip, RouterKind::ByTable, rooms)?;
    if enter(alloc, chip, &mut pair, rooms, &ROWS) {
        Some(pair)
    } else {
        None
    }
}

// Events are done before the first cycle.
fn write(pair: &mut Components, events: &[Event])
    requires { All (IsDoable (wirings_of pair.old)) events.now }
    ensures { wirings_of pair.new ≡ wirings_of pair.old }
{
    pair.prepare(events);
}

// The pair with both channels, whose tables are written. Its routers are the components behind its interfaces.
pub fn pair_of(alloc: Global, chip: &Chip, by_table: bool) -> Option<Components>
    requires nis { length chip.now.nis ≡ 2 }
    requires routers { length chip.now.routers ≡ 2 }
    requires slots { chip.now.slots ≡ 8 }
    ensures first { IfSome result (λ pair.
        slice_get (wirings_of pair) 2 ≡ Some (wiring_of (made_router chip.now ByHeader 0))) }
    ensures second { IfSome result (λ pair.
        slice_get (wirings_of pair) 3 ≡ Some (wiring_of (made_router chip.now ByHeader 1))) }
{
    let rooms = [9; 2 * QUEUES_OF_INTERFACE];
    let mut pair = routed(alloc, chip, by_table, &rooms)?;
    write(&mut pair, &TABLES);
    Some(pair)
}

// The router of a number with rows in its table, if they fit.
fn table_router(alloc: Global, chip: &Chip, number: u32, rows: &[RouterRow]) -> Option<TableRouter>
    ensures { IfSome result (λ router. RouterWiring router.incoming router.outgoing
        ≡ wiring_of (made_router chip.now ByHeader number)) }
{
    if !do_fit(alloc, chip, rows) {
        return None;
    }
    let Ok(mut router) = TableRouter::new(alloc, chip, RouterId(number)) else {
        return None;
    };
    router.enter(rows);
    Some(router)
}

// The router of a number as it is at first: it reads headers, or has the rows in its table.
pub fn fresh_router(alloc: Global, chip: &Chip, number: u32, by_table: bool) -> Option<Part>
    ensures { IfSome result (λ router. wiring_of router
        ≡ wiring_of (made_router chip.now ByHeader number)) }
{
    if by_table {
        return Some(Part::TableRouter(table_router(alloc, chip, number, &ROWS)?));
    }
    Some(Part::Router(Router::new(alloc, chip, RouterId(number)).ok()?))
}

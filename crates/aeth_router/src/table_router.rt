// A router with a table: what it is made of, and what is set in its table.

ghost use Rattle.std.specs.Prelude.{◌≡◌, ◌<◌, ◌≤◌, ◌↔◌, IfOk, IfSome, IsTrue, Some, false, length, true};
ghost use Rattle.std.specs.List.Sorted.{IsNonDecreasingBy};
ghost use Rattle.aeth_chip.specs.Nodes.{receives_on};
ghost use Rattle.aeth_chip.specs.declared.node.Node.TheVariants.{Router};
ghost use Rattle.aeth_router.specs.Router.{is_among, numbers_of};
ghost use Rattle.aeth_router.specs.Rows.{AreRowsFor, IsRowFor, is_for, with_row, with_table};
ghost use Rattle.aeth_router.specs.Single.{IsAlone, is_sent_by};
ghost use Rattle.aeth_router.specs.TableRouter.{new_table_router, with_entry};

use crate::entries::{enters, entry_at, is_from, no_entries, place_from, set_entry};
use crate::router::{empty_places, last_wires, sending};
use crate::router_row::RouterRow;
use crate::row_order::rows_of;
use aeth_base::{LinkId, NoMemory, RouterId};
use aeth_chip::{Chip, Node};
use aeth_clocked::Flit;
use std::alloc::Global;
use std::marker::Model;

mod driving;

/// A router that looks a table up in place of reading headers.
///
/// For each slot of each port its table may have an entry, one of the links that enter the router.
/// A flit that comes on this link and is latched in a cycle is driven in the next on the port, if
/// that cycle has the slot, and its header moves on by one port. A flit for which there is no entry
/// is lost. A cycle's slot is its number modulo the table size. This project's own.
#[derive(Drop)]
pub struct TableRouter {
    number: RouterId,
    links: Vec<LinkId>,
    incoming: Vec<LinkId>,
    outgoing: Vec<LinkId>,
    slots: u32,
    // By ports, then by slots.
    entries: Vec<Option<u16>>,
    held: Vec<Option<Flit>>,
    // Where this is false, no flit is held.
    is_holding: bool,
    // Where this is true, no two ports have for one slot the place of one wire.
    is_single: bool,
}

impl Model for TableRouter {
    ghost use Rattle.aeth_router.specs.Router.{numbers_of};
    ghost use Rattle.aeth_router.specs.Single.{IsTableNoted};
    ghost use Rattle.aeth_router.specs.TableRouter.{TableRouterState};

    ghost Value = { TableRouterState };

    ghost view = { λ router. record {
      number = router.number;
      links = numbers_of router.links.items;
      incoming = numbers_of router.incoming.items;
      outgoing = numbers_of router.outgoing.items;
      slots = router.slots;
      entries = router.entries.items;
      held = router.held.items;
    } };

    ghost invariant = { λ router. IsTableNoted router.is_holding router.is_single (record {
      number = router.number;
      links = numbers_of router.links.items;
      incoming = numbers_of router.incoming.items;
      outgoing = numbers_of router.outgoing.items;
      slots = router.slots;
      entries = router.entries.items;
      held = router.held.items;
    }) };
}

impl TableRouter {
    /// The chip's router of this number, without entries and without flits; without links where the
    /// chip has no such router. It receives on the last wire of each of its incoming links.
    ///
    /// Later calls take no memory, and time in the number of links of the router; `enter` takes as much
    /// for each row of the router, and time in the number of entries.
    pub fn new(alloc: Global, chip: &Chip, router: RouterId) -> Result<TableRouter, NoMemory>
        ensures { IfOk result (λ made. made ≡ new_table_router router chip.now) }
    {
        let slots = chip.slots();
        let links = receiving(alloc, chip, router)?;
        let incoming = last_wires(alloc, chip, &links)?;
        let outgoing = sending(alloc, chip, Node::Router(router))?;
        let entries = no_entries(alloc, outgoing.len(), slots)?;
        let held = empty_places(alloc, incoming.len())?;
        Ok(TableRouter {
            number: router,
            links,
            incoming,
            outgoing,
            slots,
            entries,
            held,
            is_holding: false,
            is_single: true,
        })
    }

    /// Whether `set` can be called: the router has the port, its table the slot, and the link
    /// enters the router.
    pub fn can_set(&self, port: u8, slot: u32, from: Option<LinkId>) -> bool
        ensures { IsTrue result ↔ ((port < length self.now.outgoing) × (slot < self.now.slots)
            × IfSome from (λ link. IsTrue (is_among self.now.links link.0))) }
    {
        (port as usize) < self.outgoing.len() && slot < self.slots && enters(&self.links, from)
    }

    /// Makes a link the entry of a port for a slot, or takes the entry away, where `from` is `None`.
    pub fn set(&mut self, port: u8, slot: u32, from: Option<LinkId>)
        requires port { port < length self.old.outgoing }
        requires slot { slot < self.old.slots }
        requires from { IfSome from (λ link. IsTrue (is_among self.old.links link.0)) }
        ensures { self.new ≡ with_entry port slot from self.old }
    {
        let entry = place_from(&self.links, from);
        let slots = self.slots as usize;
        self.is_single = self.is_single && self.is_alone(port as usize, slot, entry);
        set_entry(
            &mut self.entries,
            slots,
            port as usize,
            slot as usize,
            entry,
        );
    }

    /// Makes these rows its entries, those of them that are its own, and no other entry stays. Of rows
    /// for one slot of one port the last counts.
    pub fn enter(&mut self, rows: &[RouterRow])
        requires { AreRowsFor rows.now self.old }
        ensures { self.new ≡ with_table rows.now self.old }
    {
        self.entries.fill(None);
        self.is_single = true;
        for row in rows {
            self.enter_row(row);
        }
    }

    /// The same of rows in the order of routers. It looks at its own alone.
    pub fn enter_ordered(&mut self, rows: &[RouterRow])
        requires rows { AreRowsFor rows.now self.old }
        requires order { IsNonDecreasingBy (λ row. row.router.0) rows.now }
        ensures { self.new ≡ with_table rows.now self.old }
    {
        self.enter(rows_of(rows, self.number));
    }

    // Whether no other port has the wire of an entry for a slot.
    fn is_alone(&self, port: usize, slot: u32, entry: Option<u16>) -> bool
        requires { slot < self.now.slots }
        ensures { result ≡ true → IsAlone self.now port slot entry }
    {
        let Some(place) = entry else {
            return true;
        };
        let Some(wire) = self.incoming.get(place as usize) else {
            return true;
        };
        for other in 0..self.outgoing.len() {
            if other != port && self.is_sent_by(slot, *wire, other) {
                return false;
            }
        }
        true
    }

    // Makes a row an entry, if it is one of the router.
    fn enter_row(&mut self, row: &RouterRow)
        requires { is_for self.old.number row.now ≡ true → IsRowFor self.old row.now }
        ensures { self.new ≡ with_row self.old row.now }
    {
        if row.router.0 == self.number.0 {
            self.set(row.port, row.slot, Some(row.from));
        }
    }

    // Whether a port sends on in a slot what comes by a wire.
    #[inline(always)]
    fn is_sent_by(&self, slot: u32, wire: LinkId, port: usize) -> bool
        requires { slot < self.now.slots }
        ensures is { port < length self.now.outgoing → result ≡ is_sent_by self.now slot wire.0 port }
        ensures past { length self.now.outgoing ≤ port → result ≡ false }
    {
        if port >= self.outgoing.len() {
            return false;
        }
        let entry = entry_at(&self.entries, self.slots as usize, port, slot as usize);
        is_from(&self.incoming, wire, entry)
    }
}

// The links on which a router receives.
fn receiving(alloc: Global, chip: &Chip, router: RouterId) -> Result<Vec<LinkId>, NoMemory>
    ensures { IfOk result (λ links.
        numbers_of links.items ≡ receives_on (Router router) chip.now.links) }
{
    Ok(Vec::from_slice(alloc, chip.incoming(router))?)
}

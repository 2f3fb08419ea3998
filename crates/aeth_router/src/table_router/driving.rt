// What a router with a table sends: flit by flit as they come, and cycle by cycle of those that it holds.

ghost use Rattle.std.specs.Prelude.{◌≡◌, ◌<◌, ◌*◌, ◌%◌, ◌↔◌, IsTrue, None, Some};
ghost use Rattle.std.specs.Prelude.{if◌then◌else◌, length, replicate};
ghost use Rattle.std.proofs.Common.{refl};
ghost use Rattle.aeth_clocked.specs.Wires.{AreLinks, Drives};
ghost use Rattle.aeth_router.specs.Agreement.{table_absorb-agrees};
ghost use Rattle.aeth_router.specs.Onward.{Adds};
ghost use Rattle.aeth_router.specs.Ports.{hopped};
ghost use Rattle.aeth_router.specs.Router.{AreDistinctLinks, is_among, numbers_of};
ghost use Rattle.aeth_router.specs.Single.{is_sent_by};
ghost use Rattle.aeth_router.specs.TableRouter.{entry_at, sent_from, sent_on, table_absorb};
ghost use Rattle.aeth_router.specs.TableRouter.{table_after, table_emit, table_inputs, table_outputs};

use crate::entries::entry_at;
use crate::onward::Onward;
use crate::router::{are_empty, are_none, empty, take_in};
use crate::table_router::TableRouter;
use crate::traffic::clear;
use aeth_base::LinkId;
use aeth_clocked::{Clocked, Flit, Wires};
use aeth_header::hop;

impl TableRouter {
    // Passes on in a cycle a flit from a wire, to each port whose entry is the wire's place. Where no two
    // ports have one wire, and it's the wire of the port that the flit names, no other is looked at.
    #[inline(always)]
    pub(crate) fn pass(&self, cycle: u32, wire: LinkId, flit: Flit, onward: &mut Onward)
        requires { AreLinks (table_outputs self.now) (length onward.old) }
        ensures { Adds (sent_on self.now.outgoing (λ port. if is_sent_by self.now
            (cycle % self.now.slots) wire.0 port then Some (hopped flit) else None))
            onward.old onward.new }
    {
        let slot = cycle % self.slots;
        let (port, header) = hop(flit.header);
        let sent = Flit { header, ..flit };
        if self.is_single && self.is_sent_by(slot, wire, port as usize) {
            onward.add(self.outgoing[port as usize], sent);
        } else {
            self.send_all(slot, wire, sent, onward);
        }
    }

    // Sends a flit to each port whose entry for a slot is the place of a wire.
    fn send_all(&self, slot: u32, wire: LinkId, sent: Flit, onward: &mut Onward)
        requires slot { slot < self.now.slots }
        requires links { AreLinks (table_outputs self.now) (length onward.old) }
        ensures { Adds (sent_on self.now.outgoing (λ port. if is_sent_by self.now slot wire.0 port
            then Some sent else None)) onward.old onward.new }
    {
        for port in 0..self.outgoing.len() {
            if self.is_sent_by(slot, wire, port) {
                onward.add(self.outgoing[port], sent);
            }
        }
    }

    // Whether no flit is held.
    fn holds_none(&self) -> bool
        ensures { IsTrue result ↔ (self.now.held ≡ replicate (length self.now.held) None) }
    {
        !self.is_holding || are_none(&self.held)
    }
}

impl Clocked for TableRouter {
    ghost outputs = { table_outputs };

    ghost inputs = { table_inputs };

    ghost emit = { table_emit };

    ghost after = { table_after };

    ghost absorb = { table_absorb };

    fn drive(&mut self, cycle: u64, wires: &mut Wires) {
        if self.is_holding {
            let slots = self.slots as usize;
            let slot = cycle as usize % slots;
            route(
                &self.outgoing,
                &self.entries,
                slots,
                slot,
                &self.held,
                wires,
            );
            self.held.fill(None);
            self.is_holding = false;
        } else {
            clear(&self.outgoing, wires);
        }
    }

    fn latch(&mut self, wires: &Wires) {
        empty(&mut self.held, self.is_holding);
        self.is_holding = take_in(&mut self.held, &self.incoming, wires);
    }

    // A router that has no entry for its flits emits nothing, and yet doesn't rest: they are lost.
    fn rests_drive(&self, _cycle: u64, wires: &Wires) -> bool {
        self.holds_none() && are_empty(&self.outgoing, wires)
    }

    fn rests_latch(&self, wires: &Wires) -> bool {
        self.holds_none() && are_empty(&self.incoming, wires)
    }

    ghost outputs_after = { λ router cycle link. refl };

    ghost inputs_after = { λ router cycle link. refl };

    ghost outputs_absorb = { λ router wires link. refl };

    ghost inputs_absorb = { λ router wires link. refl };

    ghost absorb_agrees = { table_absorb-agrees };
}

// Puts on each outgoing link what the entry of its port for a slot sends on.
fn route(
    outgoing: &[LinkId],
    entries: &[Option<u16>],
    slots: usize,
    slot: usize,
    held: &[Option<Flit>],
    wires: &mut Wires,
)
    requires links { AreLinks (is_among (numbers_of outgoing.now)) (length wires.old) }
    requires apart { AreDistinctLinks (numbers_of outgoing.now) }
    requires slot { slot < slots }
    requires entries { length entries.now ≡ length outgoing.now * slots }
    ensures { Drives (is_among (numbers_of outgoing.now)) (sent_on (numbers_of outgoing.now)
        (λ port. sent_from held.now (entry_at entries.now slots port slot))) wires.old wires.new }
{
    for port in 0..outgoing.len() {
        let entry = entry_at(entries, slots, port, slot);
        wires.put(outgoing[port], sent_from(held, entry));
    }
}

// What an entry sends on.
fn sent_from(held: &[Option<Flit>], entry: Option<u16>) -> Option<Flit>
    ensures { result ≡ sent_from held.now entry }
{
    let latched = held.get(entry? as usize)?;
    let flit = (*latched)?;
    let (_port, header) = hop(flit.header);
    Some(Flit { header, ..flit })
}

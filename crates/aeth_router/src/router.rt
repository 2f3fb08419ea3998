// A router: flits latched in one cycle and driven in the next.

ghost use Rattle.std.specs.Prelude.{◌≡◌, ◌<◌, ◌↔◌, ℕ, IfOk, IsTrue, None, Some, false, length, map};
ghost use Rattle.std.specs.Prelude.{replicate};
ghost use Rattle.aeth_chip.specs.Nodes.{sends_on};
ghost use Rattle.aeth_clocked.specs.Resting.{HasNoFlit};
ghost use Rattle.aeth_clocked.specs.Wires.{AreLinks, flit_on};
ghost use Rattle.aeth_clocked.specs.declared.flit.Flit.{Flit};
ghost use Rattle.aeth_router.specs.Forwarding.{sent_by};
ghost use Rattle.aeth_router.specs.Onward.{Adds};
ghost use Rattle.aeth_router.specs.Ports.{toward};
ghost use Rattle.aeth_router.specs.Router.{is_among, last_wire, new_router, numbers_of};
ghost use Rattle.aeth_router.specs.Router.{router_outputs, router_inputs, router_emit};
ghost use Rattle.aeth_router.specs.Router.{router_after, router_absorb};
ghost use Rattle.aeth_router.specs.TableRouter.{sent_on};
ghost use Rattle.aeth_router.specs.Agreement.{router_absorb-agrees};
ghost use Rattle.std.proofs.Common.{refl};

use crate::forwarding::{Forwarding, links_of_ports};
use crate::onward::Onward;
use crate::traffic::{clear, emit};
use aeth_base::{LinkId, NoMemory, RouterId};
use aeth_chip::{Chip, Node};
use aeth_clocked::{Clocked, Flit, Wires};
use aeth_header::hop;
use std::alloc::Global;
use std::marker::Model;

/// A router, after Æthereal (2005).
///
/// Each flit that it latches in a cycle it drives in the next, on the port that the flit's header
/// names, and moves the header on by one port. A port that two or more latched flits name carries
/// none of them, and they are lost. A flit whose port is past the router's last is lost. Every
/// other flit is driven.
#[derive(Drop)]
pub struct Router {
    incoming: Vec<LinkId>,
    outgoing: Vec<LinkId>,
    held: Vec<Option<Flit>>,
    // Where this is false, no flit is held.
    is_holding: bool,
}

impl Model for Router {
    ghost use Rattle.aeth_router.specs.Router.{RouterState, IsNoted, numbers_of};

    ghost Value = { RouterState };

    ghost view = { λ router. record {
      incoming = numbers_of router.incoming.items;
      outgoing = numbers_of router.outgoing.items;
      held = router.held.items;
    } };

    ghost invariant = { λ router. IsNoted router.is_holding (record {
      incoming = numbers_of router.incoming.items;
      outgoing = numbers_of router.outgoing.items;
      held = router.held.items;
    }) };
}

impl Router {
    /// The chip's router of this number, which holds no flit; without links where the chip has no
    /// such router. It receives on the last wire of each of its incoming links.
    ///
    /// Later calls take no memory, and time in the number of links of the router.
    pub fn new(alloc: Global, chip: &Chip, router: RouterId) -> Result<Router, NoMemory>
        ensures { IfOk result (λ made. made ≡ new_router router chip.now.links) }
    {
        let incoming = last_wires(alloc, chip, chip.incoming(router))?;
        let outgoing = sending(alloc, chip, Node::Router(router))?;
        let held = empty_places(alloc, incoming.len())?;
        Ok(Router {
            incoming,
            outgoing,
            held,
            is_holding: false,
        })
    }

    // Passes a flit on, to the port that it names.
    pub(crate) fn pass(&self, flit: Flit, onward: &mut Onward)
        requires { AreLinks (router_outputs self.now) (length onward.old) }
        ensures { Adds (sent_on self.now.outgoing (λ port. toward port (Some flit)))
            onward.old onward.new }
    {
        let (port, header) = hop(flit.header);
        if let Some(link) = self.outgoing.get(port as usize) {
            onward.add(*link, Flit { header, ..flit });
        }
    }

    // How a router sends flits on.
    pub(crate) fn forwarding(&self) -> Forwarding
        ensures { (out : ℕ) (flit : Flit) → sent_by result out flit
            ≡ sent_on self.now.outgoing (λ port. toward port (Some flit)) out }
    {
        Forwarding::ByPort(links_of_ports(&self.outgoing))
    }

    // Whether no flit is held.
    fn holds_none(&self) -> bool
        ensures { IsTrue result ↔ (self.now.held ≡ replicate (length self.now.held) None) }
    {
        !self.is_holding || are_none(&self.held)
    }
}

impl Clocked for Router {
    ghost outputs = { router_outputs };

    ghost inputs = { router_inputs };

    ghost emit = { router_emit };

    ghost after = { router_after };

    ghost absorb = { router_absorb };

    fn drive(&mut self, _cycle: u64, wires: &mut Wires) {
        if self.is_holding {
            emit(&self.outgoing, &self.held, wires);
            self.held.fill(None);
            self.is_holding = false;
        } else {
            clear(&self.outgoing, wires);
        }
    }

    fn latch(&mut self, wires: &Wires) {
        empty(&mut self.held, self.is_holding);
        self.is_holding = take_in(&mut self.held, &self.incoming, wires);
    }

    // A router whose flits contend emits nothing, and yet doesn't rest: they are lost.
    fn rests_drive(&self, _cycle: u64, wires: &Wires) -> bool {
        self.holds_none() && are_empty(&self.outgoing, wires)
    }

    fn rests_latch(&self, wires: &Wires) -> bool {
        self.holds_none() && are_empty(&self.incoming, wires)
    }

    ghost outputs_after = { λ router cycle link. refl };

    ghost inputs_after = { λ router cycle link. refl };

    ghost outputs_absorb = { λ router wires link. refl };

    ghost inputs_absorb = { λ router wires link. refl };

    ghost absorb_agrees = { router_absorb-agrees };
}

// So many places, none of which has a flit.
pub(crate) fn empty_places(alloc: Global, count: usize) -> Result<Vec<Option<Flit>>, NoMemory>
    ensures { IfOk result (λ held. held.items ≡ replicate count None) }
{
    Ok(vec![in alloc; None; count]?)
}

// The links on which a node sends.
pub(crate) fn sending(alloc: Global, chip: &Chip, node: Node) -> Result<Vec<LinkId>, NoMemory>
    ensures { IfOk result (λ links. numbers_of links.items ≡ sends_on node chip.now.links) }
{
    let mut links = Vec::new(alloc);
    for number in 0..chip.links() {
        if chip.link(LinkId(number)).begins_at(node) {
            links.push(LinkId(number))?;
        }
    }
    Ok(links)
}

// The last wires of links.
pub(crate) fn last_wires(
    alloc: Global,
    chip: &Chip,
    links: &[LinkId],
) -> Result<Vec<LinkId>, NoMemory>
    requires { AreLinks (is_among (numbers_of links.now)) (length chip.now.links) }
    ensures { IfOk result (λ wires. numbers_of wires.items
        ≡ map (last_wire chip.now.links) (numbers_of links.now)) }
{
    let mut wires = Vec::with_capacity(alloc, links.len())?;
    for link in links {
        wires.push(last_wire(chip, *link))?;
    }
    Ok(wires)
}

// The last wire of a link.
fn last_wire(chip: &Chip, link: LinkId) -> LinkId
    requires { link.0 < length chip.now.links }
    ensures { result.0 ≡ last_wire chip.now.links link.0 }
{
    chip.wire(link, chip.link(link).delay - 1)
}

// Whether each of these wires is empty.
pub(crate) fn are_empty(links: &[LinkId], wires: &Wires) -> bool
    requires { AreLinks (is_among (numbers_of links.now)) (length wires.now) }
    ensures { IsTrue result ↔ HasNoFlit (is_among (numbers_of links.now)) wires.now }
{
    for link in links {
        if !wires.is_empty(*link) {
            return false;
        }
    }
    true
}

// Whether no place has a flit.
pub(crate) fn are_none(held: &[Option<Flit>]) -> bool
    ensures { IsTrue result ↔ (held.now ≡ replicate (length held.now) None) }
{
    for latched in held {
        if latched.is_some() {
            return false;
        }
    }
    true
}

// Takes out all flits. Where none is noted, no place has one.
pub(crate) fn empty(held: &mut [Option<Flit>], is_holding: bool)
    requires { is_holding ≡ false → held.old ≡ replicate (length held.old) None }
    ensures { held.new ≡ replicate (length held.old) None }
{
    if is_holding {
        held.fill(None);
    }
}

// Holds from each incoming wire what is there, where no flit was held, and tells whether there is
// one. Nothing is written where there is none.
pub(crate) fn take_in(held: &mut [Option<Flit>], incoming: &[LinkId], wires: &Wires) -> bool
    requires links { AreLinks (is_among (numbers_of incoming.now)) (length wires.now) }
    requires places { length held.old ≡ length incoming.now }
    requires none { held.old ≡ replicate (length held.old) None }
    ensures held { held.new ≡ map (flit_on wires.now) (numbers_of incoming.now) }
    ensures none { result ≡ false → held.new ≡ held.old }
{
    let mut is_any = false;
    for place in 0..incoming.len() {
        let link = incoming[place];
        if !wires.is_empty(link) {
            held[place] = wires.get(link);
            is_any = true;
        }
    }
    is_any
}

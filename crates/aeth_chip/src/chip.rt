// A chip as its file tells it.
ghost use Rattle.std.specs.Prelude.{◌≡◌, ◌<◌, ◌≤◌, ◌∷◌, [], Some, length, map, slice_get};
ghost use Rattle.std.specs.Prelude.{position, take};
ghost use Rattle.std.specs.Prelude.{option_map, IsSome, IfSome};
ghost use Rattle.std.specs.Str.{bytes_eq};
ghost use Rattle.aeth_base.specs.Limits.{max_link_delay};
ghost use Rattle.aeth_chip.specs.Limits.{max_links, max_nis, max_ports, max_routers};
ghost use Rattle.aeth_chip.specs.declared.node.Node.TheVariants.{Router, Ni};
ghost use Rattle.aeth_chip.specs.Chip.{IsChip, IsNode};
ghost use Rattle.aeth_chip.specs.Index.{IsIndex};
ghost use Rattle.aeth_chip.specs.Nodes.{receives_on, sender_of, sends_on};
ghost use Rattle.aeth_chip.specs.Wires.{further_wires, wires_of};

use crate::index::Index;
use crate::node::Link;
use aeth_base::{LinkId, Name, Names, NiId, RouterId};
use std::marker::Model;

/// The most slots of a slot table in a file of version 1.
pub const MAX_SLOTS_OF_VERSION_1: u32 = 64;

/// The most routers of a chip.
pub const MAX_ROUTERS: u32 = 64;

/// The most network interfaces of a chip.
pub const MAX_NIS: u32 = 64;

/// The most links of a chip.
pub const MAX_LINKS: u32 = 1024;

/// The most links on which a router sends, and on which it receives.
pub const MAX_PORTS: u32 = 8;

/// A chip: the size of its slot table, its routers and network interfaces, and its directed links.
///
/// All are numbered from 0 in the order of the file. The ports of a router are the links on which
/// it sends, in that order. An index of the links, made with the chip, answers `port`, `exit`,
/// `leaving` and `entering` in a constant number of steps. After Æthereal (2005).
#[derive(Drop)]
pub struct Chip {
    slots: u32,
    routers: Names,
    nis: Names,
    links: Vec<Link>,
    index: Index,
}

impl Model for Chip {
    ghost use Rattle.std.specs.Prelude.{length};
    ghost use Rattle.aeth_chip.specs.Chip.{ChipData, IsChip};
    ghost use Rattle.aeth_chip.specs.Index.{IsIndex};

    ghost Value = { ChipData };

    ghost view = { λ chip. record {
      slots = chip.slots;
      routers = chip.routers;
      nis = chip.nis;
      links = chip.links.items;
    } };

    ghost invariant = { λ chip. IsChip (record {
      slots = chip.slots;
      routers = chip.routers;
      nis = chip.nis;
      links = chip.links.items;
    }) × IsIndex chip.links.items (length chip.routers) (length chip.nis) chip.index };
}

impl Chip {
    pub(crate) fn new(
        slots: u32,
        routers: Names,
        nis: Names,
        links: Vec<Link>,
        index: Index,
    ) -> Chip
        requires chip { IsChip (record {
          slots = slots;
          routers = routers;
          nis = nis;
          links = links.items;
        }) }
        requires index { IsIndex links.items (length routers) (length nis) index }
        ensures { result ≡ record {
          slots = slots;
          routers = routers;
          nis = nis;
          links = links.items;
        } }
    {
        Chip {
            slots,
            routers,
            nis,
            links,
            index,
        }
    }

    /// The size of the slot table.
    pub fn slots(&self) -> u32
        ensures slots { result ≡ self.now.slots }
        ensures chip { IsChip self.now }
    {
        self.slots
    }

    /// The number of routers.
    pub fn routers(&self) -> u32
        ensures routers { result ≡ length self.now.routers }
        ensures most { result ≤ max_routers }
    {
        self.routers.len() as u32
    }

    /// The number of network interfaces.
    pub fn nis(&self) -> u32
        ensures nis { result ≡ length self.now.nis }
        ensures most { result ≤ max_nis }
    {
        self.nis.len() as u32
    }

    /// The number of links.
    pub fn links(&self) -> u32
        ensures links { result ≡ length self.now.links }
        ensures most { result ≤ max_links }
    {
        self.links.len() as u32
    }

    /// The links in file order.
    pub(crate) fn all_links(&self) -> &[Link]
        ensures links { result.now ≡ self.now.links }
        ensures chip { IsChip self.now }
    {
        &self.links
    }

    /// A link by its number.
    pub fn link(&self, link: LinkId) -> Link
        requires { link.0 < length self.now.links }
        ensures link { slice_get self.now.links link.0 ≡ Some result }
        ensures from { IsNode self.now.routers self.now.nis result.from }
        ensures to { IsNode self.now.routers self.now.nis result.to }
        ensures delay { (1 ≤ result.delay) × (result.delay ≤ max_link_delay) }
    {
        self.links[link.0 as usize]
    }

    /// The port of the router that sends on the link: its place among the router's links.
    pub fn port(&self, link: LinkId) -> u8
        requires { IsSome (sender_of self.now.links link.0) }
        ensures port { IfSome (sender_of self.now.links link.0) (λ router.
            slice_get (sends_on (Router router) self.now.links) result ≡ Some link.0) }
        ensures few { result < max_ports }
    {
        self.index.port(link) as u8
    }

    /// The links on which a router sends, its ports in their order; none past the last router.
    pub fn outgoing(&self, router: RouterId) -> &[LinkId]
        ensures { map (λ link. link.0) result.now
            ≡ sends_on (Router router) self.now.links }
    {
        self.index.outgoing(router)
    }

    /// The links on which a router receives, in file order; none past the last router.
    pub fn incoming(&self, router: RouterId) -> &[LinkId]
        ensures { map (λ link. link.0) result.now
            ≡ receives_on (Router router) self.now.links }
    {
        self.index.incoming(router)
    }

    /// The link on which a router sends through a port; `None` exactly where the port is past the
    /// router's last. The link begins at the router, and its port is that port.
    pub fn exit(&self, router: RouterId, port: u8) -> Option<LinkId>
        ensures link { option_map (λ link. link.0) result
            ≡ slice_get (sends_on (Router router) self.now.links) port }
        ensures sender { IfSome result (λ link. sender_of self.now.links link.0 ≡ Some router) }
    {
        match self.port_link(router, port) {
            None => None,
            Some(link) => Some(link),
        }
    }

    // The link at a port of a router.
    fn port_link(&self, router: RouterId, port: u8) -> Option<LinkId>
        ensures { option_map (λ link. link.0) result
            ≡ slice_get (sends_on (Router router) self.now.links) port }
    {
        match self.outgoing(router).get(port as usize) {
            None => None,
            Some(link) => Some(*link),
        }
    }

    /// The one link on which a network interface sends.
    pub fn leaving(&self, ni: NiId) -> LinkId
        requires { ni.0 < length self.now.nis }
        ensures sends { sends_on (Ni ni) self.now.links ≡ result.0 ∷ [] }
        ensures link { result.0 < length self.now.links }
    {
        self.index.ends(ni).leaving
    }

    /// The one link on which a network interface receives.
    pub fn entering(&self, ni: NiId) -> LinkId
        requires { ni.0 < length self.now.nis }
        ensures receives { receives_on (Ni ni) self.now.links ≡ result.0 ∷ [] }
        ensures link { result.0 < length self.now.links }
    {
        self.index.ends(ni).entering
    }

    /// How many wires there are.
    pub(crate) fn wire_count(&self) -> u32
        ensures wires { result ≡ wires_of self.now.links }
        ensures chip { IsChip self.now }
    {
        self.index.found.wires
    }

    /// How many further wires the links before a link have.
    pub(crate) fn further_before(&self, link: LinkId) -> u32
        requires { link.0 < length self.now.links }
        ensures further { result ≡ further_wires (take link.0 self.now.links) }
        ensures chip { IsChip self.now }
    {
        self.index.further(link)
    }

    /// The name of a network interface.
    pub fn ni_name(&self, ni: NiId) -> Name
        requires { ni.0 < length self.now.nis }
        ensures { slice_get self.now.nis ni.0 ≡ Some result }
    {
        self.nis.name(ni.0 as usize)
    }

    /// The network interface of this name.
    pub fn find_ni(&self, name: &Name) -> Option<NiId>
        ensures { option_map (λ ni. ni.0) result ≡ position (bytes_eq name.now) self.now.nis }
    {
        match self.nis.place(name) {
            Some(place) => Some(NiId(place as u32)),
            None => None,
        }
    }
}

// The rules on the links of a router and of a network interface.
ghost use Rattle.std.specs.Prelude.{◌≡◌, ◌<◌, ◌^◌, ℕ, List, length, map, option_map};
ghost use Rattle.std.specs.List.{range_with_len};
ghost use Rattle.aeth_chip.specs.ChipFile.{crowded, is_single, lone, not_single, router_at};
ghost use Rattle.aeth_chip.specs.ChipFile.{same_router, unjoined};
ghost use Rattle.aeth_chip.specs.Index.{AreNiLinks, AreRouterLinks, crowded_in, ni_link};
ghost use Rattle.aeth_chip.specs.Nodes.{end_node, router_of};
ghost use Rattle.aeth_document.specs.Arrays.{texts_in};
ghost use Rattle.aeth_document.specs.Walks.{walked};

use crate::chip::MAX_PORTS;
use crate::lists::{ListedLinks, NiLink, RouterLinks, list_at};
use crate::node::{End, Link, Node};
use aeth_base::{LinkId, RouterId};
use aeth_document::{Shown, Texts, Walk, shown_text};

fn crowded(its: &RouterLinks, router: u32) -> Option<Shown>
    ensures { result ≡ crowded_in its.now router }
{
    let sent = list_at(&its.outgoing, router as usize).len();
    let received = list_at(&its.incoming, router as usize).len();
    let ports = sent.max(received) as u64;
    if ports <= MAX_PORTS as u64 {
        None
    } else {
        Some(Shown::Number(ports))
    }
}

// The walk after a check of how many links the lists of each router have.
#[tactic(auto, using(aeth_base::proofs::Ranges::range_more), unfolding(aeth_document::specs::Walks::walked))]
fn crowded_lists(walk: Walk, routers: u32, its: &RouterLinks) -> Walk
    ensures { result ≡ walked walk (map (crowded_in its.now) (range_with_len 0 routers)) }
{
    let mut walk = walk;
    for router in 0..routers {
        walk = walk.check(crowded(its, router));
    }
    walk
}

/// The walk after a check of each router's numbers of links.
pub(crate) fn crowded_routers(walk: Walk, routers: u32, listed: &ListedLinks) -> Walk
    requires { AreRouterLinks listed.now.links.items routers listed.now.routers }
    ensures { result ≡ walked walk
        (map (crowded listed.now.links.items) (range_with_len 0 routers)) }
{
    crowded_lists(walk, routers, &listed.routers)
}

// The one link.
fn lone_link(its: NiLink) -> Option<LinkId>
    ensures { (numbers : List ℕ) → its ≡ ni_link numbers
        → option_map (λ l. l.0) result ≡ lone numbers }
{
    match its {
        NiLink::One(link) => Some(link),
        NiLink::Missing | NiLink::Several => None,
    }
}

fn router_of(node: Node) -> Option<RouterId>
    ensures { result ≡ router_of node }
{
    match node {
        Node::Router(router) => Some(router),
        Node::Ni(_) => None,
    }
}

// The router at an end of the one link.
fn router_at(links: &[Link], its: NiLink, end: End) -> Option<RouterId>
    ensures { (numbers : List ℕ) → its ≡ ni_link numbers
        → result ≡ router_at (end_node end) links.now numbers }
{
    match lone_link(its) {
        None => None,
        Some(number) => match links.get(number.0 as usize) {
            None => None,
            Some(link) => router_of(link.node_at(end)),
        },
    }
}

fn same_router(router: Option<RouterId>, other: Option<RouterId>) -> bool
    ensures { result ≡ same_router router other }
{
    match router {
        None => false,
        Some(router) => match other {
            None => false,
            Some(other) => router.0 == other.0,
        },
    }
}

fn is_single(listed: &ListedLinks, nis: u32, ni: u32) -> bool
    requires lists { AreNiLinks listed.now.links.items nis listed.now.nis }
    requires ni { ni < nis }
    ensures { result ≡ is_single listed.now.links.items ni }
{
    let leaving = listed.nis.outgoing[ni as usize];
    let entering = listed.nis.incoming[ni as usize];
    let after = router_at(&listed.links, leaving, End::To);
    same_router(after, router_at(&listed.links, entering, End::From))
}

// The name of a network interface that isn't joined to one router.
fn unjoined(listed: &ListedLinks, nis: u32, ni: u32, name: &str) -> Option<Shown>
    requires lists { AreNiLinks listed.now.links.items nis listed.now.nis }
    requires ni { ni < nis }
    ensures { result ≡ unjoined listed.now.links.items ni name.now }
{
    if is_single(listed, nis, ni) {
        None
    } else {
        Some(shown_text(name))
    }
}

/// The walk after a check of each network interface, which is to be joined to one router by one
/// link each way.
#[tactic(auto, unfolding(aeth_document::specs::Walks::walked))]
pub(crate) fn unjoined_nis(walk: Walk, names: Texts<'_>, nis: u32, listed: &ListedLinks) -> Walk
    requires lists { AreNiLinks listed.now.links.items nis listed.now.nis }
    requires names { length (texts_in names) ≡ nis }
    ensures { result ≡ walked walk
        (not_single listed.now.links.items 0 (texts_in names.entry)) }
{
    let mut walk = walk;
    let mut ni = 0;
    for name in names {
        walk = walk.check(unjoined(listed, nis, ni, name));
        ni += 1;
    }
    walk
}

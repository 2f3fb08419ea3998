// Lists of the links of each router, and the one link each way of each network interface, made in
// passes over the links.
ghost use Rattle.std.specs.Prelude.{◌≡◌, ◌≢◌, ◌<◌, ◌≤◌, ◌+◌, ◌++◌, ◌∷◌, ℕ, List, [], Some};
ghost use Rattle.std.specs.Prelude.{IfOk, length, slice_get, if◌then◌else◌};
ghost use Rattle.aeth_base.specs.declared.ids.NiId.{NiId};
ghost use Rattle.aeth_base.specs.declared.ids.RouterId.{RouterId};
ghost use Rattle.aeth_chip.specs.Index.{AreFirstLinks, AreLinkLists, AreNiLinks, AreRouterLinks};
ghost use Rattle.aeth_chip.specs.Index.{HasEntries, IsNiLink, as_ni, as_router, entry_for, list_at};
ghost use Rattle.aeth_chip.specs.Index.{ni_link_with};
ghost use Rattle.aeth_chip.specs.Limits.{max_links};
ghost use Rattle.aeth_chip.specs.Nodes.{IsBelow, IsNiBelow, router_of, same_node};
ghost use Rattle.aeth_chip.specs.declared.node.End.{End};
ghost use Rattle.aeth_chip.specs.declared.node.End.TheVariants.{From, To};
ghost use Rattle.aeth_chip.specs.declared.node.Link.{Link};

use crate::chip::MAX_PORTS;
use crate::node::{Link, Node};
use aeth_base::{LinkId, NoMemory};
use std::alloc::Global;

/// For each router the links on which it sends, its ports in file order, and those on which it
/// receives; and for each link its place among those of the router that sends on it.
#[derive(Drop)]
pub(crate) struct RouterLinks {
    pub outgoing: Vec<Vec<LinkId>>,
    pub incoming: Vec<Vec<LinkId>>,
    pub ports: Vec<usize>,
}

/// The one link that has a network interface at an end, unless there is none or several.
#[derive(Clone, Copy)]
pub(crate) enum NiLink {
    Missing,
    One(LinkId),
    Several,
}

/// For each network interface the one link on which it sends, and the one on which it receives.
#[derive(Drop)]
pub(crate) struct NiLinks {
    pub outgoing: Vec<NiLink>,
    pub incoming: Vec<NiLink>,
}

/// Links, and the lists of them for each router and for each network interface.
#[derive(Drop)]
pub(crate) struct ListedLinks {
    pub links: Vec<Link>,
    pub routers: RouterLinks,
    pub nis: NiLinks,
}

/// The list at a place of a list of lists, empty where there is none.
pub(crate) fn list_at(lists: &[Vec<LinkId>], place: usize) -> &[LinkId]
    ensures { result.now ≡ list_at lists.now place }
{
    match lists.get(place) {
        None => &[],
        Some(list) => list,
    }
}

/// The links with the lists of them for so many routers and network interfaces, in about as many
/// steps as links and nodes.
pub(crate) fn listed_links(
    alloc: Global,
    routers: u32,
    nis: u32,
    links: Vec<Link>,
) -> Result<ListedLinks, NoMemory>
    requires few { length links.items ≤ max_links }
    requires routers { (l : ℕ) (link : Link) → slice_get links.items l ≡ Some link
        → IsBelow routers link.from × IsBelow routers link.to }
    requires nis { (l : ℕ) (link : Link) → slice_get links.items l ≡ Some link
        → IsNiBelow nis link.from × IsNiBelow nis link.to }
    ensures links { IfOk result (λ listed. listed.links.items ≡ links.items) }
    ensures lists { IfOk result (AreLinkLists routers nis) }
{
    let of_routers = router_links(alloc, routers, &links)?;
    let of_nis = ni_links(alloc, nis, &links)?;
    Ok(ListedLinks {
        links,
        routers: of_routers,
        nis: of_nis,
    })
}

// So many empty lists, with room for as many links in each as a router has ports.
fn empty_lists(alloc: Global, count: u32) -> Result<Vec<Vec<LinkId>>, NoMemory>
    ensures size { IfOk result (λ lists. length lists.items ≡ count) }
    ensures empty { IfOk result (λ lists. (place : ℕ) → list_at lists.items place ≡ []) }
{
    let mut lists = Vec::with_capacity(alloc, count as usize)?;
    for _ in 0..count {
        lists.push(Vec::with_capacity(alloc, MAX_PORTS as usize)?)?;
    }
    Ok(lists)
}

// Puts a link at the end of a list, and tells its place there.
fn push_at(lists: &mut Vec<Vec<LinkId>>, place: usize, link: LinkId) -> Result<usize, NoMemory>
    requires { place < length lists.old.items }
    ensures size { length lists.new.items ≡ length lists.old.items }
    ensures here { IfOk result (λ _. list_at lists.new.items place
        ≡ list_at lists.old.items place ++ link ∷ []) }
    ensures others { (other : ℕ) → other ≢ place
        → list_at lists.new.items other ≡ list_at lists.old.items other }
    ensures end { IfOk result (λ end. end ≡ length (list_at lists.old.items place)) }
{
    let list = &mut lists[place];
    let end = list.len();
    list.push(link)?;
    Ok(end)
}

// Puts a link into the list of the router at its end, and tells its place there.
fn enter(lists: &mut Vec<Vec<LinkId>>, node: Node, link: LinkId) -> Result<usize, NoMemory>
    requires { IsBelow (length lists.old.items) node }
    ensures size { length lists.new.items ≡ length lists.old.items }
    ensures lists { IfOk result (λ _. (router : ℕ) → list_at lists.new.items router
        ≡ list_at lists.old.items router ++ entry_for as_router node link router) }
    ensures place { IfOk result (λ place. (router : RouterId) → router_of node ≡ Some router
        → place ≡ length (list_at lists.old.items router.0)) }
{
    match node {
        Node::Ni(_) => Ok(0),
        Node::Router(router) => push_at(lists, router.0 as usize, link),
    }
}

// The one link of a network interface that has one link more.
fn with_link(its: NiLink, link: LinkId) -> NiLink
    ensures { result ≡ ni_link_with link its }
{
    match its {
        NiLink::Missing => NiLink::One(link),
        NiLink::One(_) | NiLink::Several => NiLink::Several,
    }
}

// Enters a link for the network interface at its end.
fn enter_ni(entries: &mut [NiLink], node: Node, link: LinkId)
    requires { IsNiBelow (length entries.old) node }
    ensures size { length entries.new ≡ length entries.old }
    ensures entries { (ni : ℕ) (its : NiLink) → slice_get entries.old ni ≡ Some its
        → slice_get entries.new ni
        ≡ Some (if same_node node (as_ni ni) then ni_link_with link its else its) }
{
    match node {
        Node::Router(_) => {}
        Node::Ni(ni) => entries[ni.0 as usize] = with_link(entries[ni.0 as usize], link),
    }
}

// The links of so many routers, in one pass over the links.
fn router_links(alloc: Global, routers: u32, links: &[Link]) -> Result<RouterLinks, NoMemory>
    requires few { length links.now ≤ max_links }
    requires nodes { (l : ℕ) (link : Link) → slice_get links.now l ≡ Some link
        → IsBelow routers link.from × IsBelow routers link.to }
    ensures { IfOk result (λ its. AreRouterLinks links.now routers its) }
{
    let mut its = no_router_links(alloc, routers, links.len())?;
    enter_links(links, routers, &mut its)?;
    Ok(its)
}

// None for so many routers, with room for so many links.
fn no_router_links(alloc: Global, routers: u32, room: usize) -> Result<RouterLinks, NoMemory>
    ensures { IfOk result (λ its. (links : List Link) → AreFirstLinks links 0 routers its) }
{
    let outgoing = empty_lists(alloc, routers)?;
    let incoming = empty_lists(alloc, routers)?;
    let ports = Vec::with_capacity(alloc, room)?;
    Ok(RouterLinks {
        outgoing,
        incoming,
        ports,
    })
}

// Enters all links, where there are none yet.
fn enter_links(links: &[Link], routers: u32, its: &mut RouterLinks) -> Result<(), NoMemory>
    requires few { length links.now ≤ max_links }
    requires nodes { (l : ℕ) (link : Link) → slice_get links.now l ≡ Some link
        → IsBelow routers link.from × IsBelow routers link.to }
    requires none { AreFirstLinks links.now 0 routers its.old }
    ensures { IfOk result (λ _. AreRouterLinks links.now routers its.new) }
{
    for number in 0..links.len() as u32 {
        enter_link(links, routers, number, its)?;
    }
    Ok(())
}

// Enters one link more.
fn enter_link(
    links: &[Link],
    routers: u32,
    number: u32,
    its: &mut RouterLinks,
) -> Result<(), NoMemory>
    requires number { number < length links.now }
    requires nodes { (l : ℕ) (link : Link) → slice_get links.now l ≡ Some link
        → IsBelow routers link.from × IsBelow routers link.to }
    requires before { AreFirstLinks links.now number routers its.old }
    ensures { IfOk result (λ _. AreFirstLinks links.now (number + 1) routers its.new) }
{
    let link = links[number as usize];
    let port = enter(&mut its.outgoing, link.from, LinkId(number))?;
    its.ports.push(port)?;
    enter(&mut its.incoming, link.to, LinkId(number))?;
    Ok(())
}

// The links of so many network interfaces, in one pass over the links.
fn ni_links(alloc: Global, nis: u32, links: &[Link]) -> Result<NiLinks, NoMemory>
    requires few { length links.now ≤ max_links }
    requires nodes { (l : ℕ) (link : Link) → slice_get links.now l ≡ Some link
        → IsNiBelow nis link.from × IsNiBelow nis link.to }
    ensures { IfOk result (λ its. AreNiLinks links.now nis its) }
{
    let mut outgoing = no_ni_links(alloc, nis)?;
    let mut incoming = no_ni_links(alloc, nis)?;
    enter_nis(links, &mut outgoing, &mut incoming);
    Ok(NiLinks { outgoing, incoming })
}

// None for so many network interfaces, at either end.
fn no_ni_links(alloc: Global, nis: u32) -> Result<Vec<NiLink>, NoMemory>
    ensures { IfOk result (λ none. (end : End) → HasEntries (IsNiLink end []) nis none.items) }
{
    Ok(vec![in alloc; NiLink::Missing; nis as usize]?)
}

// Enters all links for the network interfaces, where there are none yet.
fn enter_nis(links: &[Link], outgoing: &mut [NiLink], incoming: &mut [NiLink])
    requires few { length links.now ≤ max_links }
    requires nodes { (l : ℕ) (link : Link) → slice_get links.now l ≡ Some link
        → IsNiBelow (length outgoing.old) link.from × IsNiBelow (length incoming.old) link.to }
    requires no_outgoing { HasEntries (IsNiLink From []) (length outgoing.old) outgoing.old }
    requires no_incoming { HasEntries (IsNiLink To []) (length incoming.old) incoming.old }
    ensures outgoing { HasEntries (IsNiLink From links.now) (length outgoing.old) outgoing.new }
    ensures incoming { HasEntries (IsNiLink To links.now) (length incoming.old) incoming.new }
{
    for (number, link) in links.iter().enumerate() {
        let number = LinkId(number as u32);
        enter_ni(outgoing, link.from, number);
        enter_ni(incoming, link.to, number);
    }
}

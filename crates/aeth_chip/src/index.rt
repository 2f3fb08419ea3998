// An index of the links of a chip, by which the links of a node are found without a walk.
ghost use Rattle.std.specs.Prelude.{◌≡◌, ◌<◌, ◌≤◌, ℕ, Some, IfOk, length, slice_get};
ghost use Rattle.aeth_base.specs.declared.ids.LinkId.{LinkId};
ghost use Rattle.aeth_base.specs.declared.ids.NiId.{NiId};
ghost use Rattle.aeth_chip.specs.Chip.{IsSingle};
ghost use Rattle.aeth_chip.specs.Index.{AreEndsAndWires, AreNiLinks, HasEntries, IsEnds};
ghost use Rattle.aeth_chip.specs.Index.{IsFurther, list_at};
ghost use Rattle.aeth_chip.specs.Limits.{max_links};
ghost use Rattle.aeth_chip.specs.Wires.{HaveDelays, wires_of};
ghost use Rattle.aeth_chip.specs.declared.lists.NiLink.TheVariants.{One};

use crate::lists::{ListedLinks, NiLink, NiLinks, RouterLinks, list_at};
use crate::node::Link;
use aeth_base::{LinkId, NiId, NoMemory, RouterId};
use std::alloc::Global;

/// The one link on which a network interface sends, and the one on which it receives.
#[derive(Clone, Copy)]
pub(crate) struct Ends {
    pub leaving: LinkId,
    pub entering: LinkId,
}

/// For each network interface its two links; for each link how many further wires the links before
/// it have; and how many wires there are.
#[derive(Drop)]
pub(crate) struct EndsAndWires {
    pub ends: Vec<Ends>,
    pub further: Vec<u32>,
    pub wires: u32,
}

/// The links of the routers, and what was found of the interfaces' ends and of the wires.
#[derive(Drop)]
pub(crate) struct Index {
    pub routers: RouterLinks,
    pub found: EndsAndWires,
}

/// Links with an index of them.
#[derive(Drop)]
pub(crate) struct IndexedLinks {
    pub links: Vec<Link>,
    pub index: Index,
}

impl Index {
    /// The links on which a router sends; none past the last router.
    pub(crate) fn outgoing(&self, router: RouterId) -> &[LinkId]
        ensures { result.now ≡ list_at self.now.routers.outgoing.items router.0 }
    {
        list_at(&self.routers.outgoing, router.0 as usize)
    }

    /// The links on which a router receives; none past the last router.
    pub(crate) fn incoming(&self, router: RouterId) -> &[LinkId]
        ensures { result.now ≡ list_at self.now.routers.incoming.items router.0 }
    {
        list_at(&self.routers.incoming, router.0 as usize)
    }

    /// The place of a link among the links of its sender.
    pub(crate) fn port(&self, link: LinkId) -> usize
        requires { link.0 < length self.now.routers.ports.items }
        ensures { slice_get self.now.routers.ports.items link.0 ≡ Some result }
    {
        self.routers.ports[link.0 as usize]
    }

    /// How many further wires the links before a link have.
    pub(crate) fn further(&self, link: LinkId) -> u32
        requires { link.0 < length self.now.found.further.items }
        ensures { slice_get self.now.found.further.items link.0 ≡ Some result }
    {
        self.found.further[link.0 as usize]
    }

    /// The two links of a network interface.
    pub(crate) fn ends(&self, ni: NiId) -> Ends
        requires { ni.0 < length self.now.found.ends.items }
        ensures { slice_get self.now.found.ends.items ni.0 ≡ Some result }
    {
        self.found.ends[ni.0 as usize]
    }
}

/// The ends of so many network interfaces and the wires of the links.
pub(crate) fn ends_and_wires(
    alloc: Global,
    nis: u32,
    listed: &ListedLinks,
) -> Result<EndsAndWires, NoMemory>
    requires few { length listed.now.links.items ≤ max_links }
    requires delays { HaveDelays listed.now.links.items }
    requires lists { AreNiLinks listed.now.links.items nis listed.now.nis }
    requires single { (ni : NiId) → ni.0 < nis → IsSingle listed.now.links.items ni }
    ensures { IfOk result (AreEndsAndWires listed.now.links.items nis) }
{
    let ends = ends_of(alloc, nis, listed)?;
    let (further, wires) = further_of(alloc, &listed.links)?;
    Ok(EndsAndWires {
        ends,
        further,
        wires,
    })
}

// For each link how many further wires the links before it have, and how many wires there are.
fn further_of(alloc: Global, links: &[Link]) -> Result<(Vec<u32>, u32), NoMemory>
    requires few { length links.now ≤ max_links }
    requires delays { HaveDelays links.now }
    ensures further { IfOk result (λ made.
        HasEntries (IsFurther links.now) (length links.now) made.0.items) }
    ensures wires { IfOk result (λ made. made.1 ≡ wires_of links.now) }
{
    let mut further = Vec::with_capacity(alloc, links.len())?;
    let mut before = 0;
    let mut wires = 0;
    for link in links {
        further.push(before)?;
        before += link.delay - 1;
        wires += link.delay;
    }
    Ok((further, wires))
}

// The one link.
fn only_link(its: NiLink) -> LinkId
    requires { (link : LinkId) × (its ≡ One link) }
    ensures { its ≡ One result }
{
    match its {
        NiLink::One(link) => link,
        NiLink::Missing | NiLink::Several => unreachable!(),
    }
}

// The two links of a network interface.
fn ends_at(its: &NiLinks, ni: u32) -> Ends
    requires leaving { (l : LinkId) × (slice_get its.now.outgoing.items ni ≡ Some (One l)) }
    requires entering { (l : LinkId) × (slice_get its.now.incoming.items ni ≡ Some (One l)) }
    ensures leaving { slice_get its.now.outgoing.items ni ≡ Some (One result.leaving) }
    ensures entering { slice_get its.now.incoming.items ni ≡ Some (One result.entering) }
{
    Ends {
        leaving: only_link(its.outgoing[ni as usize]),
        entering: only_link(its.incoming[ni as usize]),
    }
}

// For each of so many network interfaces its two links.
fn ends_of(alloc: Global, nis: u32, listed: &ListedLinks) -> Result<Vec<Ends>, NoMemory>
    requires lists { AreNiLinks listed.now.links.items nis listed.now.nis }
    requires single { (ni : NiId) → ni.0 < nis → IsSingle listed.now.links.items ni }
    ensures { IfOk result (λ ends. HasEntries (IsEnds listed.now.links.items) nis ends.items) }
{
    let mut ends = Vec::with_capacity(alloc, nis as usize)?;
    for ni in 0..nis {
        ends.push(ends_at(&listed.nis, ni))?;
    }
    Ok(ends)
}

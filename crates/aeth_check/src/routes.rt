// Whether a finished path is admissible, by walking it.
ghost use Rattle.aeth_check.specs.Channels.{leads};
ghost use Rattle.aeth_check.specs.Routes.{HasPlaces, is_admissible, is_near, place_of, places};
ghost use Rattle.aeth_check.specs.Routes.{with_node};
ghost use Rattle.aeth_chip.specs.Chip.{IsChip};
ghost use Rattle.aeth_chip.specs.LeastDistance.{least_distance};
ghost use Rattle.aeth_chip.specs.PathTests.{comes_to, follows, is_fresh};
ghost use Rattle.aeth_chip.specs.declared.node.Node.TheVariants.{Ni};
ghost use Rattle.std.specs.Prelude.{◌≡◌, ◌<◌, ◌≤◌, All, drop, length};

use aeth_base::{MAX_PATH_LINKS, MIN_PATH_LINKS, NiId, Path, RouterId};
use aeth_chip::{Chip, Distances, Node};
use aeth_slots::SlotSet;

/// The places of a set of routers.
const PLACES: u32 = 64;

/// The place of a router in a set. Routers that are this many apart share one.
fn place_of(router: RouterId) -> u32
    ensures place { result ≡ place_of router }
    ensures within { result < places }
{
    router.0 % PLACES
}

/// Puts the place of a node that is a router into a set.
fn put(node: Node, routers: &mut SlotSet)
    requires { routers.old.size ≡ places }
    ensures { routers.new ≡ with_node node routers.old }
{
    match node {
        Node::Router(router) => routers.insert(place_of(router)),
        Node::Ni(_) => {}
    }
}

/// Whether a link of a path, from a place on, ends at a router.
fn comes_to(chip: &Chip, router: RouterId, path: &Path, from: u32) -> bool
    requires links { All (λ link. link.0 < length chip.now.links) path.now }
    requires from { from ≤ length path.now }
    ensures { result ≡ comes_to chip.now.links router (drop from path.now) }
{
    for i in from..path.len() {
        if chip.link(path.link(i)).ends_at(Node::Router(router)) {
            return true;
        }
    }
    false
}

/// Whether a link of a path, from a place on, ends at a router. The links are walked only where a
/// set of the places of the routers that they end at has the router's.
fn comes_back(chip: &Chip, router: RouterId, path: &Path, from: u32, routers: &SlotSet) -> bool
    requires links { All (λ link. link.0 < length chip.now.links) path.now }
    requires from { from ≤ length path.now }
    requires routers { HasPlaces chip.now.links (drop from path.now) routers.now }
    ensures { result ≡ comes_to chip.now.links router (drop from path.now) }
{
    routers.has(place_of(router)) && comes_to(chip, router, path, from)
}

/// Whether a path that has come to a node, with the links from a place on left, goes on as it may.
fn is_fresh(chip: &Chip, at: Node, path: &Path, from: u32, routers: &SlotSet) -> bool
    requires links { All (λ link. link.0 < length chip.now.links) path.now }
    requires from { from ≤ length path.now }
    requires routers { HasPlaces chip.now.links (drop from path.now) routers.now }
    ensures { result ≡ is_fresh chip.now.links at (drop from path.now) }
{
    match at {
        Node::Router(router) => !comes_back(chip, router, path, from, routers),
        Node::Ni(_) => from == path.len(),
    }
}

/// Whether a path leads from an interface to an interface. The path is walked from its last link to
/// its first, so the routers that the links behind come to are known.
fn follows(chip: &Chip, a: NiId, b: NiId, path: &Path) -> bool
    requires { All (λ link. link.0 < length chip.now.links) path.now }
    ensures { result ≡ follows chip.now.links b (Ni a) path.now }
{
    let mut next = Node::Ni(b);
    let mut routers = SlotSet::empty(PLACES);
    let mut left = path.len();
    'links: while left > 0 {
        let link = chip.link(path.link(left - 1));
        if !link.ends_at(next) || !is_fresh(chip, link.to, path, left, &routers) {
            return false;
        }
        put(link.to, &mut routers);
        next = link.from;
        left -= 1;
    }
    next.is_same(Node::Ni(a))
}

/// Whether so many links are at most so many more than the least number.
fn is_near(detour: u32, least: Option<u32>, path: &Path) -> bool
    ensures { result ≡ is_near detour least path.now }
{
    match least {
        None => false,
        Some(least) => path.len().saturating_sub(detour) <= least,
    }
}

/// The least number of links from an interface to an interface.
fn least_distance(_chip: &Chip, distances: &Distances, a: NiId, b: NiId) -> Option<u32>
    requires chip { IsChip _chip.now }
    requires distances { distances.now ≡ _chip.now.links }
    ensures { result ≡ least_distance _chip.now a b }
{
    distances.between(a, b)
}

/// Whether a flit may take a path from an interface to an interface.
fn is_admissible(
    chip: &Chip,
    distances: &Distances,
    detour: u32,
    a: NiId,
    b: NiId,
    path: &Path,
) -> bool
    requires chip { IsChip chip.now }
    requires distances { distances.now ≡ chip.now.links }
    requires links { All (λ link. link.0 < length chip.now.links) path.now }
    ensures { result ≡ is_admissible chip.now detour a b path.now }
{
    path.len() >= MIN_PATH_LINKS
        && follows(chip, a, b, path)
        && path.len() <= MAX_PATH_LINKS
        && is_near(detour, least_distance(chip, distances, a, b), path)
}

/// Whether a flit may take a path from an interface to an interface, both of which may be missing.
pub(crate) fn leads(
    chip: &Chip,
    distances: &Distances,
    detour: u32,
    from: Option<NiId>,
    to: Option<NiId>,
    path: &Path,
) -> bool
    requires chip { IsChip chip.now }
    requires distances { distances.now ≡ chip.now.links }
    requires links { All (λ link. link.0 < length chip.now.links) path.now }
    ensures { result ≡ leads chip.now detour from to path.now }
{
    match from {
        None => false,
        Some(a) => match to {
            None => false,
            Some(b) => is_admissible(chip, distances, detour, a, b, path),
        },
    }
}

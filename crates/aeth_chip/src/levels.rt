// The search in levels: the least numbers of links to a place of a chip, from all its places. A set
// of places is a mask, with a bit for each place.
ghost use Rattle.std.specs.Prelude.{◌≡◌, ◌<◌, ◌≤◌, ◌+◌, ℕ, IfOk, None, Some, length, replicate};
ghost use Rattle.std.specs.Prelude.{slice_get};
ghost use Rattle.aeth_chip.specs.Levels.{AreLevels, AreOrigins, Enters, HasBit, HasPlaces, IsOrigin};
ghost use Rattle.aeth_chip.specs.Levels.{IsLedFrom, LeadsTo, MarksFrom, MarksLevel, node_place};
ghost use Rattle.aeth_chip.specs.Limits.{max_places};
ghost use Rattle.aeth_chip.specs.Levels.{half_places};

use crate::chip::{Chip, MAX_NIS, MAX_ROUTERS};
use crate::node::{Link, Node};
use aeth_base::NoMemory;
use std::alloc::Global;

// The first place of the upper half of a mask.
const HALF: usize = 64;

/// The most places of a chip.
pub(crate) const MAX_PLACES: usize = (MAX_ROUTERS + MAX_NIS) as usize;

// The place of a node in a row: the routers come first, then the interfaces.
fn node_place(node: Node, routers: u32) -> usize
    ensures { result ≡ node_place routers node }
{
    match node {
        Node::Router(r) => r.0 as usize,
        Node::Ni(n) => routers as usize + n.0 as usize,
    }
}

/// For each place the set of places from which a link leads to it. A link between two interfaces
/// lies on no path and is left out.
pub(crate) fn origins_of(
    alloc: Global,
    links: &[Link],
    routers: u32,
    places: usize,
) -> Result<Vec<u128>, NoMemory>
    requires routers { routers ≤ places }
    requires most { places ≤ max_places }
    requires links { HasPlaces links.now routers places }
    ensures { IfOk result (λ origins. AreOrigins links.now routers places origins.items) }
{
    let mut origins = vec![in alloc; 0; places]?;
    enter_all(&mut origins, links, routers);
    Ok(origins)
}

/// The same of a chip, for as many places as a chip may have.
pub(crate) fn origins_in(chip: &Chip) -> [u128; MAX_PLACES]
    ensures { AreOrigins chip.now.links (length chip.now.routers) max_places result }
{
    let mut origins = [0; MAX_PLACES];
    enter_all(&mut origins, chip.all_links(), chip.routers());
    origins
}

// Enters each link.
fn enter_all(origins: &mut [u128], links: &[Link], routers: u32)
    requires routers { routers ≤ length origins.old }
    requires most { length origins.old ≤ max_places }
    requires links { HasPlaces links.now routers (length origins.old) }
    requires none { origins.old ≡ replicate (length origins.old) 0 }
    ensures { AreOrigins links.now routers (length origins.old) origins.new }
{
    for link in links {
        enter(origins, link, routers);
    }
}

// Enters a link into the set of the place to which it leads, where one of its ends is a router.
fn enter(origins: &mut [u128], link: &Link, routers: u32)
    requires to { node_place routers link.now.to < length origins.old }
    requires from { node_place routers link.now.from < max_places }
    ensures { Enters routers link.now origins.old origins.new }
{
    let from = node_place(link.from, routers);
    let to = node_place(link.to, routers);
    if from >= routers as usize && to >= routers as usize {
        return;
    }
    let set = origins[to];
    origins[to] = set | 1 << from;
}

/// The level of each place before a goal: the least number of links from there to the goal,
/// through routers alone. `None` where the goal isn't reached.
pub(crate) fn levels_to(
    alloc: Global,
    origins: &[u128],
    routers: u32,
    goal: usize,
) -> Result<Vec<Option<u32>>, NoMemory>
    requires goal { goal < length origins.now }
    requires routers { routers ≤ goal }
    requires places { (from to : ℕ) → IsOrigin origins.now from to → from < length origins.now }
    requires most { length origins.now ≤ max_places }
    ensures { IfOk result (λ levels.
        AreLevels (IsOrigin origins.now) routers goal (length origins.now) levels.items) }
{
    let mut levels = vec![in alloc; None; origins.len()]?;
    search(origins, routers, goal, &mut levels);
    Ok(levels)
}

/// The same for as many places as a chip may have.
pub(crate) fn levels_before(
    origins: &[u128; MAX_PLACES],
    routers: u32,
    goal: usize,
) -> [Option<u32>; MAX_PLACES]
    requires goal { goal < max_places }
    requires routers { routers ≤ goal }
    requires places { (from to : ℕ) → IsOrigin origins.now from to → from < max_places }
    ensures { AreLevels (IsOrigin origins.now) routers goal max_places result }
{
    let mut levels = [None; MAX_PLACES];
    search(origins, routers, goal, &mut levels);
    levels
}

/// The level of a place.
pub(crate) fn level_at(levels: &[Option<u32>], place: usize) -> Option<u32>
    requires { place < length levels.now }
    ensures { slice_get levels.now place ≡ Some result }
{
    levels[place]
}

// Gives each place its level before a goal, where none has one yet.
fn search(origins: &[u128], routers: u32, goal: usize, levels: &mut [Option<u32>])
    requires goal { goal < length origins.now }
    requires routers { routers ≤ goal }
    requires places { (from to : ℕ) → IsOrigin origins.now from to → from < length origins.now }
    requires most { length origins.now ≤ max_places }
    requires none { levels.old ≡ replicate (length origins.now) None }
    ensures { AreLevels (IsOrigin origins.now) routers goal (length origins.now) levels.new }
{
    let all_routers: u128 = (1 << routers) - 1;
    let mut unseen = u128::MAX;
    let mut frontier: u128 = 1 << goal;
    let mut level = 0;
    'rounds: while frontier != 0 {
        level += 1;
        let fresh = leading_to(origins, frontier) & unseen;
        mark(levels, fresh, level);
        unseen = unseen & !fresh;
        frontier = fresh & all_routers;
    }
}

// The places from which a link leads to one of a set.
fn leading_to(origins: &[u128], set: u128) -> u128
    requires { (to : ℕ) → HasBit set to → to < length origins.now }
    ensures { (from : ℕ) → IsLedFrom result from (LeadsTo origins.now set from) }
{
    let low = leading_from(origins, (set % (1 << HALF)) as u64, 0);
    let high = leading_from(origins, (set >> HALF) as u64, HALF);
    low | high
}

// The same of a half of a mask, whose places begin with this one.
fn leading_from(origins: &[u128], half: u64, base: usize) -> u128
    requires base { base + half_places ≤ max_places }
    requires places { (i : ℕ) → HasBit half i → base + i < length origins.now }
    ensures { (from : ℕ) → IsLedFrom result from
        ((i : ℕ) × HasBit half i × IsOrigin origins.now from (base + i)) }
{
    let mut rest = half;
    let mut set = 0;
    'bits: while rest != 0 {
        let bit = rest.trailing_zeros();
        set = set | origins[base + bit as usize];
        rest = rest & !(1 << bit);
    }
    set
}

// Gives a level to each place of a set.
fn mark(levels: &mut [Option<u32>], set: u128, level: u32)
    requires { (place : ℕ) → HasBit set place → place < length levels.old }
    ensures { MarksLevel set level levels.old levels.new }
{
    mark_from(levels, (set % (1 << HALF)) as u64, 0, level);
    mark_from(levels, (set >> HALF) as u64, HALF, level);
}

// The same of a half of a mask, whose places begin with this one.
fn mark_from(levels: &mut [Option<u32>], half: u64, base: usize, level: u32)
    requires base { base + half_places ≤ max_places }
    requires places { (i : ℕ) → HasBit half i → base + i < length levels.old }
    ensures { MarksFrom half base level levels.old levels.new }
{
    let mut rest = half;
    'bits: while rest != 0 {
        let bit = rest.trailing_zeros();
        levels[base + bit as usize] = Some(level);
        rest = rest & !(1 << bit);
    }
}

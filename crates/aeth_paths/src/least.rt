// What links cost at least that lead on to an interface: a table for the search, made for each pair.
ghost use Rattle.std.specs.Prelude.{◌≡◌, ◌<◌, ◌≤◌, ◌*◌, ℕ, List, IsTrue, false, get_or};
ghost use Rattle.std.specs.Prelude.{length, true};
ghost use Rattle.aeth_base.specs.Limits.{max_path_links};
ghost use Rattle.aeth_base.specs.declared.ids.LinkId.{LinkId};
ghost use Rattle.aeth_chip.specs.Limits.{max_links, max_routers};
ghost use Rattle.aeth_chip.specs.Chip.{IsNode};
ghost use Rattle.aeth_chip.specs.Nodes.{is_router};
ghost use Rattle.aeth_chip.specs.declared.node.Node.TheVariants.{Router};
ghost use Rattle.aeth_paths.specs.Least.{AreLeast, AreWithin, CostsAtLeast, NoneWalks, OverCosts};
ghost use Rattle.aeth_paths.specs.Least.{field_to};
ghost use Rattle.aeth_paths.specs.Task.{field};
ghost use Rattle.aeth_paths.specs.Walk.{IsTask, costs_of};

use crate::prefix::Task;
use aeth_base::{LinkId, MAX_PATH_LINKS, MAX_SLOTS, NiId, RouterId};
use aeth_chip::{MAX_LINKS, MAX_PORTS, MAX_ROUTERS, Node};

/// How many links may have a cost.
pub(crate) const COSTS: usize = MAX_LINKS as usize;

/// The interface that paths lead to, and the most links that they may have.
#[derive(Clone, Copy)]
pub(crate) struct Target {
    pub ni: NiId,
    pub most: u32,
}

/// How many routers a row of least costs has.
const ROUTERS: usize = MAX_ROUTERS as usize;

/// How many least costs there are: a row for each number of links below the most of a path.
pub(crate) const LEAST: usize = MAX_PATH_LINKS as usize * ROUTERS;

/// Whether tables pay: links cost more than 1 where they are used, and routers have so many links that
/// there are many ways.
pub(crate) fn is_weighed(task: &Task) -> bool {
    task.prices.of(1, MAX_SLOTS) > 1 && task.chip.links() >= MAX_PORTS * task.chip.routers()
}

/// Works out what links cost at least, by their numbers, and what those cost that lead on from a router to an
/// interface: an entry for each number of links, which they are at most, and each router. An entry on which
/// the links from a sender don't rest stays 0.
pub(crate) fn fill(task: &Task, target: &Target, costs: &mut [u32], least: &mut [u32], from: Node)
    requires task { IsTask task.now }
    requires most { target.now.most ≤ max_path_links }
    requires links { length costs.old ≡ max_links }
    requires costs { AreWithin (costs_of task.now) costs.old }
    requires size { length least.old ≡ max_path_links * max_routers }
    requires least { AreLeast (field_to task.now target.now) least.old }
    requires from { IsNode task.now.chip.now.routers task.now.chip.now.nis from }
    ensures costs { AreWithin (costs_of task.now) costs.new }
    ensures least { AreLeast (field_to task.now target.now) least.new }
{
    if let Node::Ni(ni) = from {
        let first = task.chip.leaving(ni);
        over(
            task,
            target,
            costs,
            least,
            first,
            target.most.saturating_sub(1),
        );
    }
}

// What a link costs. It is put into the table, once.
fn cost_of(task: &Task, costs: &mut [u32], link: LinkId) -> u32
    requires task { IsTask task.now }
    requires links { length costs.old ≡ max_links }
    requires costs { AreWithin (costs_of task.now) costs.old }
    requires link { link.0 < length task.now.chip.now.links }
    ensures links { length costs.new ≡ max_links }
    ensures costs { AreWithin (costs_of task.now) costs.new }
    ensures within { result ≤ costs_of task.now link }
{
    let _links = task.chip.links();
    let place = link.0 as usize;
    let known = costs[place];
    if known > 0 {
        return known;
    }
    let delay = task.chip.link(link).delay;
    let cost = task.prices.of(delay, task.book.used(task.ask.unit, link));
    costs[place] = cost;
    cost
}

// What a link and those that lead on from its end cost at least, where the latter are at most so
// many. What this rests on is put into the table, each entry once.
fn over(
    task: &Task,
    target: &Target,
    costs: &mut [u32],
    least: &mut [u32],
    link: LinkId,
    left: u32,
) -> u32
    requires task { IsTask task.now }
    requires links { length costs.old ≡ max_links }
    requires costs { AreWithin (costs_of task.now) costs.old }
    requires size { length least.old ≡ max_path_links * max_routers }
    requires least { AreLeast (field_to task.now target.now) least.old }
    requires link { link.0 < length task.now.chip.now.links }
    requires left { left < max_path_links }
    ensures links { length costs.new ≡ max_links }
    ensures costs { AreWithin (costs_of task.now) costs.new }
    ensures size { length least.new ≡ max_path_links * max_routers }
    ensures least { AreLeast (field_to task.now target.now) least.new }
    ensures over { OverCosts (field_to task.now target.now) link left result }
{
    let _routers = task.chip.routers();
    let router = match task.chip.link(link).to {
        Node::Ni(ni) => {
            return if ni.0 == target.ni.0 {
                cost_of(task, costs, link)
            } else {
                u32::MAX
            };
        }
        Node::Router(router) => router,
    };
    let place = left as usize * ROUTERS + router.0 as usize;
    let known = least[place];
    if known > 0 {
        return known.saturating_add(cost_of(task, costs, link));
    }
    if !may_lead(task, target.ni, router, left) {
        return u32::MAX;
    }
    let links = task.chip.outgoing(router);
    let mut lowest = u32::MAX;
    for i in 0..links.len() {
        lowest = lowest.min(over(task, target, costs, least, links[i], left - 1));
    }
    least[place] = lowest;
    lowest.saturating_add(cost_of(task, costs, link))
}

// Whether at most so many links may lead on from a router to an interface.
fn may_lead(task: &Task, ni: NiId, router: RouterId, left: u32) -> bool
    requires { IsTask task.now }
    ensures some { IsTrue result → 1 ≤ left }
    ensures none { result ≡ false → (most : ℕ)
        → NoneWalks (field task.now.book.now task.now.prices.now task.now.ask ni most)
        (Router router) left }
{
    match task.far.onward(router, ni) {
        None => false,
        Some(more) => more <= left,
    }
}

/// What the links cost at least that lead on from a node to an interface, where they're at most so
/// many. It is asked for routers.
pub(crate) fn least_onward(
    task: &Task,
    ni: NiId,
    most: u32,
    least: &[u32],
    node: Node,
    left: usize,
) -> u32
    requires least { AreLeast (field task.now.book.now task.now.prices.now task.now.ask ni most)
        least.now }
    requires node { IsNode task.now.chip.now.routers task.now.chip.now.nis node }
    requires left { left ≤ max_path_links }
    ensures { is_router node ≡ true → (path : List LinkId)
        → CostsAtLeast (field task.now.book.now task.now.prices.now task.now.ask ni most) node path
        left result }
{
    let _routers = task.chip.routers();
    match node {
        Node::Ni(_) => 0,
        Node::Router(router) => entry(least, left * ROUTERS + router.0 as usize),
    }
}

/// An entry of a table; 0 past its end.
pub(crate) fn entry(table: &[u32], place: usize) -> u32
    ensures { result ≡ get_or table.now place 0 }
{
    match table.get(place) {
        Some(number) => *number,
        None => 0,
    }
}

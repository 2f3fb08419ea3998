// The search: a list of links is extended link by link, and given up where no better path goes on.
ghost use Rattle.std.specs.Prelude.{◌≡◌, ◌+◌, ◌≤◌, ◌<◌, ◌++◌, ◌∷◌, [], true, false};
ghost use Rattle.std.specs.Prelude.{Contains, IsTrue, length, slice_get};
ghost use Rattle.aeth_base.specs.Limits.{max_path_links};
ghost use Rattle.aeth_chip.specs.Chip.{IsNode};
ghost use Rattle.aeth_chip.specs.LeastOnward.{least_from};
ghost use Rattle.aeth_chip.specs.Paths.{to_of};
ghost use Rattle.aeth_paths.specs.Least.{IsGoal, PathsCost};
ghost use Rattle.aeth_paths.specs.Open.{is_open, open_steps};
ghost use Rattle.aeth_paths.specs.Over.{IsTurnFor};
ghost use Rattle.aeth_paths.specs.Search.{completions, first_from, keep, turn_of};
ghost use Rattle.aeth_paths.specs.Task.{links_from};
ghost use Rattle.aeth_paths.specs.Walk.{GainsNothing, IsLeastFrom, IsPrefix, IsTask, Stands};
ghost use Rattle.aeth_paths.specs.Walk.{costs_of, field_of, path_in, priced};

use crate::least::{entry, least_onward};
use crate::prefix::{Prefix, Task, grown, is_live};
use crate::priced::{Priced, comes_before, may_precede, with_cost};
use aeth_base::{LinkId, NiId, Steps};
use aeth_chip::{Chip, MAX_PORTS, Node};
use std::sync::ledger::Ledger;

/// The interface that a path must lead to, and the most links that it may have; and what links cost
/// at least, each one and those that lead on from a router.
#[derive(Clone, Copy)]
pub(crate) struct Goal<'a> {
    pub ni: NiId,
    pub most: u32,
    pub costs: &'a [u32],
    pub least: &'a [u32],
}

/// What a link is for a search: one to no new router, the last of a path, or one to a new router.
#[derive(Clone, Copy)]
pub(crate) enum Turn {
    Away,
    Ends,
    Goes,
}

/// A link that leaves a node, by its place among these links; `None` where there is none.
fn leaving(chip: &Chip, node: Node, place: u8) -> Option<LinkId>
    requires { IsNode chip.now.routers chip.now.nis node }
    ensures { result ≡ slice_get (links_from chip.now.links node) place }
{
    match node {
        Node::Router(router) => chip.exit(router, place),
        Node::Ni(ni) => {
            let link = chip.leaving(ni);
            if place == 0 { Some(link) } else { None }
        }
    }
}

/// What a link is for a search with the links that led to it.
fn turn_at(task: &Task, goal: &Goal, prefix: &Prefix, link: LinkId) -> Turn
    requires task { IsTask task.now }
    requires prefix { IsPrefix task.now prefix.now }
    requires link { link.0 < length task.now.chip.now.links }
    ensures { result ≡ turn_of (field_of task.now goal.now) prefix.now.path link }
{
    let _routers = task.chip.routers();
    match task.chip.link(link).to {
        Node::Ni(ni) => {
            if ni.0 == goal.ni.0 {
                Turn::Ends
            } else {
                Turn::Away
            }
        }
        Node::Router(router) => {
            if prefix.passed >> router.0 & 1 == 1 {
                Turn::Away
            } else {
                Turn::Goes
            }
        }
    }
}

/// The first of what was best and a path, if it is a candidate.
fn consider(task: &Task, goal: &Goal, prefix: &Prefix, best: Option<Priced>) -> Option<Priced>
    requires task { IsTask task.now }
    requires prefix { IsPrefix task.now prefix.now }
    requires best { best ≡ priced (costs_of task.now) (path_in best) }
    ensures { result ≡ priced (costs_of task.now)
        (keep (field_of task.now goal.now) (path_in best) prefix.now.path) }
{
    if prefix.path.len() > goal.most || !is_live(task, prefix) {
        return best;
    }
    match best {
        None => Some(with_cost(prefix)),
        Some(other) => {
            if comes_before(&prefix.path, prefix.cost, &other) {
                Some(with_cost(prefix))
            } else {
                Some(other)
            }
        }
    }
}

/// The least number of links from a node to the goal.
fn onward(task: &Task, goal: &Goal, node: Node) -> Option<u32>
    ensures { IsLeastFrom task.now.far.now goal.now.ni node result }
{
    match node {
        Node::Router(router) => task.far.onward(router, goal.ni),
        Node::Ni(ni) => task.far.between(ni, goal.ni),
    }
}

/// What the paths cost at least that go on from a list over a link to a new router.
fn cost_over(task: &Task, goal: &Goal, prefix: &Prefix, link: LinkId) -> u64
    requires task { IsTask task.now }
    requires goal { IsGoal task.now goal.now }
    requires prefix { IsPrefix task.now prefix.now }
    requires short { length prefix.now.path < max_path_links }
    requires link { Contains (links_from task.now.chip.now.links prefix.now.end) link }
    requires goes { turn_of (field_of task.now goal.now) prefix.now.path link ≡ Turn.Goes }
    ensures { PathsCost (field_of task.now goal.now) (to_of task.now.book.now.links link)
        (prefix.now.path ++ link ∷ []) result }
{
    let end = task.chip.link(link);
    let left = goal.most.saturating_sub(prefix.path.len() + 1) as usize;
    let onward = least_onward(task, goal.ni, goal.most, goal.least, end.to, left);
    prefix.cost as u64 + entry(goal.costs, link.0 as usize) as u64 + onward as u64
}

/// Whether no better path goes on over a link to a new router: it leads too far from the goal, or
/// with the least cost of the links that are still needed no path over it comes before the best.
fn is_vain(task: &Task, goal: &Goal, prefix: &Prefix, link: LinkId, best: &Option<Priced>) -> bool
    requires task { IsTask task.now }
    requires goal { IsGoal task.now goal.now }
    requires prefix { IsPrefix task.now prefix.now }
    requires short { length prefix.now.path < max_path_links }
    requires link { Contains (links_from task.now.chip.now.links prefix.now.end) link }
    requires goes { turn_of (field_of task.now goal.now) prefix.now.path link ≡ Turn.Goes }
    requires best { best.now ≡ priced (costs_of task.now) (path_in best.now) }
    ensures { IsTrue result → GainsNothing (field_of task.now goal.now) (path_in best.now)
        (to_of task.now.book.now.links link) (prefix.now.path ++ link ∷ []) }
{
    let Some(more) = onward(task, goal, task.chip.link(link).to) else {
        return true;
    };
    let mut path = prefix.path;
    path.push(link);
    let links = path.len() as u64 + more as u64;
    if links > goal.most as u64 {
        return true;
    }
    match best {
        None => false,
        Some(best) => {
            let fewest = prefix.cost as u64 + 1 + more as u64;
            let cost = cost_over(task, goal, prefix, link).max(fewest);
            !may_precede(&path, cost, links, best)
        }
    }
}

/// Whether no better path goes on from a list: its free starts are dead, its end is too far from
/// the goal, or with the least cost of the links that are still needed no path that goes on from it
/// comes before the best.
pub(crate) fn is_hopeless(task: &Task, goal: &Goal, prefix: &Prefix, best: &Option<Priced>) -> bool
    requires task { IsTask task.now }
    requires prefix { IsPrefix task.now prefix.now }
    requires stands { Stands (to_of task.now.book.now.links) prefix.now.end prefix.now.path }
    requires best { best.now ≡ priced (costs_of task.now) (path_in best.now) }
    ensures none { IsTrue result → GainsNothing (field_of task.now goal.now) (path_in best.now)
        prefix.now.end prefix.now.path }
    ensures open { result ≡ false → is_open (field_of task.now goal.now)
        (least_from task.now.chip.now goal.now.ni) prefix.now.end prefix.now.path ≡ true }
{
    let Some(more) = onward(task, goal, prefix.end) else {
        return true;
    };
    let links = prefix.path.len() as u64 + more as u64;
    if links > goal.most as u64 {
        return true;
    }
    if let Some(best) = best {
        if !may_precede(&prefix.path, prefix.cost as u64 + more as u64, links, best) {
            return true;
        }
    }
    !is_live(task, prefix)
}

/// What a link that leaves a list's end is for a search that has a best path: `Away` too where no
/// better path goes on over it.
fn turn_for(task: &Task, goal: &Goal, prefix: &Prefix, link: LinkId, best: &Option<Priced>) -> Turn
    requires task { IsTask task.now }
    requires goal { IsGoal task.now goal.now }
    requires prefix { IsPrefix task.now prefix.now }
    requires short { length prefix.now.path < max_path_links }
    requires link { Contains (links_from task.now.chip.now.links prefix.now.end) link }
    requires best { best.now ≡ priced (costs_of task.now) (path_in best.now) }
    ensures { IsTurnFor task.now goal.now prefix.now link best.now result }
{
    match turn_at(task, goal, prefix, link) {
        Turn::Away => Turn::Away,
        Turn::Ends => Turn::Ends,
        Turn::Goes => {
            if is_vain(task, goal, prefix, link, best) {
                Turn::Away
            } else {
                Turn::Goes
            }
        }
    }
}

/// The first of what was best and the candidates among the paths that go on from a list over at
/// most so many links.
pub(crate) fn extend<L: Ledger>(
    task: &Task,
    goal: &Goal,
    prefix: &Prefix,
    best: Option<Priced>,
    left: u32,
    steps: &mut Steps<L>,
) -> Option<Priced>
    requires task { IsTask task.now }
    requires goal { IsGoal task.now goal.now }
    requires prefix { IsPrefix task.now prefix.now }
    requires node { IsNode task.now.chip.now.routers task.now.chip.now.nis prefix.now.end }
    requires stands { Stands (to_of task.now.book.now.links) prefix.now.end prefix.now.path }
    requires best { best ≡ priced (costs_of task.now) (path_in best) }
    requires room { length prefix.now.path + left ≤ max_path_links }
    ensures best { result ≡ priced (costs_of task.now)
        (first_from (field_of task.now goal.now) (path_in best)
        (completions (field_of task.now goal.now) left prefix.now.end prefix.now.path)) }
    ensures steps { steps.new ≤ steps.old + open_steps (field_of task.now goal.now)
        (least_from task.now.chip.now goal.now.ni) left prefix.now.end prefix.now.path }
{
    if left == 0 {
        return best;
    }
    if is_hopeless(task, goal, prefix, &best) {
        return best;
    }
    let mut best = best;
    for place in 0..MAX_PORTS as u8 {
        let Some(link) = leaving(task.chip, prefix.end, place) else {
            return best;
        };
        match turn_for(task, goal, prefix, link, &best) {
            Turn::Away => {}
            Turn::Ends => {
                let whole = grown(task, prefix, link, steps);
                best = consider(task, goal, &whole, best);
            }
            Turn::Goes => {
                let longer = grown(task, prefix, link, steps);
                best = extend(task, goal, &longer, best, left - 1, steps);
            }
        }
    }
    best
}

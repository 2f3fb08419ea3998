// Lists of links from a sender, and what the search knows of them.
ghost use Rattle.std.specs.Prelude.{◌≡◌, ◌+◌, ◌<◌, ◌++◌, ◌∷◌, ◌↔◌, ◌⊎◌, [], length};
ghost use Rattle.std.specs.Int.{bit_at};
ghost use Rattle.aeth_base.specs.Limits.{max_path_links};
ghost use Rattle.aeth_base.specs.declared.ids.RouterId.{RouterId};
ghost use Rattle.aeth_chip.specs.Limits.{max_routers};
ghost use Rattle.aeth_chip.specs.declared.node.Node.TheVariants.{Router};
ghost use Rattle.aeth_chip.specs.Chip.{IsNode};
ghost use Rattle.aeth_chip.specs.Paths.{to_of};
ghost use Rattle.aeth_paths.specs.Candidates.{is_live};
ghost use Rattle.aeth_paths.specs.Walk.{IsPrefix, IsTask};

use crate::cost::Prices;
use crate::request::Request;
use aeth_base::{LinkId, Path, Steps};
use aeth_book::Book;
use aeth_chip::{Chip, Distances, Link, Node};
use aeth_slots::SlotSet;
use std::sync::ledger::Ledger;

/// What a search reads.
#[derive(Clone, Copy)]
pub(crate) struct Task<'a> {
    pub chip: &'a Chip,
    pub far: &'a Distances,
    pub book: &'a Book,
    pub prices: &'a Prices,
    pub ask: Request,
}

/// A list of links from a sender, the node that it leads to, and what the search knows of it: the
/// routers that it passes, a bit for each, its delay, its cost and its free starts.
#[derive(Clone, Copy)]
pub(crate) struct Prefix {
    pub path: Path,
    pub end: Node,
    pub passed: u64,
    pub delay: u32,
    pub cost: u32,
    pub free: SlotSet,
}

/// A list with one more link. Counts one step.
pub(crate) fn grown<L: Ledger>(
    task: &Task,
    prefix: &Prefix,
    link: LinkId,
    steps: &mut Steps<L>,
) -> Prefix
    requires task { IsTask task.now }
    requires prefix { IsPrefix task.now prefix.now }
    requires short { length prefix.now.path < max_path_links }
    requires link { link.0 < length task.now.chip.now.links }
    ensures prefix { IsPrefix task.now result }
    ensures path { result.path ≡ prefix.now.path ++ link ∷ [] }
    ensures end { result.end ≡ to_of task.now.book.now.links link }
    ensures node { IsNode task.now.chip.now.routers task.now.chip.now.nis result.end }
    ensures steps { steps.new ≡ steps.old + 1 }
{
    let Link { to, delay, .. } = task.chip.link(link);
    let unit = task.ask.unit;
    let free = task
        .book
        .narrow(unit, link, prefix.delay, &prefix.free, steps);
    let mut path = prefix.path;
    path.push(link);
    Prefix {
        path,
        end: to,
        passed: with_node(task.chip, prefix.passed, to),
        delay: prefix.delay + delay,
        cost: prefix.cost + task.prices.of(delay, task.book.used(unit, link)),
        free,
    }
}

/// The routers that are passed, with that of a further node.
fn with_node(chip: &Chip, passed: u64, node: Node) -> u64
    requires { IsNode chip.now.routers chip.now.nis node }
    ensures { (r : RouterId) → r.0 < max_routers
        → (bit_at result r.0 ≡ 1) ↔ ((bit_at passed r.0 ≡ 1) ⊎ (node ≡ Router r)) }
{
    let _routers = chip.routers();
    match node {
        Node::Router(router) => passed | 1 << router.0,
        Node::Ni(_) => passed,
    }
}

/// Whether a list's free starts have suitable slots.
pub(crate) fn is_live(task: &Task, prefix: &Prefix) -> bool
    requires task { IsTask task.now }
    requires prefix { IsPrefix task.now prefix.now }
    ensures { result ≡ is_live task.now.book.now task.now.ask prefix.now.path }
{
    let gap = (task.ask.latency as u64 + 1).saturating_sub(prefix.delay as u64);
    // No gap is greater than the table.
    if gap >= prefix.free.size() as u64 {
        return prefix.free.count() >= task.ask.need.max(1);
    }
    prefix.free.suitable(task.ask.need, gap as u32)
}

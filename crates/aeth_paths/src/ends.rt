// What is found: the ends of a path and the slots that go with it.
ghost use Rattle.std.specs.Prelude.{◌≡◌, ◌<◌, ◌≤◌, Some, All, length, true};
ghost use Rattle.aeth_base.specs.declared.ids.NiId.{NiId};
ghost use Rattle.aeth_chip.specs.Paths.{IsPath};
ghost use Rattle.aeth_chip.specs.declared.node.Node.TheVariants.{Ni};
ghost use Rattle.aeth_paths.specs.Candidates.{is_live, slots_of};
ghost use Rattle.aeth_paths.specs.Pairs.{HasEnds};
ghost use Rattle.aeth_paths.specs.Walk.{IsTask};

use crate::prefix::Task;
use crate::request::Found;
use aeth_base::{NiId, Path};
use aeth_chip::Node;
use aeth_slots::{SlotSet, choose};

/// What a live path between interfaces is found as.
pub(crate) fn found(task: &Task, path: &Path) -> Found
    requires task { IsTask task.now }
    requires ends { HasEnds task.now.chip.now.links path.now }
    requires live { is_live task.now.book.now task.now.ask path.now ≡ true }
    ensures path { result.path ≡ path.now }
    ensures ends { (a b : NiId) → IsPath task.now.chip.now.links a b path.now
        → (result.from ≡ a) × (result.to ≡ b) }
    ensures slots { slots_of task.now.book.now task.now.ask path.now ≡ Some result.slots }
{
    let first = path.link(0);
    let last = path.link(path.len() - 1);
    Found {
        from: interface(task.chip.link(first).from),
        to: interface(task.chip.link(last).to),
        path: *path,
        slots: slots_on(task, path),
    }
}

// The interface that a node is.
fn interface(node: Node) -> NiId
    ensures { (ni : NiId) → node ≡ Ni ni → result ≡ ni }
{
    match node {
        Node::Ni(ni) => ni,
        Node::Router(router) => NiId(router.0),
    }
}

// The slots chosen out of the free starts of a live path.
fn slots_on(task: &Task, path: &Path) -> SlotSet
    requires task { IsTask task.now }
    requires links { All (λ link. link.0 < length task.now.chip.now.links) path.now }
    requires some { 1 ≤ length path.now }
    requires live { is_live task.now.book.now task.now.ask path.now ≡ true }
    ensures { slots_of task.now.book.now task.now.ask path.now ≡ Some result }
{
    let free = task.book.free(task.ask.unit, path);

    // A path's delay is at least 1, so the greatest gap is the latency less what is above 1.
    let gap = task
        .ask
        .latency
        .saturating_sub(task.chip.path_delay(path) - 1);
    choose(&free, task.ask.need.max(1), gap).unwrap()
}

// The search over all pairs of a sender and a receiver.
ghost use Rattle.std.specs.Prelude.{◌≡◌, ◌+◌, ◌<◌, ◌≤◌, ◌==◌, [], ◌∷◌, List, None};
ghost use Rattle.std.specs.Prelude.{All, IfOk, MatchOption, false, length, sum_by};
ghost use Rattle.std.specs.List.{list_any};
ghost use Rattle.aeth_base.specs.Limits.{max_path_links};
ghost use Rattle.aeth_base.specs.declared.ids.LinkId.{LinkId};
ghost use Rattle.aeth_base.specs.declared.ids.NiId.{NiId};
ghost use Rattle.aeth_chip.specs.Chip.{IsNode};
ghost use Rattle.aeth_chip.specs.LeastOnward.{least_from};
ghost use Rattle.aeth_chip.specs.Paths.{IsPath, to_of};
ghost use Rattle.aeth_chip.specs.declared.node.Node.TheVariants.{Ni};
ghost use Rattle.aeth_paths.specs.declared.request.Found.{Found};
ghost use Rattle.aeth_paths.specs.Candidates.{IsCandidate, IsFirst, is_live};
ghost use Rattle.aeth_paths.specs.Least.{field_to};
ghost use Rattle.aeth_paths.specs.Open.{all_steps, allowed_steps, each_once, open_steps};
ghost use Rattle.aeth_paths.specs.Pairs.{IsOffered, OfferedFrom, OfferedTo, Tries};
ghost use Rattle.aeth_paths.specs.Search.{completions, first_from};
ghost use Rattle.aeth_paths.specs.Task.{field};
ghost use Rattle.aeth_paths.specs.Walk.{IsPrefix, IsTask, Stands, costs_of, path_in, priced};

use crate::cost::Cost;
use crate::ends::found;
use crate::least::{COSTS, LEAST, Target, fill, is_weighed};
use crate::prefix::{Prefix, Task};
use crate::priced::Priced;
use crate::request::{Found, Request};
use crate::search::{Goal, extend, is_hopeless};
use aeth_base::{LinkId, MAX_PATH_LINKS, NiId, NoMemory, Path, Steps};
use aeth_book::Book;
use aeth_chip::{Chip, Distances, Node};
use std::marker::Brand;
use std::sync::ledger::{Blank, Ledger};

// Whether an interface is in a list.
fn holds(list: &[NiId], ni: NiId) -> bool
    ensures { result ≡ list_any (λ n. n.0 == ni.0) list.now }
{
    list.iter().any(|n| n.0 == ni.0)
}

// Whether an interface is in a list of such below a number: not where it isn't below it.
fn holds_below(list: &[NiId], below: u64, ni: NiId) -> bool
    requires { All (λ n. n.0 < below) list.now }
    ensures { result ≡ list_any (λ n. n.0 == ni.0) list.now }
{
    if ni.0 as u64 >= below {
        return false;
    }
    holds(list, ni)
}

// The list without links, which an interface begins.
fn start(task: &Task, ni: NiId) -> Prefix
    requires { IsTask task.now }
    ensures prefix { IsPrefix task.now result }
    ensures path { result.path ≡ [] }
    ensures end { result.end ≡ Ni ni }
{
    let path = Path::empty();
    Prefix {
        path,
        end: Node::Ni(ni),
        passed: 0,
        delay: 0,
        cost: 0,
        free: task.book.free(task.ask.unit, &path),
    }
}

// The list of one link.
fn alone(link: LinkId) -> Path
    ensures { result ≡ link ∷ [] }
{
    let mut path = Path::empty();
    path.push(link);
    path
}

// Whether the link on which an interface receives leaves starts that are near enough to each other
// for some path that ends there.
fn may_enter(task: &Task, ni: NiId) -> bool
    requires task { IsTask task.now }
    requires ni { ni.0 < length task.now.chip.now.nis }
    ensures { result ≡ false → (a : NiId) (path : List LinkId)
        → IsPath task.now.book.now.links a ni path
        → is_live task.now.book.now task.now.ask path ≡ false }
{
    let last = alone(task.chip.entering(ni));
    let free = task.book.free(task.ask.unit, &last);

    // A path's delay is at least 1, so no gap may be greater than the latency.
    free.suitable(1, task.ask.latency)
}

// The first of what was best and the candidates between a pair, where it isn't one crowded
// interface.
fn try_pair<L: Ledger>(
    task: &Task,
    a: NiId,
    b: NiId,
    crowded: &[NiId],
    best: Option<Priced>,
    steps: &mut Steps<L>,
) -> Option<Priced>
    requires task { IsTask task.now }
    requires best { best ≡ priced (costs_of task.now) (path_in best) }
    ensures best { result ≡ priced (costs_of task.now) (path_in result) }
    ensures tries { Tries (costs_of task.now) (path_in best) (path_in result)
        (IsOffered task.now.book.now task.now.ask crowded.now a b) }
    ensures steps { steps.new ≤ steps.old + allowed_steps task.now.chip.now task.now.book.now
        task.now.prices.now task.now.ask crowded.now a b }
{
    if a.0 == b.0 && holds(crowded, a) {
        return best;
    }
    let Some(distance) = task.far.between(a, b) else {
        return best;
    };
    if !may_enter(task, b) {
        return best;
    }
    let most = (distance as u64 + task.ask.detour as u64).min(MAX_PATH_LINKS as u64) as u32;
    let begun = start(task, a);

    // No table is made for a pair of which the number of links says enough.
    let bare = Goal {
        ni: b,
        most,
        costs: &[],
        least: &[],
    };
    if is_hopeless(task, &bare, &begun, &best) {
        return best;
    }
    let target = Target { ni: b, most };
    search(task, &target, &begun, best, steps)
}

// The first of what was best and the paths of a pair, from what is known of the empty one. Least costs
// are worked out where links have costs.
fn search<L: Ledger>(
    task: &Task,
    target: &Target,
    begun: &Prefix,
    best: Option<Priced>,
    steps: &mut Steps<L>,
) -> Option<Priced>
    requires task { IsTask task.now }
    requires most { target.now.most ≤ max_path_links }
    requires prefix { IsPrefix task.now begun.now }
    requires node { IsNode task.now.chip.now.routers task.now.chip.now.nis begun.now.end }
    requires stands { Stands (to_of task.now.book.now.links) begun.now.end begun.now.path }
    requires empty { begun.now.path ≡ [] }
    requires best { best ≡ priced (costs_of task.now) (path_in best) }
    ensures best { result ≡ priced (costs_of task.now)
        (first_from (field_to task.now target.now) (path_in best)
        (completions (field_to task.now target.now) max_path_links begun.now.end begun.now.path)) }
    ensures steps { steps.new ≤ steps.old + open_steps (field_to task.now target.now)
        (least_from task.now.chip.now target.now.ni) max_path_links begun.now.end begun.now.path }
{
    let Target { ni, most } = *target;
    if !is_weighed(task) {
        let bare = Goal {
            ni,
            most,
            costs: &[],
            least: &[],
        };
        return extend(task, &bare, begun, best, MAX_PATH_LINKS, steps);
    }
    let mut costs = [0; COSTS];
    let mut least = [0; LEAST];
    fill(task, target, &mut costs, &mut least, begun.end);
    let goal = Goal {
        ni,
        most,
        costs: &costs,
        least: &least,
    };
    extend(task, &goal, begun, best, MAX_PATH_LINKS, steps)
}

// The first of what was best and the candidates from one sender to some receivers.
fn try_to<L: Ledger>(
    task: &Task,
    a: NiId,
    to: &[NiId],
    crowded: &[NiId],
    best: Option<Priced>,
    steps: &mut Steps<L>,
) -> Option<Priced>
    requires task { IsTask task.now }
    requires best { best ≡ priced (costs_of task.now) (path_in best) }
    ensures best { result ≡ priced (costs_of task.now) (path_in result) }
    ensures tries { Tries (costs_of task.now) (path_in best) (path_in result)
        (OfferedTo task.now.book.now task.now.ask crowded.now a to.now) }
    ensures steps { steps.new ≤ steps.old + sum_by (allowed_steps task.now.chip.now
        task.now.book.now task.now.prices.now task.now.ask crowded.now a) (each_once to.now) }
{
    let mut best = best;
    let mut below = 0;
    for i in 0..to.len() {
        let b = to[i];
        if !holds_below(&to[..i], below, b) {
            best = try_pair(task, a, b, crowded, best, steps);
        }
        below = below.max(b.0 as u64 + 1);
    }
    best
}

// The first of the candidates from some senders to some receivers.
fn try_senders<L: Ledger>(
    task: &Task,
    from: &[NiId],
    to: &[NiId],
    crowded: &[NiId],
    steps: &mut Steps<L>,
) -> Option<Priced>
    requires task { IsTask task.now }
    ensures best { result ≡ priced (costs_of task.now) (path_in result) }
    ensures tries { Tries (costs_of task.now) None (path_in result)
        (OfferedFrom task.now.book.now task.now.ask crowded.now from.now to.now) }
    ensures steps { steps.new ≤ steps.old + all_steps task.now.chip.now task.now.book.now
        task.now.prices.now task.now.ask from.now to.now crowded.now }
{
    let mut best = None;
    let mut below = 0;
    for i in 0..from.len() {
        let a = from[i];
        if !holds_below(&from[..i], below, a) {
            best = try_to(task, a, to, crowded, best, steps);
        }
        below = below.max(a.0 as u64 + 1);
    }
    best
}

// What a search reads.
fn task_of<'a, F>(
    chip: &'a Chip,
    far: &'a Distances,
    book: &'a Book,
    ask: &Request,
    cost: &'a Cost<F>,
) -> Task<'a>
    requires far { far.now ≡ chip.now.links }
    requires book { book.now.links ≡ chip.now.links }
    ensures task { IsTask result }
    ensures chip { result.chip.now ≡ chip.now }
    ensures book { result.book.now ≡ book.now }
    ensures prices { result.prices.now ≡ cost.now }
    ensures ask { result.ask ≡ ask.now }
{
    let _slots = chip.slots();
    let _grants = book.list();
    Task {
        chip,
        far,
        book,
        prices: cost.prices(),
        ask: *ask,
    }
}

// What a search finds over the pairs of a sender and a receiver.
fn first_found<L: Ledger>(
    task: &Task,
    from: &[NiId],
    to: &[NiId],
    crowded: &[NiId],
    steps: &mut Steps<L>,
) -> Option<Found>
    requires task { IsTask task.now }
    ensures found { MatchOption result
        ((other : Found) → IsCandidate task.now.book.now task.now.ask from.now to.now crowded.now
        other → ⊥)
        (IsFirst task.now.book.now task.now.prices.now task.now.ask from.now to.now crowded.now) }
    ensures steps { steps.new ≤ steps.old + all_steps task.now.chip.now task.now.book.now
        task.now.prices.now task.now.ask from.now to.now crowded.now }
{
    match try_senders(task, from, to, crowded, steps) {
        None => None,
        Some(best) => Some(found(task, &best.path)),
    }
}

/// What `find` gives, with the steps counted: at most one for each allowed pair, open list of links
/// and link that leaves the list's end. An interface that stands twice in a list counts once.
pub fn find_counted<F: Fn(u32, u32) -> u32, L: Ledger>(
    chip: &Chip,
    far: &Distances,
    book: &Book,
    ask: &Request,
    from: &[NiId],
    to: &[NiId],
    crowded: &[NiId],
    cost: &Cost<F>,
    steps: &mut Steps<L>,
) -> Result<Option<Found>, NoMemory>
    requires far { far.now ≡ chip.now.links }
    requires book { book.now.links ≡ chip.now.links }
    ensures found { IfOk result (λ found. MatchOption found
        ((other : Found) → IsCandidate book.now ask.now from.now to.now crowded.now other → ⊥)
        (IsFirst book.now cost.now ask.now from.now to.now crowded.now)) }
    ensures steps { steps.new ≤ steps.old + all_steps chip.now book.now cost.now ask.now from.now
        to.now crowded.now }
{
    let task = task_of(chip, far, book, ask, cost);
    Ok(first_found(&task, from, to, crowded, steps))
}

/// The first candidate over the pairs of a sender and a receiver, a pair of one crowded interface
/// excepted; `None` exactly where there is no candidate. `Err` where there was no memory.
pub fn find<F: Fn(u32, u32) -> u32>(
    chip: &Chip,
    far: &Distances,
    book: &Book,
    ask: &Request,
    from: &[NiId],
    to: &[NiId],
    crowded: &[NiId],
    cost: &Cost<F>,
) -> Result<Option<Found>, NoMemory>
    requires far { far.now ≡ chip.now.links }
    requires book { book.now.links ≡ chip.now.links }
    ensures { IfOk result (λ found. MatchOption found
        ((other : Found) → IsCandidate book.now ask.now from.now to.now crowded.now other → ⊥)
        (IsFirst book.now cost.now ask.now from.now to.now crowded.now)) }
{
    let task = task_of(chip, far, book, ask, cost);
    Ok(found_from::<Brand>(&task, from, to, crowded, Blank::new(1)))
}

// What a search finds, with a counter of its own.
fn found_from<L: Ledger>(
    task: &Task,
    from: &[NiId],
    to: &[NiId],
    crowded: &[NiId],
    blank: Blank,
) -> Option<Found>
    requires name { blank.name ≡ L.name }
    requires parts { blank.parts ≡ L.parts }
    requires one { L.parts ≡ 1 }
    requires task { IsTask task.now }
    ensures { MatchOption result
        ((other : Found) → IsCandidate task.now.book.now task.now.ask from.now to.now crowded.now
        other → ⊥)
        (IsFirst task.now.book.now task.now.prices.now task.now.ask from.now to.now crowded.now) }
{
    let mut steps = Steps::<L>::open(blank);
    first_found(task, from, to, crowded, &mut steps)
}

// Paths with their costs, and which of two comes first.
ghost use Rattle.std.specs.Prelude.{◌≡◌, ◌≤◌, ◌++◌, ℕ, List, false, IsTrue, length, map};
ghost use Rattle.std.specs.Cmp.Lexicographic.{slice_cmp};
ghost use Rattle.std.specs.Ordering.{is_lt, nat_cmp};
ghost use Rattle.aeth_base.specs.declared.ids.LinkId.{LinkId};
ghost use Rattle.aeth_paths.specs.Walk.{is_before};

use crate::prefix::Prefix;
use aeth_base::Path;

/// A path with its cost.
#[derive(Clone, Copy)]
pub(crate) struct Priced {
    pub path: Path,
    pub cost: u32,
}

/// A list as a path with its cost.
pub(crate) fn with_cost(prefix: &Prefix) -> Priced
    ensures { result ≡ record { path = prefix.now.path; cost = prefix.now.cost } }
{
    Priced {
        path: prefix.path,
        cost: prefix.cost,
    }
}

/// Whether a path comes before another: by cost, then by number of links, then by link numbers.
pub(crate) fn comes_before(path: &Path, cost: u32, other: &Priced) -> bool
    ensures { result ≡ is_before cost path.now other.now.cost other.now.path }
{
    if cost != other.cost {
        return cost < other.cost;
    }
    if path.len() != other.path.len() {
        return path.len() < other.path.len();
    }
    for i in 0..path.len() {
        let (link, its) = (path.link(i), other.path.link(i));
        if link.0 != its.0 {
            return link.0 < its.0;
        }
    }
    false
}

/// Whether a path with this beginning, of at least this cost and length, may come before a path.
pub(crate) fn may_precede(path: &Path, cost: u64, links: u64, best: &Priced) -> bool
    ensures { result ≡ false → (its : ℕ) (rest : List LinkId) → cost ≤ its
        → links ≤ length (path.now ++ rest)
        → is_before its (path.now ++ rest) best.now.cost best.now.path ≡ false }
{
    if cost != best.cost as u64 {
        return cost < best.cost as u64;
    }
    if links != best.path.len() as u64 {
        return links < best.path.len() as u64;
    }
    !is_behind(path, &best.path)
}

/// Whether each path that begins with a list of links comes behind a path by link numbers.
fn is_behind(path: &Path, other: &Path) -> bool
    ensures { IsTrue result → (rest : List LinkId)
        → is_lt (slice_cmp nat_cmp (map (λ (link : LinkId). link.0) (path.now ++ rest))
        (map (λ (link : LinkId). link.0) other.now)) ≡ false }
{
    for i in 0..path.len().min(other.len()) {
        let (link, its) = (path.link(i), other.link(i));
        if link.0 != its.0 {
            return link.0 > its.0;
        }
    }
    false
}

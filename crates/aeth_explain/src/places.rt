// Whether a path begins with one of a certificate's lists, by those between two places alone.
ghost use Rattle.std.specs.Prelude.{◌≡◌, ◌≤◌, Bool, List, length};
ghost use Rattle.aeth_base.specs.declared.ids.LinkId.{LinkId};
ghost use Rattle.aeth_explain.specs.Cuts.{begins_with};
ghost use Rattle.aeth_explain.specs.Places.{AreWithin};
ghost use Rattle.aeth_explain.specs.Verdict.{is_covered};

use crate::cuts::Cuts;
use aeth_base::Path;

/// The places of a certificate's lists from one on, up to another and without it. They count from 0.
#[derive(Clone, Copy)]
pub(crate) struct Places {
    pub from: usize,
    pub to: usize,
}

/// Whether a path begins with a list.
fn begins_with(front: &Path, path: &Path) -> bool
    ensures { result ≡ begins_with front.now path.now }
{
    if front.len() > path.len() {
        return false;
    }
    for i in 0..front.len() {
        if front.link(i).0 != path.link(i).0 {
            return false;
        }
    }
    true
}

/// The places of all lists.
pub(crate) fn all_places(cuts: &Cuts) -> Places
    ensures known { result.to ≤ length cuts.now }
    ensures within { (test : List LinkId → Bool) → AreWithin test cuts.now result }
{
    Places {
        from: 0,
        to: cuts.list().len(),
    }
}

/// Whether a path begins with one of the lists, where those with which it does are between two places.
pub(crate) fn is_covered(cuts: &Cuts, places: Places, path: &Path) -> bool
    requires known { places.to ≤ length cuts.now }
    requires within { AreWithin (λ cut. begins_with cut path.now) cuts.now places }
    ensures { result ≡ is_covered cuts.now path.now }
{
    let list = cuts.list();
    for i in places.from..places.to {
        if begins_with(&list[i], path) {
            return true;
        }
    }
    false
}

/// The places from the first to the last of the lists that begin with a path, where all that do are
/// between two places.
pub(crate) fn narrowed(cuts: &Cuts, places: Places, path: &Path) -> Places
    requires known { places.to ≤ length cuts.now }
    requires within { AreWithin (begins_with path.now) cuts.now places }
    ensures known { result.to ≤ length cuts.now }
    ensures within { AreWithin (begins_with path.now) cuts.now result }
{
    let list = cuts.list();
    let mut from = places.from;
    let mut to = places.to;
    'first: while from < to && !begins_with(path, &list[from]) {
        from += 1;
    }
    'last: while from < to && !begins_with(path, &list[to - 1]) {
        to -= 1;
    }
    Places { from, to }
}

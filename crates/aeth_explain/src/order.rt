// The order of a dictionary.
ghost use Rattle.std.specs.Prelude.{◌≡◌};
ghost use Rattle.aeth_explain.specs.Order.{dictionary};

use aeth_base::Path;
use std::cmp::Ordering;

/// How two lists of links compare: by the first links that differ, and a list comes before those that go on from it.
pub(crate) fn dictionary(path: &Path, other: &Path) -> Ordering
    ensures { result ≡ dictionary path.now other.now }
{
    for i in 0..path.len().min(other.len()) {
        let (link, its) = (path.link(i), other.link(i));
        if link.0 != its.0 {
            return link.0.cmp(&its.0);
        }
    }
    path.len().cmp(&other.len())
}

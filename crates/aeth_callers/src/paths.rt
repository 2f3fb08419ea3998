// The path with the fewest links for a channel.
ghost use Rattle.std.specs.Prelude.{◌≡◌, ◌∷◌, [], IfOk, MatchOption};
ghost use Rattle.aeth_paths.specs.Candidates.{IsCandidate};
ghost use Rattle.aeth_paths.specs.declared.request.Found.{Found};

use aeth_base::{NiId, NoMemory};
use aeth_book::Book;
use aeth_chip::{Chip, Distances};
use aeth_paths::{Cost, Found, Request, find};
use std::alloc::Global;

/// The admissible path with the fewest links from an interface to another, and slots that are free
/// on it; `None` exactly where there is no such path.
pub fn shortest(
    alloc: Global,
    chip: &Chip,
    book: &Book,
    ask: &Request,
    from: NiId,
    to: NiId,
) -> Result<Option<Found>, NoMemory>
    requires { book.now.links ≡ chip.now.links }
    ensures { IfOk result (λ found. MatchOption found
        ((other : Found) → IsCandidate book.now ask.now (from ∷ []) (to ∷ []) [] other → ⊥)
        (IsCandidate book.now ask.now (from ∷ []) (to ∷ []) [])) }
{
    let far = Distances::of(alloc, chip)?;
    find(
        chip,
        &far,
        book,
        ask,
        &[from],
        &[to],
        &[],
        &Cost::new(|_delay, _used| 1),
    )
}

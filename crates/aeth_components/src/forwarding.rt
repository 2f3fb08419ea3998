// How the components of a network send flits on in every cycle alike.

ghost use Rattle.std.specs.Prelude.{◌<◌, IfOk, List, length, map, slice_set};
ghost use Rattle.aeth_components.specs.Passing.{AreForwarded, way_of};
ghost use Rattle.aeth_router.specs.declared.part.Part.{Part as PartState};

use aeth_base::NoMemory;
use aeth_router::{Forwarding, Part};
use std::alloc::Global;

// Notes of each component how it sends flits on.
pub(crate) fn forwardings_of(alloc: Global, parts: &[Part]) -> Result<Vec<Forwarding>, NoMemory>
    ensures { IfOk result (λ noted. AreForwarded (map way_of parts.now) noted.items) }
{
    let mut noted = Vec::with_capacity(alloc, parts.len())?;
    for part in parts {
        noted.push(part.forwarding())?;
    }
    Ok(noted)
}

// Notes it of the component that is at a place from now on.
pub(crate) fn note_forwarding(noted: &mut [Forwarding], place: usize, part: &Part)
    requires { place < length noted.old }
    ensures { (parts : List PartState) → AreForwarded (map way_of parts) noted.old
        → AreForwarded (map way_of (slice_set parts place part.now)) noted.new }
{
    noted[place] = part.forwarding();
}

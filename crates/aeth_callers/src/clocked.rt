// A cycle of interfaces, routers and stages.
ghost use Rattle.std.specs.Prelude.{◌≡◌, All, length, map};
ghost use Rattle.aeth_clocked.specs.Driven.{AreDisjoint, driven, is_output};
ghost use Rattle.aeth_clocked.specs.Wires.{AreLinks, Drives};
ghost use Rattle.aeth_router.specs.Part.{absorb_of, after_of, emit_of, inputs_of, outputs_of};

use aeth_clocked::{Order, Wires, drive_all, latch_all};
use aeth_router::Part;

/// A cycle of components, no two of which share an output: all drive, and then all latch what the
/// wires have. The order in which they take their turns makes no difference.
pub fn step(parts: &mut [Part], order: &Order, cycle: u64, wires: &mut Wires)
    requires order { length order.now ≡ length parts.old }
    requires outputs { All (λ part. AreLinks (outputs_of part) (length wires.old)) parts.old }
    requires inputs { All (λ part. AreLinks (inputs_of part) (length wires.old)) parts.old }
    requires disjoint { AreDisjoint outputs_of parts.old }
    ensures wires { Drives (is_output outputs_of parts.old)
        (driven outputs_of emit_of parts.old cycle) wires.old wires.new }
    ensures parts { parts.new
        ≡ map (λ part. absorb_of part wires.new) (map (λ part. after_of part cycle) parts.old) }
{
    drive_all(parts, order, cycle, wires);
    latch_all(parts, order, wires);
}

// The two halves of a cycle: each component drives in its turn, and then each latches.

ghost use Rattle.std.specs.Prelude.{◌≡◌, ℕ, length, map, All};
ghost use Rattle.aeth_clocked.specs.Wires.{AreLinks, Drives};
ghost use Rattle.aeth_clocked.specs.Driven.{AreDisjoint, is_output, driven};

use crate::clocked::Clocked;
use crate::order::Order;
use crate::wires::Wires;

/// Drives each component once, in the given order, which makes no difference to what comes out.
pub fn drive_all<C: Clocked>(parts: &mut [C], order: &Order, cycle: u64, wires: &mut Wires)
    requires order { length order.now ≡ length parts.old }
    requires links { All (λ part. AreLinks (C.outputs part) (length wires.old)) parts.old }
    requires disjoint { AreDisjoint C.outputs parts.old }
    ensures wires { Drives
        (is_output C.outputs parts.old)
        (driven C.outputs C.emit parts.old cycle)
        wires.old wires.new }
    ensures parts { parts.new ≡ map (λ part. C.after part cycle) parts.old }
{
    for turn in 0..order.len() {
        let part = &mut parts[order.at(turn) as usize];
        part.drive(cycle, wires);
    }
}

/// Has each component latch the wires once, in the given order, which makes no difference to what
/// comes out.
pub fn latch_all<C: Clocked>(parts: &mut [C], order: &Order, wires: &Wires)
    requires order { length order.now ≡ length parts.old }
    requires links { All (λ part. AreLinks (C.inputs part) (length wires.now)) parts.old }
    ensures { parts.new ≡ map (λ part. C.absorb part wires.now) parts.old }
{
    for turn in 0..order.len() {
        let part = &mut parts[order.at(turn) as usize];
        part.latch(wires);
    }
}

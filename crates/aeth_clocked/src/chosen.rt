// The two halves of a cycle where some components take a turn and all others rest.

ghost use Rattle.std.specs.Prelude.{◌≡◌, ◌+◌, ℕ, length, map, All};
ghost use Rattle.aeth_clocked.specs.Wires.{AreLinks, Drives};
ghost use Rattle.aeth_clocked.specs.Driven.{AreDisjoint, is_output, driven};
ghost use Rattle.aeth_clocked.specs.Order.{AreChosen};
ghost use Rattle.aeth_clocked.specs.Resting.{AllOthers, RestsDrive, RestsLatch};

use crate::clocked::Clocked;
use crate::wires::Wires;
use aeth_base::Steps;
use std::sync::ledger::Ledger;

/// Drives the components of these numbers, once each, where every other one rests from driving. What
/// comes out is what comes where all drive. It counts a step for each.
pub fn drive_some<C: Clocked, L: Ledger>(
    parts: &mut [C],
    which: &[u32],
    cycle: u64,
    wires: &mut Wires,
    steps: &mut Steps<L>,
)
    requires chosen { AreChosen (length parts.old) which.now }
    requires links { All (λ part. AreLinks (C.outputs part) (length wires.old)) parts.old }
    requires disjoint { AreDisjoint C.outputs parts.old }
    requires rest { AllOthers which.now
        (RestsDrive C.outputs C.emit C.after cycle wires.old) parts.old }
    ensures wires { Drives
        (is_output C.outputs parts.old)
        (driven C.outputs C.emit parts.old cycle)
        wires.old wires.new }
    ensures parts { parts.new ≡ map (λ part. C.after part cycle) parts.old }
    ensures steps { steps.new ≡ steps.old + length which.now }
{
    for turn in 0..which.len() {
        let part = &mut parts[which[turn] as usize];
        part.drive(cycle, wires);
        steps.tick();
    }
}

/// Has the components of these numbers latch the wires, once each, where every other one rests from
/// that. What comes out is what comes where all latch. It counts a step for each.
pub fn latch_some<C: Clocked, L: Ledger>(
    parts: &mut [C],
    which: &[u32],
    wires: &Wires,
    steps: &mut Steps<L>,
)
    requires chosen { AreChosen (length parts.old) which.now }
    requires links { All (λ part. AreLinks (C.inputs part) (length wires.now)) parts.old }
    requires rest { AllOthers which.now (RestsLatch C.absorb wires.now) parts.old }
    ensures parts { parts.new ≡ map (λ part. C.absorb part wires.now) parts.old }
    ensures steps { steps.new ≡ steps.old + length which.now }
{
    for turn in 0..which.len() {
        let part = &mut parts[which[turn] as usize];
        part.latch(wires);
        steps.tick();
    }
}

// The components of a clocked network.

ghost use Rattle.std.specs.Prelude.{◌≡◌, ◌↔◌, ℕ, Bool, IsTrue, Option, List, length};
ghost use Rattle.aeth_clocked.specs.declared.flit.Flit.{Flit};
ghost use Rattle.aeth_clocked.specs.Resting.{HasNoFlit, RestsDrive, RestsLatch};
ghost use Rattle.aeth_clocked.specs.Wires.{AreLinks, Drives, AgreeOn};

use crate::wires::Wires;

/// A component that drives its output links in the first half of a cycle, and latches its input
/// links in the second.
pub trait Clocked {
    /// Whether a link is an output.
    ghost outputs: { Self → ℕ → Bool };

    /// Whether a link is an input.
    ghost inputs: { Self → ℕ → Bool };

    /// What a component emits in a cycle on an output.
    ghost emit: { Self → ℕ → ℕ → Option Flit };

    /// The component after what it emits in a cycle.
    ghost after: { Self → ℕ → Self };

    /// The component once it has latched these wires.
    ghost absorb: { Self → List (Option Flit) → Self };

    /// Writes what is emitted in this flit cycle on each output, and leaves all other links.
    fn drive(&mut self, cycle: u64, wires: &mut Wires)
        requires { AreLinks (outputs self.old) (length wires.old) }
        ensures wires { Drives (outputs self.old) (emit self.old cycle) wires.old wires.new }
        ensures after { self.new ≡ after self.old cycle };

    /// Takes in what the wires have on the inputs.
    fn latch(&mut self, wires: &Wires)
        requires { AreLinks (inputs self.old) (length wires.now) }
        ensures { self.new ≡ absorb self.old wires.now };

    /// Whether a component has nothing to drive in this flit cycle: it emits nothing and is then as it
    /// was, and its outputs are empty.
    fn rests_drive(&self, cycle: u64, wires: &Wires) -> bool
        requires { AreLinks (outputs self.now) (length wires.now) }
        ensures { IsTrue result ↔ RestsDrive outputs emit after cycle wires.now self.now };

    /// Whether it has nothing to latch: its inputs are empty, and it is then as it was.
    fn rests_latch(&self, wires: &Wires) -> bool
        requires { AreLinks (inputs self.now) (length wires.now) }
        ensures { IsTrue result ↔ (HasNoFlit (inputs self.now) wires.now
            × RestsLatch absorb wires.now self.now) };

    /// A component keeps its outputs when it has emitted.
    ghost outputs_after: { (part : Self) (cycle link : ℕ)
        → outputs (after part cycle) link ≡ outputs part link };

    /// It keeps its inputs then.
    ghost inputs_after: { (part : Self) (cycle link : ℕ)
        → inputs (after part cycle) link ≡ inputs part link };

    /// It keeps its outputs when it has latched.
    ghost outputs_absorb: { (part : Self) (wires : List (Option Flit)) (link : ℕ)
        → outputs (absorb part wires) link ≡ outputs part link };

    /// It keeps its inputs then.
    ghost inputs_absorb: { (part : Self) (wires : List (Option Flit)) (link : ℕ)
        → inputs (absorb part wires) link ≡ inputs part link };

    /// What it absorbs is what its inputs have, alone.
    ghost absorb_agrees: { (part : Self) (some other : List (Option Flit))
        → AgreeOn (inputs part) some other → absorb part some ≡ absorb part other };
}

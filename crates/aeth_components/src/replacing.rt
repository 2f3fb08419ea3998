// A component takes the place of another: what that one held is lost, and all else goes on.

ghost use Rattle.std.specs.Prelude.{◌≡◌, ◌<◌, ◌==◌, ◌^◌, if◌then◌else◌, ℕ, None, Some, length, map};
ghost use Rattle.std.specs.Prelude.{replicate, slice_get, slice_index, slice_set};
ghost use Rattle.aeth_clocked.specs.Wires.{flit_on};
ghost use Rattle.aeth_components.specs.Ends.{AreEnds};
ghost use Rattle.aeth_components.specs.Wirings.{IsWired, wiring_of};
ghost use Rattle.aeth_components.specs.Passing.{forwarded_from, way_of};
ghost use Rattle.aeth_components.specs.FlitsOnWires.{flits_on};
ghost use Rattle.aeth_router.specs.Onward.{CameFrom, Nothing, arrival_at};

use crate::ends::Ends;
use crate::turns::Turns;
use aeth_base::LinkId;
use aeth_clocked::Wires;
use aeth_router::{Onward, Part};

// Takes the flits off the wires on which the component of a number receives.
pub(crate) fn lose(wires: &mut Wires, receivers: &[u32], number: usize)
    requires size { length receivers.now ≡ length wires.old }
    requires few { length wires.old < 2 ^ 32 }
    ensures size { length wires.new ≡ length wires.old }
    ensures at { (wire : ℕ) → wire < length wires.old → slice_get wires.new wire
        ≡ Some (if slice_index receivers.now wire == number then None else flit_on wires.old wire) }
{
    for wire in 0..receivers.len() {
        if receivers[wire] as usize == number {
            wires.put(LinkId(wire as u32), None);
        }
    }
}

// A component stands at a place from now on.
pub(crate) fn set(parts: &mut [Part], place: usize, part: Part)
    requires { place < length parts.old }
    ensures { parts.new ≡ slice_set parts.old place part }
{
    parts[place] = part;
}

// Notes how many flits wires have, and what goes on of them alike in every cycle.
pub(crate) fn pass_on(parts: &[Part], turns: &mut Turns, wires: &Wires, onward: Onward)
    requires wired { IsWired (map wiring_of parts.now) (length wires.now) }
    requires ends { AreEnds (map wiring_of parts.now) (length wires.now) turns.old.ends }
    requires onward { onward ≡ replicate (length wires.now) Nothing }
    ensures turns { turns.new ≡ record turns.old {
      onward = turns.new.onward;
      flits = flits_on wires.now;
    } }
    ensures size { length turns.new.onward ≡ length wires.now }
    ensures forwarded { (out : ℕ) → out < length wires.now → CameFrom
        (forwarded_from turns.old.ends.receivers.items (map way_of parts.now) wires.now out)
        (length wires.now) (arrival_at turns.new.onward out) }
{
    let mut onward = onward;
    turns.flits = forward(parts, &turns.ends, wires, &mut onward);
    turns.onward = onward;
}

// Passes on the flits of wires that go on alike in every cycle, and gives how many flits there are.
fn forward(parts: &[Part], ends: &Ends, wires: &Wires, onward: &mut Onward) -> u32
    requires wired { IsWired (map wiring_of parts.now) (length wires.now) }
    requires ends { AreEnds (map wiring_of parts.now) (length wires.now) ends.now }
    requires onward { onward.old ≡ replicate (length wires.now) Nothing }
    ensures count { result ≡ flits_on wires.now }
    ensures size { length onward.new ≡ length wires.now }
    ensures forwarded { (out : ℕ) → out < length wires.now → CameFrom
        (forwarded_from ends.now.receivers.items (map way_of parts.now) wires.now out)
        (length wires.now) (arrival_at onward.new out) }
{
    let receivers: &[u32] = &ends.receivers;
    let mut all = 0;
    for wire in wires.used() {
        let part = &parts[receivers[wire] as usize];
        part.forward(wires.flit(LinkId(wire as u32)), onward);
        all += 1;
    }
    all
}

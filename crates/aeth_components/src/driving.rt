// All components drive: routers and stages pass on what they hold, which is on their incoming wires, and
// interfaces inject.

ghost use Rattle.std.specs.Prelude.{◌≡◌, ◌<◌, ◌≤◌, ◌+◌, ℕ, length, map, replicate};
ghost use Rattle.aeth_router.specs.Onward.{CameFrom, Nothing, arrival_at};
ghost use Rattle.aeth_components.specs.Components.{wires_driven};
ghost use Rattle.aeth_components.specs.Ends.{AreEnds};
ghost use Rattle.aeth_components.specs.Wirings.{IsWired, wiring_of};
ghost use Rattle.aeth_components.specs.Enqueuing.{HasWaitingPlaces, MarksActive};
ghost use Rattle.aeth_components.specs.Injecting.{AreInjecting};
ghost use Rattle.aeth_components.specs.Passing.{forwarded_from, passed_from, way_of};
ghost use Rattle.aeth_components.specs.Ready.{AreReady};
ghost use Rattle.aeth_components.specs.Seen.{all_seen, interfaces_driven};
ghost use Rattle.aeth_components.specs.Sending.{IsSending};
ghost use Rattle.aeth_components.specs.FlitsOnWires.{flits_on};

use crate::ends::Ends;
use crate::enqueuing::Enqueuing;
use crate::injecting::inject;
use crate::turns::Turns;
use aeth_base::{LinkId, Steps};
use aeth_clocked::Wires;
use aeth_router::{Onward, Part};
use std::sync::ledger::Ledger;

// Drives every component: what is on the wires then is what all of them drive, where routers and stages
// hold what the wires had. Most flits were passed on as they landed. It counts a step for each that waited for a
// table, and one for each interface that sends.
pub(crate) fn drive<L: Ledger>(
    parts: &mut [Part],
    turns: &mut Turns,
    cycle: u32,
    wires: &mut Wires,
    enqueuing: &mut Enqueuing,
    steps: &mut Steps<L>,
)
    requires wired { IsWired (map wiring_of parts.old) (length wires.old) }
    requires ready { AreReady (map wiring_of parts.old) (map way_of parts.old) wires.old turns.old }
    requires injecting { AreInjecting parts.old turns.old.injecting }
    requires waiting { HasWaitingPlaces enqueuing.old }
    ensures wires { wires.new
        ≡ wires_driven (all_seen wires.old parts.old) (length wires.old) cycle }
    ensures parts { parts.new ≡ interfaces_driven cycle parts.old }
    ensures turns { turns.new ≡ record turns.old {
      onward = replicate (length wires.old) Nothing;
      injecting = turns.new.injecting;
    } }
    ensures injecting { AreInjecting parts.new turns.new.injecting }
    ensures enqueuing { MarksActive (IsSending cycle parts.old) enqueuing.old enqueuing.new }
    ensures steps { steps.new ≤ steps.old + flits_on wires.old + flits_on wires.new }
{
    if turns.has_tables {
        look_up(parts, &turns.ends, wires, cycle, &mut turns.onward, steps);
    }
    turns.onward.settle(wires);
    inject(parts, &mut turns.injecting, cycle, wires, enqueuing, steps);
}

// Passes on the flits of wires that end at routers with tables, where all others were passed on before, and
// counts a step for each.
fn look_up<L: Ledger>(
    parts: &[Part],
    ends: &Ends,
    wires: &Wires,
    cycle: u32,
    onward: &mut Onward,
    steps: &mut Steps<L>,
)
    requires wired { IsWired (map wiring_of parts.now) (length wires.now) }
    requires ends { AreEnds (map wiring_of parts.now) (length wires.now) ends.now }
    requires size { length onward.old ≡ length wires.now }
    requires forwarded { (out : ℕ) → out < length wires.now → CameFrom
        (forwarded_from ends.now.receivers.items (map way_of parts.now) wires.now out)
        (length wires.now) (arrival_at onward.old out) }
    ensures size { length onward.new ≡ length wires.now }
    ensures came { (out : ℕ) → out < length wires.now → CameFrom
        (passed_from ends.now.receivers.items parts.now wires.now cycle out) (length wires.now)
        (arrival_at onward.new out) }
    ensures steps { steps.new ≤ steps.old + flits_on wires.now }
{
    let receivers: &[u32] = &ends.receivers;
    for wire in wires.used() {
        let part = &parts[receivers[wire] as usize];
        if part.has_table() {
            let link = LinkId(wire as u32);
            part.pass(cycle, link, wires.flit(link), onward);
            steps.tick();
        }
    }
}

// Flits land: they are counted, the interfaces to which they come latch them, and the others go on.

ghost use Rattle.std.specs.Prelude.{◌≡◌, ◌≤◌, ◌<◌, ◌+◌, ◌^◌, ℕ, All, Some, fold, length, map, replicate};
ghost use Rattle.std.specs.Prelude.{slice_index, slice_set};
ghost use Rattle.aeth_components.specs.Changes.{on_interface};
ghost use Rattle.aeth_components.specs.Counting.{counted, flits_counted, noted};
ghost use Rattle.aeth_components.specs.Ends.{AreEnds};
ghost use Rattle.aeth_components.specs.Wirings.{IsWired, wiring_of};
ghost use Rattle.aeth_components.specs.Injecting.{AreInjecting, IsTold};
ghost use Rattle.aeth_components.specs.ChannelStates.{IsChannelState};
ghost use Rattle.aeth_components.specs.Passing.{AreForwarded, forwarded_from, way_of};
ghost use Rattle.aeth_components.specs.Seen.{flits_landed, interfaces_latched, landed};
ghost use Rattle.aeth_components.specs.FlitsOnWires.{flits_on};
ghost use Rattle.aeth_ni.specs.Queue.{capped};
ghost use Rattle.aeth_router.specs.Onward.{CameFrom, Nothing, arrival_at};

use crate::channels::Channels;
use crate::counts::Counts;
use crate::injecting::Injecting;
use crate::turns::Turns;
use aeth_base::{LinkId, Steps};
use aeth_clocked::{Flit, Wires};
use aeth_router::{Forwarding, Part};
use std::sync::ledger::Ledger;

// Counts the flits on the wires, and has those latched and their words counted that come to interfaces.
// The others that go on alike in every cycle are passed on for the next one. It counts a step for each.
pub(crate) fn land<L: Ledger>(
    parts: &mut [Part],
    turns: &mut Turns,
    wires: &Wires,
    channels: &mut Channels,
    counts: &mut Counts,
    cycle: u32,
    steps: &mut Steps<L>,
)
    requires wired { IsWired (map wiring_of parts.old) (length wires.now) }
    requires ends { AreEnds (map wiring_of parts.old) (length wires.now) turns.old.ends }
    requires noted { AreForwarded (map way_of parts.old) turns.old.forwarding.items }
    requires onward { turns.old.onward ≡ replicate (length wires.now) Nothing }
    requires injecting { AreInjecting parts.old turns.old.injecting }
    requires channel_states { All
        (IsChannelState (length counts.old.landings.items) (length parts.old))
        channels.old.channel_states }
    requires flits { length counts.old.flits.items ≤ length wires.now }
    requires cycle { cycle + 1 < 2 ^ 32 }
    ensures parts { parts.new ≡ flits_landed wires.now parts.old }
    ensures injecting { AreInjecting parts.new turns.new.injecting }
    ensures channel_states { channels.new.channel_states
        ≡ map (counted cycle (interfaces_latched wires.now parts.old)) channels.old.channel_states }
    ensures words { channels.new.words ≡ channels.old.words }
    ensures landings { counts.new.landings.items
        ≡ fold (noted cycle (interfaces_latched wires.now parts.old)) counts.old.landings.items
        channels.old.channel_states }
    ensures flits { counts.new.flits.items ≡ flits_counted wires.now counts.old.flits.items }
    ensures turns { turns.new ≡ record turns.old {
      onward = turns.new.onward;
      injecting = turns.new.injecting;
      flits = flits_on wires.now;
    } }
    ensures size { length turns.new.onward ≡ length wires.now }
    ensures forwarded { (out : ℕ) → out < length wires.now → CameFrom
        (forwarded_from turns.old.ends.receivers.items (map way_of parts.old) wires.now out)
        (length wires.now) (arrival_at turns.new.onward out) }
    ensures steps { steps.new ≤ steps.old + flits_on wires.now }
{
    let Turns {
        ends,
        forwarding,
        injecting,
        onward,
        flits,
        ..
    } = turns;
    let receivers: &[u32] = &ends.receivers;
    let forwardings: &[Forwarding] = forwarding;
    let interfaces = ends.interfaces as usize;
    let mut all = 0;
    for wire in wires.used() {
        let number = receivers[wire] as usize;
        let flit = wires.flit(LinkId(wire as u32));
        count_flit(&mut counts.flits, wire);
        if number < interfaces {
            let told = latch_one(&mut parts[number], flit);
            injecting.mark_told_active(number, told);
            channels.count_at(parts, number, &mut counts.landings, cycle);
        } else {
            forwardings[number].pass(flit, onward);
        }
        all += 1;
        steps.tick();
    }
    *flits = all;
}

// Counts one flit more of a link; a further wire is none.
fn count_flit(flits: &mut [u32], wire: usize)
    ensures { flits.new ≡ slice_set flits.old wire (capped (slice_index flits.old wire + 1)) }
{
    if wire < flits.len() {
        flits[wire] = flits[wire].saturating_add(1);
    }
}

// Has a component latch a flit, where it is an interface, and gives the queue to which it comes, where it comes to one that
// has something to send then.
fn latch_one(part: &mut Part, flit: Flit) -> Option<u8>
    ensures part { part.new ≡ on_interface (landed (Some flit)) part.old }
    ensures told { IsTold flit part.old part.new result }
{
    match part {
        Part::Interface(ni) => {
            let queue = ni.land(flit)?.0;
            if ni.is_queue_mute(queue) {
                None
            } else {
                Some(queue)
            }
        }
        _ => None,
    }
}

// One cycle up to where flits land: what is done to the parts, wires and channels of a network.

ghost use Rattle.std.specs.Prelude.{◌≡◌, ◌≤◌, ◌+◌, All, length, map, replicate};
ghost use Rattle.aeth_router.specs.Onward.{Nothing};
ghost use Rattle.aeth_components.specs.Components.{ready_of, wires_driven};
ghost use Rattle.aeth_components.specs.Events.{IsDoable};
ghost use Rattle.aeth_components.specs.Wirings.{IsWired, wiring_of};
ghost use Rattle.aeth_components.specs.Injecting.{AreInjecting};
ghost use Rattle.aeth_components.specs.ChannelStates.{IsChannelState};
ghost use Rattle.aeth_components.specs.Enqueuing.{AreEnqueuing};
ghost use Rattle.aeth_components.specs.Passing.{way_of};
ghost use Rattle.aeth_components.specs.Ready.{AreReady};
ghost use Rattle.aeth_components.specs.Seen.{all_seen, taken_of};
ghost use Rattle.aeth_components.specs.FlitsOnWires.{flits_on};

use crate::channels::Channels;
use crate::driving::drive;
use crate::enqueuing::Enqueuing;
use crate::event::Event;
use crate::phases::switch;
use crate::turns::Turns;
use aeth_base::Steps;
use aeth_clocked::Wires;
use aeth_router::Part;
use std::sync::ledger::Ledger;

// One cycle of components, wires and channels up to where flits land: events, refilling, driving, and taking.
pub(crate) fn run<L: Ledger>(
    parts: &mut [Part],
    wires: &mut Wires,
    channels: &mut Channels,
    enqueuing: &mut Enqueuing,
    turns: &mut Turns,
    cycle: u32,
    events: &[Event],
    steps: &mut Steps<L>,
)
    requires wired { IsWired (map wiring_of parts.old) (length wires.old) }
    requires ready { AreReady (map wiring_of parts.old) (map way_of parts.old) wires.old turns.old }
    requires injecting { AreInjecting parts.old turns.old.injecting }
    requires channel_states { All (IsChannelState (length channels.old.words) (length parts.old))
        channels.old.channel_states }
    requires events { All (IsDoable (map wiring_of parts.old)) events.now }
    requires enqueuing { AreEnqueuing parts.old channels.old.channel_states enqueuing.old }
    ensures moment { record { parts = parts.new; channel_states = channels.new.channel_states }
        ≡ taken_of channels.old.words events.now cycle
        (record { parts = parts.old; channel_states = channels.old.channel_states }) }
    ensures wires { wires.new ≡ wires_driven (ready_of channels.old.words events.now cycle
        (record {
          parts = all_seen wires.old parts.old;
          channel_states =
              channels.old.channel_states;
        })).parts
        (length wires.old) cycle }
    ensures words { channels.new.words ≡ channels.old.words }
    ensures channel_states { All (IsChannelState (length channels.new.words) (length parts.new))
        channels.new.channel_states }
    ensures wirings { map wiring_of parts.new ≡ map wiring_of parts.old }
    ensures ways { map way_of parts.new ≡ map way_of parts.old }
    ensures turns { turns.new ≡ record turns.old {
      onward = replicate (length wires.old) Nothing;
      injecting = turns.new.injecting;
    } }
    ensures injecting { AreInjecting parts.new turns.new.injecting }
    ensures enqueuing { AreEnqueuing parts.new channels.new.channel_states enqueuing.new }
    ensures steps { steps.new ≤ steps.old + flits_on wires.old + flits_on wires.new }
{
    switch(parts, &mut turns.injecting, events);
    enqueuing.mark_active_for(events);
    channels.refill(enqueuing, parts, &mut turns.injecting, cycle);
    drive(parts, turns, cycle, wires, enqueuing, steps);
    channels.take(parts, &mut turns.injecting, cycle);
}

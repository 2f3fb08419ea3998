// What is done in a cycle to single components and channels: switching, refilling, and taking.

ghost use Rattle.std.specs.Prelude.{◌≡◌, ◌<◌, All, length, map, true};
ghost use Rattle.aeth_components.specs.Busy.{AreMarked, IsChannelIdle, TakesNothing};
ghost use Rattle.aeth_components.specs.Changes.{switched};
ghost use Rattle.aeth_components.specs.Events.{IsDoable};
ghost use Rattle.aeth_components.specs.Wirings.{wiring_of};
ghost use Rattle.aeth_components.specs.Injecting.{AreInjecting};
ghost use Rattle.aeth_components.specs.ChannelStates.{IsEnd, IsChannelState, is_open};
ghost use Rattle.aeth_components.specs.Phases.{pulled, refilled};
ghost use Rattle.aeth_components.specs.Enqueuing.{IsFull};

use crate::channel_state::ChannelState;
use crate::event::Event;
use crate::injecting::Injecting;
use crate::parts::{dequeue, enqueue, meet};
use crate::worklist::Worklist;
use aeth_router::Part;

// Does the events of a cycle, one after the other, and notes who may inject from then on.
pub(crate) fn switch(parts: &mut [Part], injecting: &mut Injecting, events: &[Event])
    requires events { All (IsDoable (map wiring_of parts.old)) events.now }
    requires injecting { AreInjecting parts.old injecting.old }
    ensures parts { parts.new ≡ switched events.now parts.old }
    ensures wirings { map wiring_of parts.new ≡ map wiring_of parts.old }
    ensures injecting { AreInjecting parts.new injecting.new }
{
    for event in events {
        let part = &mut parts[event.part() as usize];
        meet(part, event);
        injecting.note(part, event);
    }
}

// One channel enqueues its accepted words.
pub(crate) fn refill_one(
    parts: &mut [Part],
    injecting: &mut Injecting,
    channel_state: &mut ChannelState,
    words: &[u32],
    cycle: u32,
)
    requires channel_state { IsChannelState (length words.now) (length parts.old) channel_state.old }
    requires injecting { AreInjecting parts.old injecting.old }
    ensures injecting { AreInjecting parts.new injecting.new }
    ensures turn { (parts.new, channel_state.new)
        ≡ refilled words.now cycle parts.old channel_state.old }
    ensures full { is_open channel_state.new cycle ≡ true
        → channel_state.new.enqueued < channel_state.new.accepted
        → IsFull parts.new channel_state.new.sender }
{
    if channel_state.enqueued < channel_state.accepted && channel_state.is_open(cycle) {
        let first = channel_state.first as usize;
        let from = first + channel_state.enqueued as usize;
        let left = &words[from..first + channel_state.accepted as usize];
        let part = &mut parts[channel_state.sender.ni.0 as usize];
        channel_state.enqueued += enqueue(part, channel_state.sender.queue, left);
        injecting.tell(
            part,
            channel_state.sender.ni.0 as usize,
            channel_state.sender.queue,
        );
    }
}

// One receiver takes.
pub(crate) fn take_one(
    parts: &mut [Part],
    injecting: &mut Injecting,
    channel_state: &mut ChannelState,
    cycle: u32,
)
    requires end { IsEnd (length parts.old) channel_state.old.receiver }
    requires injecting { AreInjecting parts.old injecting.old }
    ensures injecting { AreInjecting parts.new injecting.new }
    ensures turn { (parts.new, channel_state.new) ≡ pulled cycle parts.old channel_state.old }
{
    if channel_state.taken < channel_state.landed && channel_state.is_open(cycle) {
        let pull = channel_state
            .pull
            .min(channel_state.landed - channel_state.taken);
        let part = &mut parts[channel_state.receiver.ni.0 as usize];
        channel_state.taken += dequeue(part, channel_state.receiver.queue, pull);
        injecting.tell(
            part,
            channel_state.receiver.ni.0 as usize,
            channel_state.receiver.queue,
        );
    }
}

// Marks a channel no more where it is idle.
pub(crate) fn mark_idle(busy: &mut Worklist, channel_states: &[ChannelState], number: usize)
    requires number { number < length channel_states.now }
    requires marked { AreMarked IsChannelIdle busy.old channel_states.now }
    ensures { AreMarked IsChannelIdle busy.new channel_states.now }
{
    let channel_state = &channel_states[number];
    if channel_state.enqueued <= channel_state.landed
        && channel_state.landed <= channel_state.taken
        && channel_state.accepted <= channel_state.enqueued
    {
        busy.unmark(number);
    }
}

// Marks a channel no more where its receiver takes nothing.
pub(crate) fn rest(taking: &mut Worklist, channel_states: &[ChannelState], number: usize)
    requires number { number < length channel_states.now }
    requires marked { AreMarked TakesNothing taking.old channel_states.now }
    ensures { AreMarked TakesNothing taking.new channel_states.now }
{
    let channel_state = &channel_states[number];
    if channel_state.landed <= channel_state.taken || channel_state.pull == 0 {
        taking.unmark(number);
    }
}

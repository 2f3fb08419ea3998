// What is done at one queue of an interface within a cycle.

ghost use Rattle.std.specs.Prelude.{◌≡◌, ◌<◌, ◌≤◌, ◌^◌, length};
ghost use Rattle.aeth_ni.specs.Interface.{changed, queue_at};
ghost use Rattle.aeth_ni.specs.Limits.{queues_of_interface};
ghost use Rattle.aeth_components.specs.Changes.{event_done};
ghost use Rattle.aeth_components.specs.Events.{Suits};
ghost use Rattle.aeth_components.specs.Wirings.{InterfaceWiring};
ghost use Rattle.aeth_components.specs.Queues.{dequeues, dequeued, filled, fits, words_for};
ghost use Rattle.aeth_components.specs.Enqueuing.{room_left};

use crate::event::Event;
use aeth_ni::Ni;

// Does an event.
pub(crate) fn meet(ni: &mut Ni, event: &Event)
    requires { Suits event.now (InterfaceWiring ni.old.number ni.old.leaving ni.old.entering
        (length ni.old.entries) (length ni.old.queues)) }
    ensures { ni.new ≡ event_done event.now ni.old }
{
    match event {
        Event::Halt(end) => ni.halt(end.queue),
        Event::Finish(end) => ni.finish(end.queue),
        Event::Change(write) => ni.write(write),
    }
}

// Hands words to a source queue until eight wait there or none is left, and gives how many.
pub(crate) fn enqueue(ni: &mut Ni, queue: u8, words: &[u32]) -> u32
    requires queue { queue < queues_of_interface }
    requires few { length words.now < 2 ^ 32 }
    ensures count { result ≡ fits words.now (queue_at ni.old.queues queue) }
    ensures within { result ≤ length words.now }
    ensures ni { ni.new ≡ changed queue (filled words.now) ni.old }
    ensures full { result < length words.now → room_left (queue_at ni.new.queues queue) ≡ 0 }
{
    let mut count = 0;
    for word in words {
        if !ni.offer(queue, *word) {
            return count;
        }
        count += 1;
    }
    count
}

// Takes words out of a receive queue, at most so many, and gives how many.
pub(crate) fn dequeue(ni: &mut Ni, queue: u8, pull: u32) -> u32
    requires { queue < queues_of_interface }
    ensures count { result ≡ dequeues pull (queue_at ni.old.queues queue) }
    ensures within { result ≤ pull }
    ensures ni { ni.new ≡ changed queue (dequeued pull) ni.old }
{
    let _ = ni.last();
    for count in 0..pull {
        if ni.take(queue).is_none() {
            return count;
        }
    }
    pull
}

// How many words the last flit brought to a queue.
pub(crate) fn brought(ni: &Ni, queue: u8) -> u32
    ensures { result ≡ words_for queue ni.now.last }
{
    match ni.last() {
        Some((to, count)) if to == queue => u32::from(count),
        _ => 0,
    }
}

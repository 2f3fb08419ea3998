// What is done at one queue of a component, where this is an interface, or to the table of one that is
// a router with a table.

ghost use Rattle.std.specs.Prelude.{◌≡◌, ◌<◌, ◌≤◌, ◌%◌, ◌^◌, ℕ, All, IsTrue, Some, is_some, length, true};
ghost use Rattle.std.specs.List.Sorted.{IsNonDecreasingBy};
ghost use Rattle.aeth_ni.specs.Interface.{changed};
ghost use Rattle.aeth_ni.specs.Limits.{queues_of_interface};
ghost use Rattle.aeth_ni.specs.Sending.{emitted};
ghost use Rattle.aeth_components.specs.Changes.{event_done, on_interface, told_by};
ghost use Rattle.aeth_components.specs.Entering.{TakesRows, entered, with_rows};
ghost use Rattle.aeth_components.specs.Events.{Suits};
ghost use Rattle.aeth_components.specs.Wirings.{wiring_of};
ghost use Rattle.aeth_components.specs.Injecting.{entries_of};
ghost use Rattle.aeth_components.specs.Queues.{brought_by, dequeues, dequeued, filled, fits};
ghost use Rattle.aeth_components.specs.Enqueuing.{room_left};
ghost use Rattle.aeth_components.specs.FlitsOnWires.{sends_own};
ghost use Rattle.aeth_components.specs.View.{queue_in};

use crate::event::Event;
use crate::queues;
use aeth_router::{Part, RouterRow, are_by_router};

// Does an event; a router or a stage has none to do.
pub(crate) fn meet(part: &mut Part, event: &Event)
    requires { Suits event.now (wiring_of part.old) }
    ensures { part.new ≡ on_interface (event_done event.now) part.old }
{
    match part {
        Part::Interface(ni) => queues::meet(ni, event),
        _ => {}
    }
}

// Rows enter the table of a component; where it has none it is as it was.
fn enter(part: &mut Part, rows: &[RouterRow], are_ordered: bool)
    requires takes { TakesRows rows.now part.old }
    requires order { IsTrue are_ordered → IsNonDecreasingBy (λ row. row.router.0) rows.now }
    ensures { part.new ≡ entered rows.now part.old }
{
    match part {
        Part::TableRouter(router) => {
            if are_ordered {
                router.enter_ordered(rows);
            } else {
                router.enter(rows);
            }
        }
        _ => {}
    }
}

// Rows enter the tables of all components. Where they come in the order of routers, each router looks at its own
// alone.
pub(crate) fn enter_all(parts: &mut [Part], rows: &[RouterRow])
    requires { All (TakesRows rows.now) parts.old }
    ensures { parts.new ≡ with_rows rows.now parts.old }
{
    let are_ordered = are_by_router(rows);
    for number in 0..parts.len() {
        enter(&mut parts[number], rows, are_ordered);
    }
}

// Hands words to a source queue, and gives how many; a router or a stage takes none.
pub(crate) fn enqueue(part: &mut Part, queue: u8, words: &[u32]) -> u32
    requires queue { queue < queues_of_interface }
    requires few { length words.now < 2 ^ 32 }
    ensures count { result ≡ told_by queue (fits words.now) part.old }
    ensures within { result ≤ length words.now }
    ensures part { part.new ≡ on_interface (changed queue (filled words.now)) part.old }
    ensures full { result < length words.now → told_by queue room_left part.new ≡ 0 }
{
    match part {
        Part::Interface(ni) => queues::enqueue(ni, queue, words),
        _ => 0,
    }
}

// Takes words out of a receive queue, at most so many, and gives how many; a router or a stage has
// none.
pub(crate) fn dequeue(part: &mut Part, queue: u8, pull: u32) -> u32
    requires { queue < queues_of_interface }
    ensures count { result ≡ told_by queue (dequeues pull) part.old }
    ensures within { result ≤ pull }
    ensures part { part.new ≡ on_interface (changed queue (dequeued pull)) part.old }
{
    match part {
        Part::Interface(ni) => queues::dequeue(ni, queue, pull),
        _ => 0,
    }
}

// How many words the last flit brought to a queue; none to a router's or a stage's.
#[inline(always)]
pub(crate) fn brought(part: &Part, queue: u8) -> u32
    ensures { result ≡ brought_by queue part.now }
{
    match part {
        Part::Interface(ni) => queues::brought(ni, queue),
        _ => 0,
    }
}

// Whether no flit brought words in the last cycle; to a router or a stage none ever does.
#[inline(always)]
pub(crate) fn is_silent(part: &Part) -> bool
    ensures { result ≡ true → (queue : ℕ) → brought_by queue part.now ≡ 0 }
{
    match part {
        Part::Interface(ni) => ni.last().is_none(),
        _ => true,
    }
}

// Whether a component sends something of its own in a slot, of as many as its table has: only an interface
// does.
#[inline(always)]
pub(crate) fn sends_in(part: &Part, slot: usize) -> bool
    requires { 0 < length (entries_of part.now) → slot < length (entries_of part.now) }
    ensures { (cycle : ℕ)
        → (0 < length (entries_of part.now) → cycle % length (entries_of part.now) ≡ slot)
        → result ≡ sends_own cycle part.now }
{
    match part {
        Part::Interface(ni) => {
            // Its table has a slot, as this call says of every interface.
            let _ = ni.last();
            !ni.is_mute_in(slot)
        }
        _ => false,
    }
}

// Whether a queue of a component has something to send; a router or a stage has none.
#[inline(always)]
pub(crate) fn may_send(part: &Part, queue: u8) -> bool
    ensures { result ≡ is_some (emitted (queue_in queue (Some part.now))) }
{
    match part {
        Part::Interface(ni) => !ni.is_queue_mute(queue),
        _ => false,
    }
}

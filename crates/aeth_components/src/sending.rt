// The first cycle in which an interface sends something of its own.

ghost use Rattle.std.specs.Prelude.{◌≡◌, ◌<◌, ◌≤◌, ◌↔◌, ◌%◌, ℕ, IsTrue, length};
ghost use Rattle.aeth_base.specs.Marks.{bit_of};
ghost use Rattle.aeth_components.specs.First.{HasSender, IsFirst};
ghost use Rattle.aeth_components.specs.Injecting.{AreInjecting};
ghost use Rattle.aeth_components.specs.SlotMarks.{marks_at};

use crate::injecting::Injecting;
use crate::parts::sends_in;
use aeth_router::Part;

// The first cycle from one on, and below another, in which one of the components sends something of
// its own as it stands; the other where there is none. It looks at no more cycles than a table has
// slots, and of these at those in whose slot a component may send.
pub(crate) fn next_among(parts: &[Part], injecting: &Injecting, from: u32, to: u32) -> u32
    requires order { from ≤ to }
    requires injecting { AreInjecting parts.now injecting.now }
    ensures { IsFirst (HasSender parts.now) from to result }
{
    let span = injecting.slots.len().min((to - from) as usize) as u32;
    let end = from + span;
    let mut cycle = next_marked(injecting, from, end);
    'cycles: while cycle < end {
        if does_send(parts, injecting, cycle) {
            return cycle;
        }
        cycle = next_marked(injecting, cycle + 1, end);
    }
    to
}

// A cycle from one on, and no later than an end: in the slots of those before it no component is marked.
fn next_marked(injecting: &Injecting, from: u32, end: u32) -> u32
    requires order { from ≤ end }
    requires some { 0 < length injecting.now.slots }
    ensures from { from ≤ result }
    ensures end { result ≤ end }
    ensures none { (cycle number : ℕ) → from ≤ cycle → cycle < result → bit_of
        (marks_at injecting.now.slots (cycle % length injecting.now.slots)) number ≡ 1 → ⊥ }
{
    let slot = injecting.slot(from);
    let next = injecting.slots.next_slot(slot);
    from + (next - slot).min((end - from) as usize) as u32
}

// Whether a component sends something of its own in a cycle. Each that does is marked in the slot, and
// others are passed over.
fn does_send(parts: &[Part], injecting: &Injecting, cycle: u32) -> bool
    requires { AreInjecting parts.now injecting.now }
    ensures { IsTrue result ↔ HasSender parts.now cycle }
{
    let slot = injecting.slot(cycle);
    for number in injecting.slots.at(slot).iter() {
        if sends_in(&parts[number], slot) {
            return true;
        }
    }
    false
}

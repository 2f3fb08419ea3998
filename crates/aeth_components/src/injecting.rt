// Which interfaces may send in a slot, and marks of those that do.

ghost use Rattle.std.specs.Prelude.{◌≡◌, ◌≢◌, ◌<◌, ◌≤◌, ◌+◌, ◌*◌, ◌%◌, ◌^◌, ◌⊎◌, ℕ, All, IfOk, count_by, false};
ghost use Rattle.std.specs.Prelude.{IsTrue, Some, is_some, length, map, true};
ghost use Rattle.aeth_base.specs.Limits.{max_slots};
ghost use Rattle.aeth_base.specs.Marks.{bit_of, room_of};
ghost use Rattle.aeth_ni.specs.Limits.{queues_of_interface};
ghost use Rattle.aeth_ni.specs.Sending.{emitted};
ghost use Rattle.aeth_ni.specs.Writes.{addressee};
ghost use Rattle.aeth_components.specs.Events.{event_part};
ghost use Rattle.aeth_components.specs.Wirings.{IsWired, wiring_of};
ghost use Rattle.aeth_components.specs.Enqueuing.{HasWaitingPlaces, MarksActive};
ghost use Rattle.aeth_components.specs.Injecting.{AreInjecting, HasPlaces, IsEntered};
ghost use Rattle.aeth_components.specs.SlotMarks.{MarksMore};
ghost use Rattle.aeth_components.specs.Injecting.{NotesEvent, MarksQueueActive, MarksToldActive};
ghost use Rattle.aeth_components.specs.SlotMarks.{marks_at};
ghost use Rattle.aeth_components.specs.Injecting.{place_of_entry};
ghost use Rattle.aeth_components.specs.Seen.{interfaces_driven};
ghost use Rattle.aeth_components.specs.Sending.{Injects, IsSending};
ghost use Rattle.aeth_components.specs.FlitsOnWires.{sends_own};
ghost use Rattle.aeth_components.specs.View.{queue_in};
ghost use Rattle.aeth_components.specs.declared.event.Event.TheVariants.{Change};

use crate::enqueuing::Enqueuing;
use crate::event::Event;
use crate::parts::{may_send, sends_in};
use crate::slot_marks::SlotMarks;
use aeth_base::{Marks, NoMemory, Steps};
use aeth_clocked::{Clocked, Wires};
use aeth_ni::{QUEUES_OF_INTERFACE, Write};
use aeth_router::Part;
use std::alloc::Global;
use std::sync::ledger::Ledger;

// The most slots of a table.
const MOST_SLOTS: usize = 128;

// For each slot marks of the interfaces that may send in it, and for each queue of each interface marks of
// the slots that have its entry, or had it until another queue got the slot.
#[derive(Drop)]
pub(crate) struct Injecting {
    pub slots: SlotMarks,
    pub entries: Marks,
    // The queue whose entry for a slot was noted last, so that a clear one is found.
    latest: Vec<u8>,
}

impl Injecting {
    // For so many slots, and among so many components, those whose tables are empty. Later calls take no
    // memory.
    pub(crate) fn none(alloc: Global, slots: u32, parts: u32) -> Result<Injecting, NoMemory>
        requires some { 0 < slots }
        requires most { slots ≤ max_slots }
        ensures size { IfOk result (λ made. length made.slots ≡ slots) }
        ensures places { IfOk result (HasPlaces parts) }
        ensures unmarked { IfOk result (λ made. (slot number : ℕ)
            → bit_of (marks_at made.slots slot) number ≡ 0) }
    {
        let entries = parts as usize * QUEUES_OF_INTERFACE * MOST_SLOTS;
        Ok(Injecting {
            slots: SlotMarks::none(alloc, slots, parts)?,
            entries: Marks::none(alloc, entries)?,
            latest: vec![in alloc; 0; parts as usize * MOST_SLOTS]?,
        })
    }

    // Whether no interface is marked in the slot of a cycle. Then none of so many components sends in it.
    pub(crate) fn is_mute_in(&self, cycle: u32, parts: usize) -> bool
        requires { 0 < length self.now.slots }
        ensures { IsTrue result → (number : ℕ) → number < parts → bit_of
            (marks_at self.now.slots (cycle % length self.now.slots)) number ≡ 1 → ⊥ }
    {
        self.slots.next(self.slot(cycle), 0, parts) == parts
    }

    // The slot of a cycle.
    #[inline(always)]
    pub(crate) fn slot(&self, cycle: u32) -> usize
        requires { 0 < length self.now.slots }
        ensures { result ≡ cycle % length self.now.slots }
    {
        cycle as usize % self.slots.len()
    }

    // Notes what an event has entered in the table of a component, or taken out of it. The queue that it has
    // changed is marked active where it has something to send.
    pub(crate) fn note(&mut self, part: &Part, event: &Event)
        requires { HasPlaces (event_part event.now + 1) self.old }
        ensures { NotesEvent part.now event.now self.old self.new }
    {
        match event {
            Event::Halt(end) | Event::Finish(end) => {
                self.tell(part, end.ni.0 as usize, end.queue);
            }
            Event::Change(write) => self.note_write(part, write),
        }
    }

    // The same of a write.
    fn note_write(&mut self, part: &Part, write: &Write)
        requires { HasPlaces ((addressee write.now).0 + 1) self.old }
        ensures { NotesEvent part.now (Change write.now) self.old self.new }
    {
        match *write {
            Write::SetSlot { ni, slot, queue } => {
                self.enter(part, ni.0 as usize, queue, slot as usize);
            }
            Write::ClearSlot { ni, slot } => self.clear(ni.0 as usize, slot as usize),
            Write::SetRoute { ni, queue, .. } => self.tell(part, ni.0 as usize, queue),
            Write::ClearRoute { ni, queue } => self.tell(part, ni.0 as usize, queue),
        }
    }

    // An interface may send in each slot of one of its queues.
    pub(crate) fn mark_active(&mut self, number: usize, queue: u8)
        requires { HasPlaces (number + 1) self.old }
        ensures { MarksQueueActive number queue self.old self.new }
    {
        let first = place_of(number, queue, 0);
        let end = first + self.slots.len();
        let mut place = self.entries.next(first, end);
        'places: while place < end {
            self.slots.mark(place - first, number);
            place = self.entries.next(place + 1, end);
        }
    }

    // So it may where a queue has changed that has something to send then.
    #[inline(always)]
    pub(crate) fn tell(&mut self, part: &Part, number: usize, queue: u8)
        requires { HasPlaces (number + 1) self.old }
        ensures marked_active { is_some (emitted (queue_in queue (Some part.now))) ≡ true
            → MarksQueueActive number queue self.old self.new }
        ensures kept { is_some (emitted (queue_in queue (Some part.now))) ≡ false
            → self.new ≡ self.old }
    {
        if may_send(part, queue) {
            self.mark_active(number, queue);
        }
    }

    // So it may where a flit has come to one of its queues.
    #[inline(always)]
    pub(crate) fn mark_told_active(&mut self, number: usize, told: Option<u8>)
        requires { HasPlaces (number + 1) self.old }
        ensures { MarksToldActive number told self.old self.new }
    {
        if let Some(queue) = told {
            self.mark_active(number, queue);
        }
    }

    // A queue of an interface has the entry for a slot, and may send in it where it has something to send.
    fn enter(&mut self, part: &Part, number: usize, queue: u8, slot: usize)
        requires { HasPlaces (number + 1) self.old }
        ensures more { MarksMore number self.old.slots self.new.slots }
        ensures room { room_of self.new.entries ≡ room_of self.old.entries }
        ensures own { slot < length self.old.slots → IsEntered self.new number queue slot }
        ensures marked { slot < length self.old.slots
            → is_some (emitted (queue_in queue (Some part.now))) ≡ true
            → bit_of (marks_at self.new.slots slot) number ≡ 1 }
        ensures kept { (place : ℕ) → bit_of self.old.entries place ≡ 1
            → bit_of self.new.entries place ≡ 1 }
    {
        if slot < self.slots.len() {
            self.entries.mark(place_of(number, queue, slot));
            if let Some(latest) = self.latest.get_mut(MOST_SLOTS * number + slot) {
                *latest = queue;
            }
            if may_send(part, queue) {
                self.slots.mark(slot, number);
            }
        }
    }

    // The queue of an interface that had the entry for a slot last has it no more.
    fn clear(&mut self, number: usize, slot: usize)
        requires { HasPlaces (number + 1) self.old }
        ensures slots { self.new.slots ≡ self.old.slots }
        ensures room { room_of self.new.entries ≡ room_of self.old.entries }
        ensures kept { (other at queue : ℕ) → at < max_slots → (other ≢ number) ⊎ (at ≢ slot)
            → IsEntered self.old other queue at → IsEntered self.new other queue at }
    {
        if slot < self.slots.len() {
            if let Some(queue) = self.latest.get(MOST_SLOTS * number + slot) {
                self.entries.unmark(place_of(number, *queue, slot));
            }
        }
    }
}

// The place of a queue's entry for a slot.
#[inline(always)]
fn place_of(number: usize, queue: u8, slot: usize) -> usize
    requires number { number < 2 ^ 32 }
    requires slot { slot < max_slots }
    ensures place { result ≡ place_of_entry number queue slot }
    ensures below { result < max_slots * (queues_of_interface * (number + 1)) }
{
    MOST_SLOTS * (QUEUES_OF_INTERFACE * number + queue as usize % QUEUES_OF_INTERFACE) + slot
}

// Each interface that sends something of its own in a cycle drives it, and the channels that wait
// for room there may enqueue words. Each that may send is marked in the slot, and others are passed
// over. One that sends nothing more there is marked no more. It counts a step for each that sends.
pub(crate) fn inject<L: Ledger>(
    parts: &mut [Part],
    injecting: &mut Injecting,
    cycle: u32,
    wires: &mut Wires,
    enqueuing: &mut Enqueuing,
    steps: &mut Steps<L>,
)
    requires injecting { AreInjecting parts.old injecting.old }
    requires wired { IsWired (map wiring_of parts.old) (length wires.old) }
    requires waiting { HasWaitingPlaces enqueuing.old }
    ensures parts { parts.new ≡ interfaces_driven cycle parts.old }
    ensures injecting { AreInjecting parts.new injecting.new }
    ensures wires { Injects cycle parts.old wires.old wires.new }
    ensures enqueuing { MarksActive (IsSending cycle parts.old) enqueuing.old enqueuing.new }
    ensures steps { steps.new ≤ steps.old + count_by (sends_own cycle) parts.old }
{
    let slot = injecting.slot(cycle);
    let end = parts.len();
    let mut number = injecting.slots.next(slot, 0, end);
    'numbers: while number < end {
        if sends_in(&parts[number], slot) {
            let part = &mut parts[number];
            part.drive(u64::from(cycle), wires);
            enqueuing.mark_active(number as u32);
            steps.tick();
        }
        if !sends_in(&parts[number], slot) {
            injecting.slots.unmark(slot, number);
        }
        number = injecting.slots.next(slot, number + 1, end);
    }
}

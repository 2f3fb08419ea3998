// Which channels enqueue words, and which of them wait for room in their source queues.

ghost use Rattle.std.specs.Prelude.{◌≡◌, ◌<◌, ◌^◌, IfOk, List, length};
ghost use Rattle.aeth_base.specs.Marks.{bit_of, room_of};
ghost use Rattle.aeth_components.specs.Enqueuing.{AreEnqueuing, HasEvent, HasWaitingPlaces};
ghost use Rattle.aeth_components.specs.Enqueuing.{MarksIdle};
ghost use Rattle.aeth_components.specs.Enqueuing.{MarksActive};
ghost use Rattle.aeth_router.specs.declared.part.Part.{Part as PartState};

use crate::channel_state::ChannelState;
use crate::event::Event;
use crate::homes::{INTERFACES, QUEUES, place_of};
use crate::worklist::Worklist;
use aeth_base::{Marks, NoMemory};
use std::alloc::Global;

// Marks of the channels that may enqueue words. Each other one has enqueued all that is accepted,
// or waits at the place of its source queue, which is full.
#[derive(Drop)]
pub(crate) struct Enqueuing {
    pub marks: Worklist,
    // Marks of the places at which a channel waits, and for each place the channel that waited last.
    pub waiting: Marks,
    pub numbers: Vec<usize>,
}

impl Enqueuing {
    // Each of so many channels may enqueue words. Later calls take no memory.
    pub(crate) fn new(alloc: Global, count: usize) -> Result<Enqueuing, NoMemory>
        requires { count < 2 ^ 63 }
        ensures { IfOk result
            (λ enqueuing. (parts : List PartState) (channel_states : List ChannelState)
            → length channel_states ≡ count → AreEnqueuing parts channel_states enqueuing) }
    {
        Ok(Enqueuing {
            marks: Worklist::all(alloc, count)?,
            waiting: Marks::none(alloc, INTERFACES * QUEUES)?,
            numbers: vec![in alloc; 0; INTERFACES * QUEUES]?,
        })
    }

    // A marked channel has had its turn. It is marked no more where all that is accepted was
    // enqueued, nor where it waits: once it is open and words are left, its source queue is full.
    pub(crate) fn mark_idle(&mut self, channel_state: &ChannelState, number: usize, cycle: u32)
        requires number { number < room_of self.old.marks }
        requires places { HasWaitingPlaces self.old }
        requires marked { bit_of self.old.marks number ≡ 1 }
        ensures { MarksIdle cycle channel_state.now number self.old self.new }
    {
        if channel_state.accepted <= channel_state.enqueued {
            self.marks.unmark(number);
        } else if channel_state.is_open(cycle) {
            let place = place_of(channel_state.sender.ni.0, channel_state.sender.queue);
            let is_own = self.numbers[place] == number;
            if is_own || !self.waiting.has(place) {
                self.waiting.mark(place);
                self.numbers[place] = number;
                self.marks.unmark(number);
            }
        }
    }

    // The channels that wait for room at an interface may enqueue words.
    pub(crate) fn mark_active(&mut self, interface: u32)
        requires { HasWaitingPlaces self.old }
        ensures { MarksActive (λ other. other ≡ interface) self.old self.new }
    {
        let first = place_of(interface, 0);
        let end = first + QUEUES;
        let mut place = self.waiting.next(first, end);
        'places: while place < end {
            let number = self.numbers[place];
            self.waiting.unmark(place);
            self.marks.mark(number);
            place = self.waiting.next(place + 1, end);
        }
    }

    // So of all interfaces that events are for.
    pub(crate) fn mark_active_for(&mut self, events: &[Event])
        requires { HasWaitingPlaces self.old }
        ensures { MarksActive (HasEvent events.now) self.old self.new }
    {
        for event in events {
            self.mark_active(event.part());
        }
    }
}

// The channels of a network, and which of them have something to do.

ghost use Rattle.std.specs.Prelude.{◌≡◌, ◌<◌, ◌≤◌, ◌+◌, ◌^◌, ◌==◌, ℕ, All, IfOk, fold, length, map};
ghost use Rattle.std.specs.Prelude.{IsTrue, slice_set};
ghost use Rattle.aeth_base.specs.Marks.{bit_of, room_of};
ghost use Rattle.aeth_components.specs.Busy.{IsChannelIdle, TakesNothing};
ghost use Rattle.aeth_components.specs.Channels.{AreStill, OfChannelState};
ghost use Rattle.aeth_components.specs.Counting.{counted, counted_among, noted, noted_among};
ghost use Rattle.aeth_components.specs.Wirings.{wiring_of};
ghost use Rattle.aeth_components.specs.ChannelStates.{IsChannelState, with_channel_state};
ghost use Rattle.aeth_components.specs.Phases.{in_turn, pulled, refilled, turned};
ghost use Rattle.aeth_components.specs.Enqueuing.{AreEnqueuing};
ghost use Rattle.aeth_components.specs.Injecting.{AreInjecting};

use crate::channel_state::ChannelState;
use crate::counting::{count_one, count_received};
use crate::enqueuing::Enqueuing;
use crate::homes::Homes;
use crate::injecting::Injecting;
use crate::noted::Noted;
use crate::phases::{mark_idle, refill_one, rest, take_one};
use crate::worklist::Worklist;
use aeth_base::NoMemory;
use aeth_router::Part;
use std::alloc::Global;
use std::marker::Model;

/// The channels, each with its session of the time, and the words of all sessions. A phase of a
/// cycle passes over channels that have nothing to do in it.
#[derive(Drop)]
pub(crate) struct Channels {
    channel_states: Vec<ChannelState>,
    words: Vec<u32>,
    // Marks of the channels that may not be idle, and of those whose receivers may take words.
    busy: Worklist,
    taking: Worklist,
    // At which queues the words of channels land.
    homes: Homes,
}

impl Model for Channels {
    ghost use Rattle.aeth_components.specs.Busy.{AreNoted};
    ghost use Rattle.aeth_components.specs.Channels.{ChannelsState};

    ghost Value = { ChannelsState };

    ghost view = { λ all.
        record { channel_states = all.channel_states.items; words = all.words.items } };

    ghost invariant = { λ all. AreNoted all.busy all.taking all.homes all.channel_states.items };
}

impl Channels {
    /// These channels, with the words of all sessions. Later calls take no memory.
    pub(crate) fn new(
        alloc: Global,
        channel_states: Vec<ChannelState>,
        words: Vec<u32>,
    ) -> Result<Channels, NoMemory>
        ensures { IfOk result
            (λ made. made ≡ record { channel_states = channel_states.items; words = words.items }) }
    {
        let noted = Noted::of(alloc, &channel_states)?;
        Ok(Channels {
            channel_states,
            words,
            busy: noted.busy,
            taking: noted.taking,
            homes: noted.homes,
        })
    }

    /// The channels.
    pub(crate) fn channel_states(&self) -> &[ChannelState]
        ensures { result.now ≡ self.now.channel_states }
    {
        &self.channel_states
    }

    /// How many words all sessions have.
    pub(crate) fn count_words(&self) -> usize
        ensures { result ≡ length self.now.words }
    {
        self.words.len()
    }

    /// A channel has another session from now on.
    pub(crate) fn load(&mut self, number: usize, channel_state: ChannelState)
        requires { number < length self.old.channel_states }
        ensures { self.new
            ≡ record self.old {
              channel_states =
                  slice_set self.old.channel_states number channel_state;
            } }
    {
        self.channel_states[number] = channel_state;
        self.busy.mark(number);
        self.taking.mark(number);
        self.homes.note(number, &channel_state);
    }

    /// Each channel in its turn enqueues its accepted words at its source queue.
    pub(crate) fn refill(
        &mut self,
        enqueuing: &mut Enqueuing,
        parts: &mut [Part],
        injecting: &mut Injecting,
        cycle: u32,
    )
        requires channel_states { All (IsChannelState (length self.old.words) (length parts.old))
            self.old.channel_states }
        requires enqueuing { AreEnqueuing parts.old self.old.channel_states enqueuing.old }
        requires injecting { AreInjecting parts.old injecting.old }
        ensures injecting { AreInjecting parts.new injecting.new }
        ensures turns { record { parts = parts.new; channel_states = self.new.channel_states }
            ≡ in_turn (refilled self.old.words cycle)
            (record { parts = parts.old; channel_states = self.old.channel_states }) }
        ensures words { self.new.words ≡ self.old.words }
        ensures channel_states { All (IsChannelState (length self.new.words) (length parts.new))
            self.new.channel_states }
        ensures wirings { map wiring_of parts.new ≡ map wiring_of parts.old }
        ensures enqueuing { AreEnqueuing parts.new self.new.channel_states enqueuing.new }
    {
        let mut number = self.next_enqueuing(enqueuing, 0);
        'turns: while number < self.len() {
            self.refill_one(enqueuing, parts, injecting, number, cycle);
            number = self.next_enqueuing(enqueuing, number + 1);
        }
    }

    /// Each receiver in its turn takes.
    pub(crate) fn take(&mut self, parts: &mut [Part], injecting: &mut Injecting, cycle: u32)
        requires channel_states { All (IsChannelState (length self.old.words) (length parts.old))
            self.old.channel_states }
        requires injecting { AreInjecting parts.old injecting.old }
        ensures injecting { AreInjecting parts.new injecting.new }
        ensures turns { record { parts = parts.new; channel_states = self.new.channel_states }
            ≡ in_turn (pulled cycle)
            (record { parts = parts.old; channel_states = self.old.channel_states }) }
        ensures words { self.new.words ≡ self.old.words }
        ensures channel_states { All (IsChannelState (length self.new.words) (length parts.new))
            self.new.channel_states }
        ensures wirings { map wiring_of parts.new ≡ map wiring_of parts.old }
    {
        let mut number = self.next_taking(0);
        'turns: while number < self.len() {
            self.take_one(parts, injecting, number, cycle);
            number = self.next_taking(number + 1);
        }
    }

    /// So many words of a channel's session are accepted. Its receiver takes as before.
    pub(crate) fn accept(&mut self, number: usize, accepted: u32)
        requires { number < length self.old.channel_states }
        ensures { self.new ≡ record self.old {
          channel_states =
              with_channel_state number (λ now. record now { accepted = accepted })
              self.old.channel_states;
        } }
    {
        self.channel_states[number].accepted = accepted;
        self.busy.mark(number);
        self.homes.note(number, &self.channel_states[number]);
    }

    /// Counts what has landed of the channels that receive at an interface, and notes the cycle.
    pub(crate) fn count_at(
        &mut self,
        parts: &[Part],
        number: usize,
        landings: &mut [u32],
        cycle: u32,
    )
        requires cycle { cycle + 1 < 2 ^ 32 }
        requires number { number < length parts.now }
        requires few { length parts.now < 2 ^ 32 }
        requires channel_states { All (IsChannelState (length landings.old) (length parts.now))
            self.old.channel_states }
        ensures channel_states { self.new.channel_states
            ≡ map (counted_among (λ i. i == number) cycle parts.now) self.old.channel_states }
        ensures words { self.new.words ≡ self.old.words }
        ensures landings { landings.new
            ≡ fold (noted_among (λ i. i == number) cycle parts.now) landings.old
            self.old.channel_states }
    {
        if self.homes.is_apart {
            count_received(
                &mut self.channel_states,
                &mut self.taking,
                &self.homes,
                parts,
                number,
                landings,
                cycle,
            );
        } else {
            self.count_busy(parts, number, landings, cycle);
        }
    }

    // The same, where it isn't known which channels words come to.
    fn count_busy(&mut self, parts: &[Part], number: usize, landings: &mut [u32], cycle: u32)
        requires cycle { cycle + 1 < 2 ^ 32 }
        requires channel_states { All (IsChannelState (length landings.old) (length parts.now))
            self.old.channel_states }
        ensures channel_states { self.new.channel_states
            ≡ map (counted_among (λ i. i == number) cycle parts.now) self.old.channel_states }
        ensures words { self.new.words ≡ self.old.words }
        ensures landings { landings.new
            ≡ fold (noted_among (λ i. i == number) cycle parts.now) landings.old
            self.old.channel_states }
    {
        let mut channel = self.next_busy(0);
        'turns: while channel < self.len() {
            if self.channel_states[channel].receiver.ni.0 as usize == number {
                self.count_one(parts, channel, landings, cycle);
            }
            channel = self.next_busy(channel + 1);
        }
    }

    /// Whether all words that are accepted were enqueued, have landed and were taken.
    pub(crate) fn are_idle(&self) -> bool
        ensures { IsTrue result
            → AreStill IsChannelIdle self.now.channel_states 0 (length self.now.channel_states) }
    {
        self.next_busy(0) == self.len()
    }

    // How many channels there are.
    fn len(&self) -> usize
        ensures { result ≡ length self.now.channel_states }
    {
        self.channel_states.len()
    }

    // The first channel from a number on that is marked to enqueue words.
    fn next_enqueuing(&self, enqueuing: &Enqueuing, from: usize) -> usize
        requires from { from ≤ length self.now.channel_states }
        requires room { length self.now.channel_states < room_of enqueuing.now.marks }
        ensures from { from ≤ result }
        ensures end { result ≤ length self.now.channel_states }
        ensures none { (number : ℕ) → from ≤ number → number < result
            → bit_of enqueuing.now.marks number ≡ 0 }
        ensures found { result < length self.now.channel_states
            → bit_of enqueuing.now.marks result ≡ 1 }
    {
        enqueuing.marks.next(from, self.channel_states.len())
    }

    /// The first channel from a number on whose receiver may take words, as it stands.
    pub(crate) fn next_taking(&self, from: usize) -> usize
        requires { from ≤ length self.now.channel_states }
        ensures from { from ≤ result }
        ensures end { result ≤ length self.now.channel_states }
        ensures still { AreStill TakesNothing self.now.channel_states from result }
    {
        self.taking.next(from, self.channel_states.len())
    }

    // The first channel from a number on of which words may land.
    fn next_busy(&self, from: usize) -> usize
        requires { from ≤ length self.now.channel_states }
        ensures from { from ≤ result }
        ensures end { result ≤ length self.now.channel_states }
        ensures still { AreStill IsChannelIdle self.now.channel_states from result }
    {
        self.busy.next(from, self.channel_states.len())
    }

    // One channel enqueues its accepted words.
    fn refill_one(
        &mut self,
        enqueuing: &mut Enqueuing,
        parts: &mut [Part],
        injecting: &mut Injecting,
        number: usize,
        cycle: u32,
    )
        requires number { number < length self.old.channel_states }
        requires channel_states { All (IsChannelState (length self.old.words) (length parts.old))
            self.old.channel_states }
        requires enqueuing { AreEnqueuing parts.old self.old.channel_states enqueuing.old }
        requires marked { bit_of enqueuing.old.marks number ≡ 1 }
        requires injecting { AreInjecting parts.old injecting.old }
        ensures injecting { AreInjecting parts.new injecting.new }
        ensures turn { record { parts = parts.new; channel_states = self.new.channel_states }
            ≡ turned (refilled self.old.words cycle)
            (record { parts = parts.old; channel_states = self.old.channel_states }) number }
        ensures words { self.new.words ≡ self.old.words }
        ensures enqueuing { AreEnqueuing parts.new self.new.channel_states enqueuing.new }
    {
        refill_one(
            parts,
            injecting,
            &mut self.channel_states[number],
            &self.words,
            cycle,
        );
        enqueuing.mark_idle(&self.channel_states[number], number, cycle);
    }

    // One receiver takes.
    fn take_one(&mut self, parts: &mut [Part], injecting: &mut Injecting, number: usize, cycle: u32)
        requires number { number < length self.old.channel_states }
        requires channel_states { All (IsChannelState (length self.old.words) (length parts.old))
            self.old.channel_states }
        requires injecting { AreInjecting parts.old injecting.old }
        ensures injecting { AreInjecting parts.new injecting.new }
        ensures turn { record { parts = parts.new; channel_states = self.new.channel_states }
            ≡ turned (pulled cycle)
            (record { parts = parts.old; channel_states = self.old.channel_states }) number }
        ensures words { self.new.words ≡ self.old.words }
    {
        take_one(parts, injecting, &mut self.channel_states[number], cycle);
        mark_idle(&mut self.busy, &self.channel_states, number);
        rest(&mut self.taking, &self.channel_states, number);
    }

    // Counts what has landed of one channel, and notes the cycle. The receiver of
    // one of which words have landed may take.
    fn count_one(&mut self, parts: &[Part], number: usize, landings: &mut [u32], cycle: u32)
        requires cycle { cycle + 1 < 2 ^ 32 }
        requires number { number < length self.old.channel_states }
        requires channel_state { OfChannelState self.old.channel_states number
            (IsChannelState (length landings.old) (length parts.now)) }
        ensures channel_states { self.new.channel_states
            ≡ with_channel_state number (counted cycle parts.now) self.old.channel_states }
        ensures words { self.new.words ≡ self.old.words }
        ensures landings { OfChannelState self.old.channel_states number
            (λ channel_state. landings.new ≡ noted cycle parts.now landings.old channel_state) }
    {
        if count_one(parts, &mut self.channel_states[number], landings, cycle) {
            self.taking.mark(number);
        }
    }
}

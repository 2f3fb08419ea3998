// The components of a network and the channels' sessions.

ghost use Rattle.std.specs.Prelude.{◌≡◌, ◌≤◌, ◌<◌, ◌↔◌, ◌*◌, ◌+◌, ℕ, All, IfErr, IfOk, IfSome, IsTrue, None};
ghost use Rattle.std.specs.Prelude.{[], Some, false, length, map, replicate, slice_get, slice_set};
ghost use Rattle.aeth_base.specs.Limits.{max_cycles};
ghost use Rattle.aeth_ni.specs.Limits.{queues_of_interface};
ghost use Rattle.aeth_clocked.specs.Wires.{flit_on};
ghost use Rattle.aeth_router.specs.Onward.{Nothing};
ghost use Rattle.aeth_components.specs.Busy.{TakesNothing};
ghost use Rattle.aeth_components.specs.Changes.{switched};
ghost use Rattle.aeth_components.specs.Channels.{AreStill};
ghost use Rattle.aeth_components.specs.Components.{ComponentsCycle, first_components};
ghost use Rattle.aeth_components.specs.Components.{part_count, wirings_of};
ghost use Rattle.aeth_components.specs.Ends.{is_interface};
ghost use Rattle.aeth_components.specs.Entering.{TakesRows, with_rows};
ghost use Rattle.aeth_components.specs.Events.{IsDoable};
ghost use Rattle.aeth_components.specs.First.{HasSender, IsFirst};
ghost use Rattle.aeth_components.specs.Wirings.{IsWired, wiring_of};
ghost use Rattle.aeth_components.specs.Injecting.{AreInjecting};
ghost use Rattle.aeth_components.specs.ChannelStates.{IsChannelState, with_channel_state};
ghost use Rattle.aeth_components.specs.Enqueuing.{AreEnqueuing};
ghost use Rattle.aeth_components.specs.Passing.{way_of};
ghost use Rattle.aeth_components.specs.Ready.{AreReady};
ghost use Rattle.aeth_components.specs.Replacing.{emptied, without_held};
ghost use Rattle.aeth_components.specs.Seen.{all_seen, taken_of};
ghost use Rattle.aeth_components.specs.FlitsOnWires.{flits_on};

use crate::beside::Beside;
use crate::channel_state::ChannelState;
use crate::channels::Channels;
use crate::counts::Counts;
use crate::cycle::run;
use crate::enqueuing::Enqueuing;
use crate::event::Event;
use crate::forwarding::note_forwarding;
use crate::landing::land;
use crate::making::{RouterKind, parts_of};
use crate::parts::enter_all;
use crate::phases::switch;
use crate::replacing::{lose, pass_on, set};
use crate::sending::next_among;
use crate::turns::Turns;
use aeth_base::{NoMemory, Steps};
use aeth_chip::Chip;
use aeth_clocked::{Order, Wires};
use aeth_router::{Onward, Part, RouterRow};
use std::alloc::Global;
use std::marker::{Brand, Model};
use std::sync::ledger::{Blank, Ledger};

/// The components of a network, its wires, the session of each channel, and what a log is made of:
/// the cycle in which each word landed, and the flits on each link. It knows nothing of what should
/// come out.
#[derive(Drop)]
pub struct Components {
    parts: Vec<Part>,
    wires: Wires,
    turns: Turns,
    channels: Channels,
    enqueuing: Enqueuing,
    counts: Counts,
}

impl Model for Components {
    ghost use Rattle.std.specs.Prelude.{map};
    ghost use Rattle.aeth_components.specs.Components.{ComponentsState, IsComponents};
    ghost use Rattle.aeth_components.specs.Components.{components_of};
    ghost use Rattle.aeth_components.specs.Wirings.{wiring_of};
    ghost use Rattle.aeth_components.specs.Injecting.{AreInjecting};
    ghost use Rattle.aeth_components.specs.Enqueuing.{AreEnqueuing};
    ghost use Rattle.aeth_components.specs.Passing.{way_of};
    ghost use Rattle.aeth_components.specs.Ready.{AreReady};
    ghost use Rattle.aeth_components.specs.Seen.{all_seen};

    ghost Value = { ComponentsState };

    // What components latched last is on the wires.
    ghost view = { λ all. components_of (all_seen all.wires all.parts.items) all.wires
        all.channels.channel_states all.channels.words all.counts.landings.items
        all.counts.flits.items };

    ghost invariant = { λ all. IsComponents (components_of all.parts.items all.wires
        all.channels.channel_states all.channels.words all.counts.landings.items
        all.counts.flits.items)
        × AreReady (map wiring_of all.parts.items) (map way_of all.parts.items) all.wires all.turns
        × AreInjecting all.parts.items all.turns.injecting
        × AreEnqueuing all.parts.items all.channels.channel_states all.enqueuing };
}

impl Components {
    /// The components of a chip, none of which holds anything, with empty wires. Its routers are of
    /// a kind, and where they have tables these are empty. `rooms` has for each of the 32 queues of
    /// each interface the words that its receive queue has room for. `channel_states` has for each
    /// channel its first session, and `words` the words of all sessions of the run.
    ///
    /// Later calls take no memory.
    pub fn new(
        alloc: Global,
        chip: &Chip,
        kind: RouterKind,
        rooms: &[u32],
        channel_states: Vec<ChannelState>,
        words: Vec<u32>,
    ) -> Result<Components, NoMemory>
        requires rooms { length rooms.now ≡ queues_of_interface * length chip.now.nis }
        requires channel_states { All (IsChannelState (length words.items) (part_count chip.now))
            channel_states.items }
        ensures { IfOk result (λ made. made
            ≡ first_components chip.now kind rooms.now channel_states.items words.items) }
    {
        let channels = Channels::new(alloc, channel_states, words)?;
        Components::with(alloc, chip, kind, rooms, channels)
    }

    /// The number of components: those of which an order is.
    pub fn len(&self) -> usize
        ensures { result ≡ length self.now.parts }
    {
        self.parts.len()
    }

    /// The wires, as the last cycle drove them.
    pub fn wires(&self) -> &Wires
        ensures { result.now ≡ self.now.wires }
    {
        &self.wires
    }

    /// Whether no wire has a flit.
    pub fn are_wires_empty(&self) -> bool
        ensures { IsTrue result ↔ ((wire : ℕ) → flit_on self.now.wires wire ≡ None) }
    {
        self.turns.flits == 0
    }

    /// The channels, each with its session of the time.
    pub fn channel_states(&self) -> &[ChannelState]
        ensures { result.now ≡ self.now.channel_states }
    {
        self.channels.channel_states()
    }

    /// For each word that has landed the cycle in which it did, and 0 for each other.
    pub fn landings(&self) -> &[u32]
        ensures { result.now ≡ self.now.landings }
    {
        &self.counts.landings
    }

    /// For each link the number of cycles in which its first wire carried a flit.
    pub fn flits(&self) -> &[u32]
        ensures { result.now ≡ self.now.flits }
    {
        &self.counts.flits
    }

    /// The first cycle from `from` on, and below `to`, in which a component sends words or credits as
    /// it stands; `to` where there is none.
    pub fn next_sending(&self, from: u32, to: u32) -> u32
        requires { from ≤ to }
        ensures { IsFirst (HasSender self.now.parts) from to result }
    {
        next_among(&self.parts, &self.turns.injecting, from, to)
    }

    /// The first channel from `from` on whose receiver may take words as it stands: of those before it
    /// no words wait, or their receivers take none. Its number is that of all channels where there is
    /// none.
    pub fn next_taking(&self, from: usize) -> usize
        requires { from ≤ length self.now.channel_states }
        ensures from { from ≤ result }
        ensures end { result ≤ length self.now.channel_states }
        ensures still { AreStill TakesNothing self.now.channel_states from result }
    {
        self.channels.next_taking(from)
    }

    /// A channel has another session from now on.
    pub fn load(&mut self, channel: usize, channel_state: ChannelState)
        requires channel { channel < length self.old.channel_states }
        requires channel_state { IsChannelState (length self.old.words) (length self.old.parts)
            channel_state }
        ensures { self.new
            ≡ record self.old {
              channel_states =
                  slice_set self.old.channel_states channel channel_state;
            } }
    {
        self.channels.load(channel, channel_state);
        self.enqueuing.marks.mark(channel);
    }

    /// So many words of a channel's session are accepted.
    pub fn accept(&mut self, channel: usize, accepted: u32)
        requires channel { channel < length self.old.channel_states }
        requires enqueued { IfSome (slice_get self.old.channel_states channel)
            (λ now. (now.enqueued ≤ accepted) × (now.first + accepted ≤ length self.old.words)) }
        ensures { self.new ≡ record self.old {
          channel_states =
              with_channel_state channel (λ now. record now { accepted = accepted })
              self.old.channel_states;
        } }
    {
        self.channels.accept(channel, accepted);
        self.enqueuing.marks.mark(channel);
    }

    /// A channel's receiver takes so many words in a cycle, at most.
    pub fn set_pull(&mut self, channel: usize, pull: u32)
        requires { channel < length self.old.channel_states }
        ensures { self.new ≡ record self.old {
          channel_states =
              with_channel_state channel (λ now. record now { pull = pull })
              self.old.channel_states;
        } }
    {
        let mut channel_state = self.channels.channel_states()[channel];
        channel_state.pull = pull;
        self.load(channel, channel_state);
    }

    /// These rows are from now on the tables of the routers, and no other entry stays. A router that
    /// reads headers has no table, and all else is as it was.
    pub fn enter(&mut self, rows: &[RouterRow])
        requires { All (TakesRows rows.now) self.old.parts }
        ensures { self.new ≡ record self.old { parts = with_rows rows.now self.old.parts } }
    {
        enter_all(&mut self.parts, rows);
    }

    /// A router or a stage takes the place of another whose links it has, as where it is reset or a fault is put
    /// in. What that one holds is lost: the flits on its incoming wires, and with them what it would have sent in the
    /// next cycle. All else goes on. `Err` where there was no memory; then nothing has changed.
    pub fn replace(&mut self, alloc: Global, place: usize, part: Part) -> Result<(), NoMemory>
        requires links { slice_get (wirings_of self.old) place ≡ Some (wiring_of part) }
        requires kind { is_interface (wiring_of part) ≡ false }
        ensures ok { IfOk result (λ done. self.new ≡ record self.old {
          parts = slice_set self.old.parts place (emptied part);
          wires = without_held part self.old.wires;
        }) }
        ensures err { IfErr result (λ fault. self.new ≡ self.old) }
    {
        let onward = Onward::new(alloc, self.turns.ends.receivers.len() as u32)?;
        self.put(place, part, onward);
        Ok(())
    }

    /// Events before the first cycle.
    pub fn prepare(&mut self, events: &[Event])
        requires { All (IsDoable (wirings_of self.old)) events.now }
        ensures { self.new ≡ record self.old { parts = switched events.now self.old.parts } }
    {
        switch(&mut self.parts, &mut self.turns.injecting, events);
        self.enqueuing.mark_active_for(events);
    }

    /// One cycle. It takes no memory and can't fail, and every order gives the same.
    pub fn step(&mut self, order: &Order, cycle: u32, events: &[Event])
        requires order { length order.now ≡ length self.old.parts }
        requires cycle { cycle < max_cycles }
        requires events { All (IsDoable (wirings_of self.old)) events.now }
        ensures { ComponentsCycle events.now cycle self.old self.new }
    {
        self.step_from::<Brand>(order, cycle, events, Blank::new(1));
    }

    /// The same, in which only components take a turn that have something to do: a flit comes to them, or
    /// they send words or credits. It counts a step for each flit that comes to a component, one for each
    /// whose way a router's table has, and one for each interface that sends.
    pub fn step_counted<L: Ledger>(
        &mut self,
        order: &Order,
        cycle: u32,
        events: &[Event],
        steps: &mut Steps<L>,
    )
        requires order { length order.now ≡ length self.old.parts }
        requires cycle { cycle < max_cycles }
        requires events { All (IsDoable (wirings_of self.old)) events.now }
        ensures cycle { ComponentsCycle events.now cycle self.old self.new }
        ensures steps { steps.new
            ≤ steps.old + 2 * flits_on self.old.wires + 2 * flits_on self.new.wires }
    {
        let _ = order;
        self.prepare(events);
        if !self.rests_in(cycle) {
            self.step_all(cycle, &[], steps);
        }
    }

    // Whether a cycle without events leaves all as it is: no wire has a flit, no interface is marked in its slot, and
    // all that is accepted was taken.
    fn rests_in(&self, cycle: u32) -> bool
        ensures { IsTrue result → ComponentsCycle [] cycle self.now self.now }
    {
        self.turns.flits == 0
            && self.turns.injecting.is_mute_in(cycle, self.parts.len())
            && self.channels.are_idle()
    }

    // A cycle in which each phase is done.
    fn step_all<L: Ledger>(&mut self, cycle: u32, events: &[Event], steps: &mut Steps<L>)
        requires cycle { cycle < max_cycles }
        requires events { All (IsDoable (wirings_of self.old)) events.now }
        ensures cycle { ComponentsCycle events.now cycle self.old self.new }
        ensures steps { steps.new
            ≤ steps.old + 2 * flits_on self.old.wires + 2 * flits_on self.new.wires }
    {
        run(
            &mut self.parts,
            &mut self.wires,
            &mut self.channels,
            &mut self.enqueuing,
            &mut self.turns,
            cycle,
            events,
            steps,
        );
        land(
            &mut self.parts,
            &mut self.turns,
            &self.wires,
            &mut self.channels,
            &mut self.counts,
            cycle,
            steps,
        );
    }

    // The same, with what has come to no wire yet.
    fn put(&mut self, place: usize, part: Part, onward: Onward)
        requires links { slice_get (wirings_of self.old) place ≡ Some (wiring_of part) }
        requires kind { is_interface (wiring_of part) ≡ false }
        requires onward { onward ≡ replicate (length self.old.wires) Nothing }
        ensures { self.new ≡ record self.old {
          parts = slice_set self.old.parts place (emptied part);
          wires = without_held part self.old.wires;
        } }
    {
        lose(&mut self.wires, &self.turns.ends.receivers, place);
        self.turns.has_tables = part.has_table() | self.turns.has_tables;
        note_forwarding(&mut self.turns.forwarding, place, &part);
        set(&mut self.parts, place, part);
        pass_on(&self.parts, &mut self.turns, &self.wires, onward);
    }

    // The components of a chip with these channels.
    fn with(
        alloc: Global,
        chip: &Chip,
        kind: RouterKind,
        rooms: &[u32],
        channels: Channels,
    ) -> Result<Components, NoMemory>
        requires rooms { length rooms.now ≡ queues_of_interface * length chip.now.nis }
        requires channel_states { All (IsChannelState (length channels.words) (part_count chip.now))
            channels.channel_states }
        ensures { IfOk result (λ made. made
            ≡ first_components chip.now kind rooms.now channels.channel_states channels.words) }
    {
        let _ = chip.slots();
        let parts = parts_of(alloc, chip, kind, rooms)?;
        let beside = Beside::of(alloc, chip, kind, &parts, &channels)?;
        Ok(Components {
            parts,
            wires: beside.wires,
            turns: beside.turns,
            channels,
            enqueuing: beside.enqueuing,
            counts: beside.counts,
        })
    }

    // One cycle, with a counter of its own.
    fn step_from<L: Ledger>(&mut self, order: &Order, cycle: u32, events: &[Event], blank: Blank)
        requires name { blank.name ≡ L.name }
        requires parts { blank.parts ≡ L.parts }
        requires one { L.parts ≡ 1 }
        requires order { length order.now ≡ length self.old.parts }
        requires cycle { cycle < max_cycles }
        requires events { All (IsDoable (wirings_of self.old)) events.now }
        ensures { ComponentsCycle events.now cycle self.old self.new }
    {
        let mut steps = Steps::<L>::open(blank);
        self.step_counted(order, cycle, events, &mut steps);
    }
}

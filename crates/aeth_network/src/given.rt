// What a run gives a network, and what of it each cycle brings.

ghost use Rattle.std.specs.Prelude.{◌≡◌, ◌≢◌, ◌≤◌, ◌<◌, ◌⊎◌, ◌+◌, [], IfOk, IsTrue};
ghost use Rattle.aeth_components.specs.First.{IsFirst};
ghost use Rattle.aeth_stimuli.specs.Events.{events_in};
ghost use Rattle.aeth_running.specs.Network.{session_starts_in, offers_in, takes_in};
ghost use Rattle.aeth_schedule.specs.Schedule.{schedule_of};
ghost use Rattle.aeth_stimuli.specs.Stimuli.{stimuli_of};
ghost use Rattle.aeth_running.specs.Routing.{later_rows};
ghost use Rattle.aeth_network.specs.Behind.{IsBehind, passed};
ghost use Rattle.aeth_network.specs.Brought.{IsCalm};
ghost use Rattle.aeth_network.specs.Cursors.{AreCursors, AreInOrder, routing_with, stimuli_with};
ghost use Rattle.aeth_network.specs.Next.{HasOffer, HasWindow};
ghost use Rattle.aeth_network.specs.Routes.{routing_in};
ghost use Rattle.aeth_network.specs.Windows.{AreAscending};

use crate::next::next_offer;
use crate::places::{behind, quiet_until};
use crate::routing::{behind_entering, unentered_until};
use crate::rows::{Offered, Taking, offers_of, takes_of};
use crate::tables::UseTables;
use crate::windows::{next_window, place_behind};
use aeth_accepted::RunInputs;
use aeth_base::NoMemory;
use aeth_components::Event;
use aeth_schedule::{Schedule, SessionStarts};
use std::alloc::Global;

// What a run gives a network: its schedule, the words that are offered, the rows of receivers, and the
// tables of its routers, if they don't read headers.
#[derive(Drop)]
pub(crate) struct Given {
    pub schedule: Schedule,
    pub offers: Vec<Offered>,
    pub takes: Vec<Taking>,
    pub tables: Option<UseTables>,
}

// How far a network is in its events, its sessions, its words, the rows of receivers, the windows of its
// switches, and the rows that enter tables; a cycle before which no row comes from these places on but
// those of words; and one before which none comes but those of words and events.
#[derive(Clone, Copy)]
pub(crate) struct Cursors {
    pub event: usize,
    pub session_start: usize,
    pub offer: usize,
    pub take: usize,
    pub window: usize,
    pub entering: usize,
    pub quiet_until: u32,
    pub calm_until: u32,
}

// What a cycle brings, with the tables of routers, and the places behind it.
#[derive(Drop)]
pub(crate) struct CycleRows<'a> {
    pub events: &'a [Event],
    pub session_starts: SessionStarts<'a>,
    pub offers: &'a [Offered],
    pub takes: &'a [Taking],
    pub tables: &'a Option<UseTables>,
    pub behind: Cursors,
}

// What a cycle brings that brings nothing but words and events, and the places behind it.
#[derive(Drop)]
pub(crate) struct CalmRows<'a> {
    pub events: &'a [Event],
    pub offers: &'a [Offered],
    pub behind: Cursors,
}

impl Given {
    // What accepted inputs give, of which this is the schedule, with these tables.
    pub(crate) fn of(
        alloc: Global,
        inputs: &RunInputs,
        schedule: Schedule,
        tables: Option<UseTables>,
    ) -> Result<Given, NoMemory>
        requires { schedule ≡ schedule_of inputs.now }
        ensures stimuli { IfOk result (λ given. stimuli_with given ≡ stimuli_of inputs.now) }
        ensures routing { IfOk result (λ given. routing_with given ≡ routing_in tables) }
    {
        inputs.are_accepted();
        let cycles = inputs.cycles();
        let offers = offers_of(alloc, inputs.words().rows(), cycles)?;
        let takes = takes_of(alloc, inputs.receivers().rows(), cycles)?;
        Ok(Given {
            schedule,
            offers,
            takes,
            tables,
        })
    }

    // The first cycle from one on, and below a limit, in which a word is offered or a switch does
    // something. These are the places that were come to.
    pub(crate) fn next(&self, from: Cursors, time: u32, to: u32) -> u32
        requires order { AreInOrder (stimuli_with self.now) (routing_with self.now) }
        requires windows { AreAscending (stimuli_with self.now).schedule.windows }
        requires from { AreCursors from time (stimuli_with self.now) (routing_with self.now) }
        requires to { time ≤ to }
        ensures { IsFirst (λ t. HasOffer (stimuli_with self.now).offers t
            ⊎ HasWindow (stimuli_with self.now).schedule.windows t) time to result }
    {
        let next = next_offer(&self.offers, from.offer, time, to);
        next_window(self.schedule.windows(), from.window, time, next)
    }

    // Whether a cycle has an event. These are the places that were come to.
    pub(crate) fn has_event(&self, from: Cursors, time: u32) -> bool
        requires order { AreInOrder (stimuli_with self.now) (routing_with self.now) }
        requires from { AreCursors from time (stimuli_with self.now) (routing_with self.now) }
        ensures { IsTrue result → events_in (stimuli_with self.now) time ≢ [] }
    {
        from.event < behind(self.schedule.cycles(), from.event, time)
    }

    // What a cycle brings, from these places on.
    pub(crate) fn rows(&self, from: Cursors, time: u32) -> CycleRows<'_>
        requires order { AreInOrder (stimuli_with self.now) (routing_with self.now) }
        requires from { AreCursors from time (stimuli_with self.now) (routing_with self.now) }
        ensures events { result.events.now ≡ events_in (stimuli_with self.now) time }
        ensures session_starts { result.session_starts
            ≡ session_starts_in (stimuli_with self.now) time }
        ensures offers { result.offers.now ≡ offers_in (stimuli_with self.now) time }
        ensures takes { result.takes.now ≡ takes_in (stimuli_with self.now) time }
        ensures tables { result.tables.now ≡ self.now.tables }
        ensures entering { IsBehind (λ one. one.cycle) time (later_rows (routing_with self.now))
            from.entering result.behind.entering }
        ensures behind { AreCursors result.behind (time + 1) (stimuli_with self.now)
            (routing_with self.now) }
    {
        let event = behind(self.schedule.cycles(), from.event, time);
        let session_starts = self.schedule.session_starts();
        let session_start = behind(session_starts.list(), from.session_start, time);
        let offer = behind(&self.offers, from.offer, time);
        let take = behind(&self.takes, from.take, time);
        let window = place_behind(self.schedule.windows(), from.window, time);
        let entering = behind_entering(&self.tables, from.entering, time);
        let calm_until = self.calm_until(session_start, take, entering);
        CycleRows {
            events: self.schedule.events(from.event, event),
            session_starts: session_starts.range(from.session_start, session_start),
            offers: &self.offers[from.offer..offer],
            takes: &self.takes[from.take..take],
            tables: &self.tables,
            behind: Cursors {
                event,
                session_start,
                offer,
                take,
                window,
                entering,
                quiet_until: quiet_until(self.schedule.cycles(), event, calm_until),
                calm_until,
            },
        }
    }

    // What a cycle brings that brings nothing but words and events, from these places on.
    pub(crate) fn calm_rows(&self, from: Cursors, time: u32) -> CalmRows<'_>
        requires order { AreInOrder (stimuli_with self.now) (routing_with self.now) }
        requires from { AreCursors from time (stimuli_with self.now) (routing_with self.now) }
        requires calm { IsCalm (stimuli_with self.now) (routing_with self.now) time }
        ensures events { result.events.now ≡ events_in (stimuli_with self.now) time }
        ensures offers { result.offers.now ≡ offers_in (stimuli_with self.now) time }
        ensures behind { AreCursors result.behind (time + 1) (stimuli_with self.now)
            (routing_with self.now) }
    {
        let event = behind(self.schedule.cycles(), from.event, time);
        let offer = behind(&self.offers, from.offer, time);
        let window = place_behind(self.schedule.windows(), from.window, time);
        CalmRows {
            events: self.schedule.events(from.event, event),
            offers: &self.offers[from.offer..offer],
            behind: Cursors {
                event,
                offer,
                window,
                quiet_until: quiet_until(self.schedule.cycles(), event, from.calm_until),
                ..from
            },
        }
    }

    // A cycle before which no session goes from these places on, no row of a receiver comes, and no rows
    // enter tables.
    fn calm_until(&self, session_start: usize, take: usize, entering: usize) -> u32
        requires { AreInOrder (stimuli_with self.now) (routing_with self.now) }
        ensures session_starts { passed (λ one. one.channel_state.go) result
            (stimuli_with self.now).schedule.session_starts
            ≤ session_start }
        ensures takes { passed (λ one. one.cycle) result (stimuli_with self.now).takes ≤ take }
        ensures enterings { passed (λ one. one.cycle) result (later_rows (routing_with self.now))
            ≤ entering }
    {
        let until = quiet_until(
            self.schedule.session_starts().list(),
            session_start,
            u32::MAX,
        );
        let until = quiet_until(&self.takes, take, until);
        unentered_until(&self.tables, entering, until)
    }
}

// What a run does, cycle by cycle.

ghost use Rattle.std.specs.Prelude.{◌≡◌, ◌≤◌, length, slice_range};

use crate::session_start::{SessionStartList, SessionStarts};
use crate::windows::Window;
use aeth_components::Event;
use std::marker::Model;

/// What a run does to tables and queues, cycle by cycle, and its sessions in the order in which they
/// go.
#[derive(Drop)]
pub struct Schedule {
    loaded: Vec<Event>,
    events: Vec<Event>,
    cycles: Vec<u32>,
    session_starts: SessionStartList,
    windows: Vec<Window>,
    rooms: Vec<u32>,
}

impl Model for Schedule {
    ghost use Rattle.std.specs.Prelude.{◌≡◌, length};
    ghost use Rattle.aeth_schedule.specs.Schedule.{ScheduleData};

    ghost Value = { ScheduleData };

    ghost view = { λ schedule. record {
      loaded = schedule.loaded.items;
      events = schedule.events.items;
      cycles = schedule.cycles.items;
      session_starts = schedule.session_starts;
      windows = schedule.windows.items;
      rooms = schedule.rooms.items;
    } };

    ghost invariant = { λ schedule. length schedule.events.items ≡ length schedule.cycles.items };
}

impl Schedule {
    /// A schedule of these parts: what is written before the first cycle, the events and the cycle of each, the
    /// sessions, the windows of switches, and the rooms of receive queues.
    pub fn new(
        loaded: Vec<Event>,
        events: Vec<Event>,
        cycles: Vec<u32>,
        session_starts: SessionStartList,
        windows: Vec<Window>,
        rooms: Vec<u32>,
    ) -> Schedule
        requires { length events.items ≡ length cycles.items }
        ensures { result ≡ record {
          loaded = loaded.items;
          events = events.items;
          cycles = cycles.items;
          session_starts = session_starts;
          windows = windows.items;
          rooms = rooms.items;
        } }
    {
        Schedule {
            loaded,
            events,
            cycles,
            session_starts,
            windows,
            rooms,
        }
    }

    /// What is written before the first cycle.
    pub fn loaded(&self) -> &[Event]
        ensures { result.now ≡ self.now.loaded }
    {
        &self.loaded
    }

    /// For each of the 32 queues of each interface the words that its receive queue must have room
    /// for.
    pub fn rooms(&self) -> &[u32]
        ensures { result.now ≡ self.now.rooms }
    {
        &self.rooms
    }

    /// The sessions in the order in which they go.
    pub fn session_starts(&self) -> SessionStarts<'_>
        ensures { result ≡ self.now.session_starts }
    {
        self.session_starts.all()
    }

    /// The windows of all switches, in their order.
    pub fn windows(&self) -> &[Window]
        ensures { result.now ≡ self.now.windows }
    {
        &self.windows
    }

    /// The cycles of all events, which don't fall.
    pub fn cycles(&self) -> &[u32]
        ensures { result.now ≡ self.now.cycles }
    {
        &self.cycles
    }

    /// The events from a place on, before another.
    pub fn events(&self, from: usize, to: usize) -> &[Event]
        requires from { from ≤ to }
        requires to { to ≤ length self.now.cycles }
        ensures { result.now ≡ slice_range self.now.events from to }
    {
        &self.events[from..to]
    }
}

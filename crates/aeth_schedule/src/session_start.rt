// A session as it goes, and many of them by the places of their lines.

ghost use Rattle.std.specs.Prelude.{◌≡◌, ◌≤◌, ◌<◌, Some, length, map, slice_get, slice_range};
ghost use Rattle.aeth_schedule.specs.ByLine.{session_start_along, session_start_at};
ghost use Rattle.aeth_schedule.specs.ByLine.{session_starts_at, no_line};

use crate::lines::{Line, Lines, end_of};
use aeth_base::{Channel, ConnId, NiId, Side, UseId};
use aeth_components::{ChannelEnd, ChannelState};
use aeth_ni::ChannelRow;
use aeth_server::ChannelShape;
use aeth_slots::SlotSet;
use std::marker::Model;

/// A session of a channel, which goes in the cycle of its channel state.
#[derive(Clone, Copy)]
pub struct SessionStart {
    /// The channel.
    pub channel: Channel,
    /// What the channel is granted and asks for.
    pub shape: ChannelShape,
    /// The first cycle in which it accepts no words.
    pub until: u32,
    /// How many words of the channel are offered before it goes.
    pub before: u32,
    /// How many it accepts within the run.
    pub count: u32,
    /// The channel as it stands when the session goes.
    pub channel_state: ChannelState,
}

/// A session by the place of its channel's line in a use case, and by what it has of its own.
#[derive(Clone, Copy)]
pub struct SessionStartByLine {
    /// The use case with which it goes.
    pub use_case: UseId,
    /// The place of the channel's line in it.
    pub place: usize,
    /// The cycle in which it goes.
    pub go: u32,
    /// The first cycle in which its words are no longer enqueued and taken.
    pub fin: u32,
    /// The first cycle in which it accepts no words.
    pub until: u32,
    /// How many words of the channel are offered before it goes.
    pub before: u32,
    /// How many it accepts within the run.
    pub count: u32,
    /// The place of its first word among the words of all sessions.
    pub first: u32,
}

/// Sessions in the order in which they go, with the lines of all use cases.
#[derive(Drop)]
pub struct SessionStartList {
    lines: Vec<Lines>,
    list: Vec<SessionStartByLine>,
}

impl Model for SessionStartList {
    ghost use Rattle.std.specs.Prelude.{List};
    ghost use Rattle.aeth_schedule.specs.ByLine.{session_starts_at};
    ghost use Rattle.aeth_schedule.specs.declared.session_start.SessionStart.{SessionStart};

    ghost Value = { List SessionStart };

    ghost view = { λ session_starts. session_starts_at session_starts.lines.items
        session_starts.list.items };
}

impl SessionStartList {
    /// The sessions of such a list among these lines.
    pub fn of(lines: Vec<Lines>, list: Vec<SessionStartByLine>) -> SessionStartList
        ensures { result ≡ session_starts_at lines.items list.items }
    {
        SessionStartList { lines, list }
    }

    /// All of them.
    pub fn all(&self) -> SessionStarts<'_>
        ensures { result ≡ self.now }
    {
        SessionStarts {
            lines: &self.lines,
            list: &self.list,
        }
    }
}

/// Some sessions that follow each other, in the order in which they go.
#[derive(Drop)]
pub struct SessionStarts<'a> {
    lines: &'a [Lines],
    list: &'a [SessionStartByLine],
}

impl<'a> Model for SessionStarts<'a> {
    ghost use Rattle.std.specs.Prelude.{List};
    ghost use Rattle.aeth_schedule.specs.ByLine.{session_starts_at};
    ghost use Rattle.aeth_schedule.specs.declared.session_start.SessionStart.{SessionStart};

    ghost Value = { List SessionStart };

    ghost view = { λ session_starts. session_starts_at session_starts.lines.now
        session_starts.list.now };
}

impl<'a> SessionStarts<'a> {
    /// How many there are.
    pub fn len(&self) -> usize
        ensures { result ≡ length self.now }
    {
        self.list.len()
    }

    /// The session at a place.
    pub fn at(&self, place: usize) -> SessionStart
        requires { place < length self.now }
        ensures { slice_get self.now place ≡ Some result }
    {
        session_start_at(self.lines, &self.list[place])
    }

    /// Those from a place on, before another.
    pub fn range(&self, from: usize, to: usize) -> SessionStarts<'a>
        requires from { from ≤ to }
        requires to { to ≤ length self.now }
        ensures { result ≡ slice_range self.now from to }
    {
        SessionStarts {
            lines: self.lines,
            list: &self.list[from..to],
        }
    }

    /// Each with the cycle in which it goes.
    pub fn list(&self) -> &'a [SessionStartByLine]
        ensures { map (λ one. one.go) result.now ≡ map (λ one. one.channel_state.go) self.now }
    {
        self.list
    }
}

// The session of the channel of the line at its place.
fn session_start_at(all: &[Lines], one: &SessionStartByLine) -> SessionStart
    ensures { result ≡ session_start_at all.now one.now }
{
    let u = one.use_case.0 as usize;
    if u < all.len() && one.place < all[u].list().len() {
        session_start_along(&all[u].list()[one.place], one)
    } else {
        session_start_along(&no_line(), one)
    }
}

// A session of the channel of a line, of which nothing is done.
fn session_start_along(line: &Line, one: &SessionStartByLine) -> SessionStart
    ensures { result ≡ session_start_along line.now one.now }
{
    SessionStart {
        channel: line.row.channel,
        shape: line.shape,
        until: one.until,
        before: one.before,
        count: one.count,
        channel_state: ChannelState {
            sender: end_of(&line.row),
            receiver: line.receiver,
            go: one.go,
            fin: one.fin,
            first: one.first,
            accepted: 0,
            pull: 0,
            enqueued: 0,
            landed: 0,
            taken: 0,
        },
    }
}

// What a place has that is past all lines.
fn no_line() -> Line
    ensures { result ≡ no_line }
{
    let nowhere = ChannelEnd {
        ni: NiId(0),
        queue: 0,
    };
    Line {
        row: ChannelRow {
            channel: Channel {
                conn: ConnId(0),
                side: Side::Fwd,
            },
            ni: NiId(0),
            queue: 0,
            slots: SlotSet::empty(1),
            route: 0,
            remote: 0,
            credits: 0,
        },
        shape: ChannelShape {
            slots: SlotSet::empty(1),
            links: 0,
            delay: 0,
            need: 0,
            back: SlotSet::empty(1),
            back_links: 0,
        },
        receiver: nowhere,
    }
}

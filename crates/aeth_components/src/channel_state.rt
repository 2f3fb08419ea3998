// The ends of channels, and what a channel's session has done so far.

ghost use Rattle.std.specs.Prelude.{◌≡◌};
ghost use Rattle.aeth_components.specs.ChannelStates.{is_open as open_in};

use aeth_base::NiId;

/// An end of a channel: a queue of a network interface.
#[derive(Clone, Copy)]
pub struct ChannelEnd {
    /// The interface.
    pub ni: NiId,
    /// The queue: below 32.
    pub queue: u8,
}

/// One channel as it stands: the ends and cycles of its session of the time, and how far this is.
///
/// No more words are accepted than there are, enqueued than accepted, landed than enqueued, and
/// taken than landed.
#[derive(Clone, Copy)]
pub struct ChannelState {
    /// Where the session's words are sent.
    pub sender: ChannelEnd,
    /// Where they land.
    pub receiver: ChannelEnd,
    /// The first cycle in which words are enqueued and taken.
    pub go: u32,
    /// The first cycle in which they no longer are.
    pub fin: u32,
    /// The place of the session's first word among the words of all sessions.
    pub first: u32,
    /// How many of its words are accepted.
    pub accepted: u32,
    /// How many words its receiver takes in a cycle, at most.
    pub pull: u32,
    /// How many words were enqueued at the source queue.
    pub enqueued: u32,
    /// How many have landed.
    pub landed: u32,
    /// How many were taken.
    pub taken: u32,
}

impl ChannelState {
    // Whether words are enqueued and taken in a cycle.
    #[inline(always)]
    pub(crate) fn is_open(&self, cycle: u32) -> bool
        ensures { result ≡ open_in self.now cycle }
    {
        self.go <= cycle && cycle < self.fin
    }
}

// The events by which use cases are switched.

ghost use Rattle.std.specs.Prelude.{◌≡◌};
ghost use Rattle.aeth_ni.specs.Writes.{addressee};
ghost use Rattle.aeth_components.specs.Events.{event_part};

use crate::channel_state::ChannelEnd;
use aeth_base::NiId;
use aeth_ni::Write;

/// What is done at the begin of a cycle.
#[derive(Clone, Copy)]
pub enum Event {
    /// A queue injects no more.
    Halt(ChannelEnd),
    /// A queue is emptied.
    Finish(ChannelEnd),
    /// The tables of an interface change.
    Change(Write),
}

impl Event {
    // The number of the component that the event is for.
    pub(crate) fn part(&self) -> u32
        ensures { result ≡ event_part self.now }
    {
        match self {
            Event::Halt(end) | Event::Finish(end) => end.ni.0,
            Event::Change(write) => addressee_of(write).0,
        }
    }
}

// The interface that a write is for.
fn addressee_of(write: &Write) -> NiId
    ensures { result ≡ addressee write.now }
{
    match *write {
        Write::ClearSlot { ni, .. } => ni,
        Write::ClearRoute { ni, .. } => ni,
        Write::SetRoute { ni, .. } => ni,
        Write::SetSlot { ni, .. } => ni,
    }
}

// What is noted of channels beside them.

ghost use Rattle.std.specs.Prelude.{◌<◌, ◌^◌, IfOk, length};
ghost use Rattle.aeth_components.specs.Busy.{AreNoted};

use crate::channel_state::ChannelState;
use crate::homes::Homes;
use crate::worklist::Worklist;
use aeth_base::NoMemory;
use std::alloc::Global;

// Marks of the channels that may not be idle, marks of those whose receivers may take words, and at which
// queues the words of channels land.
#[derive(Drop)]
pub(crate) struct Noted {
    pub busy: Worklist,
    pub taking: Worklist,
    pub homes: Homes,
}

impl Noted {
    // Each of these channels is marked. Later calls take no memory.
    pub(crate) fn of(alloc: Global, channel_states: &[ChannelState]) -> Result<Noted, NoMemory>
        requires { length channel_states.now < 2 ^ 63 }
        ensures { IfOk result
            (λ noted. AreNoted noted.busy noted.taking noted.homes channel_states.now) }
    {
        let busy = Worklist::all(alloc, channel_states.len())?;
        let taking = Worklist::all(alloc, channel_states.len())?;
        let homes = Homes::new(alloc, channel_states)?;
        Ok(Noted {
            busy,
            taking,
            homes,
        })
    }
}

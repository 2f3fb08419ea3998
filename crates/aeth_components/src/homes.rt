// Which channel the words are of that land in a queue.

ghost use Rattle.std.specs.Prelude.{◌≡◌, ◌≤◌, ◌<◌, ◌^◌, ℕ, IfOk, IfSome, List, Some, length};
ghost use Rattle.std.specs.Prelude.{slice_get, slice_set, true};
ghost use Rattle.aeth_components.specs.Channels.{OfChannelState};
ghost use Rattle.aeth_components.specs.Homes.{AreHomes, home_at, home_count};
ghost use Rattle.aeth_components.specs.Queues.{brought_by};

use crate::channel_state::ChannelState;
use aeth_base::NoMemory;
use aeth_router::Part;
use std::alloc::Global;

// The interfaces, and the queues of each, that have places of their own.
pub(crate) const INTERFACES: usize = 64;

pub(crate) const QUEUES: usize = 32;

// What stands at the place of no channel.
const NOBODY: usize = usize::MAX;

// For each queue of an interface the channel of which words may land there.
#[derive(Drop)]
pub(crate) struct Homes {
    pub numbers: Vec<usize>,
    // Whether no two channels came to one place.
    pub is_apart: bool,
}

impl Homes {
    // Those of these channels. Later calls take no memory.
    pub(crate) fn new(alloc: Global, channel_states: &[ChannelState]) -> Result<Homes, NoMemory>
        requires { length channel_states.now < 2 ^ 63 }
        ensures { IfOk result (λ homes. AreHomes homes channel_states.now) }
    {
        Ok(Homes {
            numbers: vec![in alloc; NOBODY; INTERFACES * QUEUES]?,
            is_apart: await_none(channel_states),
        })
    }

    // A channel has changed.
    pub(crate) fn note(&mut self, number: usize, channel_state: &ChannelState)
        requires { length self.old.numbers.items ≡ home_count }
        ensures { (channel_states : List ChannelState) → AreHomes self.old channel_states
            → number < length channel_states
            → AreHomes self.new (slice_set channel_states number channel_state.now) }
    {
        if channel_state.landed < channel_state.accepted {
            let home = place_of(channel_state.receiver.ni.0, channel_state.receiver.queue);
            let is_own = come_to(&mut self.numbers, home, number);
            self.is_apart = self.is_apart && is_own;
        }
    }
}

// Whether no words are still to land of any channel.
fn await_none(channel_states: &[ChannelState]) -> bool
    ensures { result ≡ true → (number : ℕ) (channel_state : ChannelState)
        → slice_get channel_states.now number ≡ Some channel_state
        → channel_state.accepted ≤ channel_state.landed }
{
    for place in 0..channel_states.len() {
        if channel_states[place].landed < channel_states[place].accepted {
            return false;
        }
    }
    true
}

// The place of a queue.
#[inline(always)]
pub(crate) fn place_of(interface: u32, queue: u8) -> usize
    ensures place { result ≡ home_at interface queue }
    ensures below { result < home_count }
{
    (interface as usize % INTERFACES) * QUEUES + queue as usize % QUEUES
}

// Notes a channel at a place where none is, and tells whether it is the one there.
fn come_to(numbers: &mut [usize], place: usize, number: usize) -> bool
    requires { place < length numbers.old }
    ensures own { result ≡ true → slice_get numbers.new place ≡ Some number }
    ensures kept { (other n : ℕ) → slice_get numbers.old other ≡ Some n → n < 2 ^ 63
        → slice_get numbers.new other ≡ Some n }
{
    if numbers[place] == NOBODY {
        numbers[place] = number;
    }
    numbers[place] == number
}

// A channel that receives at an interface: the one of which the last flit there brought words, if it
// brought any of one. A place may name a channel that receives elsewhere by now.
pub(crate) fn channel_of(
    homes: &Homes,
    channel_states: &[ChannelState],
    part: &Part,
    number: u32,
) -> Option<usize>
    requires homes { AreHomes homes.now channel_states.now }
    requires apart { homes.now.is_apart ≡ true }
    ensures within { IfSome result (λ channel. channel < length channel_states.now) }
    ensures at { IfSome result
        (λ channel. OfChannelState channel_states.now channel
        (λ channel_state. channel_state.receiver.ni.0 ≡ number)) }
    ensures own { (channel : ℕ) (channel_state : ChannelState)
        → slice_get channel_states.now channel ≡ Some channel_state
        → channel_state.receiver.ni.0 ≡ number → channel_state.landed < channel_state.accepted
        → 0 < brought_by channel_state.receiver.queue part.now → result ≡ Some channel }
{
    let queue = told_queue(part)?;
    let channel = homes.numbers[place_of(number, queue)];
    if channel < channel_states.len() && channel_states[channel].receiver.ni.0 == number {
        return Some(channel);
    }
    None
}

// The queue to which the last flit brought words, if to any.
fn told_queue(part: &Part) -> Option<u8>
    ensures { (queue : ℕ) → 0 < brought_by queue part.now → result ≡ Some queue }
{
    match part {
        Part::Interface(ni) => Some(ni.last()?.0),
        _ => None,
    }
}

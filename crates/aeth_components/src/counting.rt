// What is counted behind a cycle: the words that have landed.

ghost use Rattle.std.specs.Prelude.{◌≡◌, ◌<◌, ◌≤◌, ◌+◌, ◌^◌, ◌==◌, All, Some};
ghost use Rattle.std.specs.Prelude.{false, fold, length, map, take, true};
ghost use Rattle.aeth_components.specs.Busy.{AreMarked, TakesNothing};
ghost use Rattle.aeth_components.specs.Channels.{OfChannelState};
ghost use Rattle.aeth_components.specs.Counting.{counted, counted_among, noted};
ghost use Rattle.aeth_components.specs.Counting.{noted_among, written_over};
ghost use Rattle.aeth_components.specs.Homes.{AreHomes};
ghost use Rattle.aeth_components.specs.ChannelStates.{IsChannelState, with_channel_state};

use crate::channel_state::ChannelState;
use crate::homes::{Homes, channel_of};
use crate::parts::{brought, is_silent};
use crate::worklist::Worklist;
use aeth_router::Part;

// Counts what has landed of one channel, and tells whether any has.
pub(crate) fn count_one(
    parts: &[Part],
    channel_state: &mut ChannelState,
    landings: &mut [u32],
    cycle: u32,
) -> bool
    requires cycle { cycle + 1 < 2 ^ 32 }
    requires channel_state { IsChannelState (length landings.old) (length parts.now)
        channel_state.old }
    ensures channel_state { channel_state.new ≡ counted cycle parts.now channel_state.old }
    ensures landings { landings.new ≡ noted cycle parts.now landings.old channel_state.old }
    ensures same { result ≡ false → channel_state.new ≡ channel_state.old }
{
    let part = &parts[channel_state.receiver.ni.0 as usize];
    if is_silent(part) {
        return false;
    }
    if channel_state.landed < channel_state.enqueued && channel_state.is_open(cycle) {
        let words = brought(part, channel_state.receiver.queue).min(
            channel_state.enqueued - channel_state.landed,
        );
        if words == 0 {
            return false;
        }
        let from = channel_state.first as usize + channel_state.landed as usize;
        note(landings, from, words, cycle + 1);
        channel_state.landed += words;
        return true;
    }
    false
}

// Counts what has landed of the channel of a number. The receiver of one of which words have landed
// may take.
fn count_at(
    channel_states: &mut [ChannelState],
    taking: &mut Worklist,
    parts: &[Part],
    number: usize,
    landings: &mut [u32],
    cycle: u32,
)
    requires cycle { cycle + 1 < 2 ^ 32 }
    requires number { number < length channel_states.old }
    requires channel_state { OfChannelState channel_states.old number
        (IsChannelState (length landings.old) (length parts.now)) }
    requires taking { AreMarked TakesNothing taking.old channel_states.old }
    ensures channel_states { channel_states.new
        ≡ with_channel_state number (counted cycle parts.now) channel_states.old }
    ensures landings { OfChannelState channel_states.old number
        (λ channel_state. landings.new ≡ noted cycle parts.now landings.old channel_state) }
    ensures taking { AreMarked TakesNothing taking.new channel_states.new }
{
    if count_one(parts, &mut channel_states[number], landings, cycle) {
        taking.mark(number);
    }
}

// Counts what has landed of the channels that receive at one interface.
pub(crate) fn count_received(
    channel_states: &mut [ChannelState],
    taking: &mut Worklist,
    homes: &Homes,
    parts: &[Part],
    number: usize,
    landings: &mut [u32],
    cycle: u32,
)
    requires cycle { cycle + 1 < 2 ^ 32 }
    requires number { number < length parts.now }
    requires few { length parts.now < 2 ^ 32 }
    requires channel_states { All (IsChannelState (length landings.old) (length parts.now))
        channel_states.old }
    requires homes { AreHomes homes.now channel_states.old }
    requires apart { homes.now.is_apart ≡ true }
    requires taking { AreMarked TakesNothing taking.old channel_states.old }
    ensures channel_states { channel_states.new
        ≡ map (counted_among (λ i. i == number) cycle parts.now) channel_states.old }
    ensures landings { landings.new
        ≡ fold (noted_among (λ i. i == number) cycle parts.now) landings.old channel_states.old }
    ensures taking { AreMarked TakesNothing taking.new channel_states.new }
{
    if let Some(channel) = channel_of(homes, channel_states, &parts[number], number as u32) {
        count_at(channel_states, taking, parts, channel, landings, cycle);
    }
}

// Notes a cycle at so many places.
fn note(landings: &mut [u32], from: usize, count: u32, cycle: u32)
    requires { from + count ≤ length landings.old }
    ensures { landings.new ≡ written_over count from cycle landings.old }
{
    for place in 0..count as usize {
        landings[from + place] = cycle;
    }
}

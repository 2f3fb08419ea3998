// What a cycle brings to channels: sessions go, words are offered, and receivers take as rows say.

ghost use Rattle.std.specs.Prelude.{◌≡◌, ◌≤◌, ◌<◌, ◌+◌, ◌*◌, ◌^◌, ◌++◌, ◌∷◌, [], All, fold, length};
ghost use Rattle.std.specs.Prelude.{map, vec_capacity};
ghost use Rattle.std.specs.List.{slice_index_or};
ghost use Rattle.aeth_app.specs.Limits.{max_connections};
ghost use Rattle.aeth_trace.specs.Channels.{channel_number};
ghost use Rattle.aeth_components.specs.ChannelStates.{IsChannelState};
ghost use Rattle.aeth_running.specs.Network.{accepted_with, gone_with, outside_with};
ghost use Rattle.aeth_stimuli.specs.Loaded.{no_channel_state};
ghost use Rattle.aeth_running.specs.Network.{taking_with, until_with};
ghost use Rattle.aeth_network.specs.Fits.{AreFit, HaveCounts};

use crate::rows::{Offered, Taking};
use aeth_components::{ChannelState, Components};
use aeth_schedule::{SessionStart, SessionStarts, number_of};

// Notes how the channels stand whose sessions go. There is room for each.
pub(crate) fn note(
    replaced: &mut Vec<ChannelState>,
    channel_states: &[ChannelState],
    session_starts: &SessionStarts,
)
    requires session_starts { All (λ one. channel_number one.channel < length channel_states.now)
        session_starts.now }
    requires few { length channel_states.now ≤ 2 * max_connections }
    requires room { length replaced.old.items + length session_starts.now
        ≤ vec_capacity replaced.old }
    ensures items { replaced.new.items
        ≡ replaced.old.items ++ map (λ one. slice_index_or channel_states.now
        (channel_number one.channel) no_channel_state) session_starts.now }
    ensures capacity { vec_capacity replaced.old ≤ vec_capacity replaced.new }
{
    for place in 0..session_starts.len() {
        let session_start = session_starts.at(place);
        let number = number_of(session_start.channel) as usize;
        note_one(replaced, &channel_states[number]);
    }
}

// Notes how a channel stands. There is room for it.
fn note_one(replaced: &mut Vec<ChannelState>, channel_state: &ChannelState)
    requires { length replaced.old.items < vec_capacity replaced.old }
    ensures items { replaced.new.items ≡ replaced.old.items ++ channel_state.now ∷ [] }
    ensures capacity { vec_capacity replaced.old ≤ vec_capacity replaced.new }
{
    let _ = replaced.push(*channel_state);
}

// Starts sessions on their channels.
pub(crate) fn start(
    components: &mut Components,
    untils: &mut Vec<u32>,
    session_starts: &SessionStarts,
)
    requires session_starts { All
        (λ one. channel_number one.channel < length components.old.channel_states)
        session_starts.now }
    requires few { length components.old.channel_states ≤ 2 * max_connections }
    requires untils { length untils.old.items ≡ length components.old.channel_states }
    requires channel_states { All (λ one. IsChannelState (length components.old.words)
        (length components.old.parts) one.channel_state) session_starts.now }
    ensures components { components.new ≡ record components.old {
      channel_states = fold gone_with components.old.channel_states session_starts.now;
    } }
    ensures untils { untils.new.items ≡ fold until_with untils.old.items session_starts.now }
{
    for place in 0..session_starts.len() {
        let session_start = session_starts.at(place);
        start_one(components, untils, &session_start);
    }
}

// Starts a session on its channel, whose receiver takes as before.
fn start_one(components: &mut Components, untils: &mut Vec<u32>, session_start: &SessionStart)
    requires session_start { channel_number session_start.now.channel
        < length components.old.channel_states }
    requires few { length components.old.channel_states ≤ 2 * max_connections }
    requires untils { length untils.old.items ≡ length components.old.channel_states }
    requires channel_state { IsChannelState (length components.old.words)
        (length components.old.parts)
        session_start.now.channel_state }
    ensures components { components.new ≡ record components.old {
      channel_states = gone_with components.old.channel_states session_start.now;
    } }
    ensures untils { untils.new.items ≡ until_with untils.old.items session_start.now }
{
    let number = number_of(session_start.channel) as usize;
    let mut channel_state = session_start.channel_state;
    channel_state.pull = components.channel_states()[number].pull;
    components.load(number, channel_state);
    untils[number] = session_start.until;
}

// Offers words in a cycle: the sessions of their channels accept them, or they are outside of all.
pub(crate) fn offer(
    components: &mut Components,
    untils: &[u32],
    outside: &mut Vec<u32>,
    offers: &[Offered],
    time: u32,
)
    requires offers { All (λ one. one.number < length components.old.channel_states) offers.now }
    requires time { All (λ one. one.cycle ≡ time) offers.now }
    requires untils { length untils.now ≡ length components.old.channel_states }
    requires outside { length outside.old.items ≡ length components.old.channel_states }
    requires fit { AreFit (length components.old.words) (length components.old.parts)
        untils.now offers.now components.old.channel_states }
    requires counts { HaveCounts offers.now outside.old.items }
    requires words { length components.old.words < 2 ^ 32 }
    ensures components { components.new ≡ record components.old {
      channel_states =
          fold (accepted_with time untils.now) components.old.channel_states offers.now;
    } }
    ensures outside { outside.new.items
        ≡ fold (outside_with time untils.now) outside.old.items offers.now }
{
    for one in offers {
        offer_one(components, untils, outside, one, time);
    }
}

// Offers a word.
fn offer_one(
    components: &mut Components,
    untils: &[u32],
    outside: &mut Vec<u32>,
    offer: &Offered,
    time: u32,
)
    requires offer { offer.now.number < length components.old.channel_states }
    requires time { offer.now.cycle ≡ time }
    requires untils { length untils.now ≡ length components.old.channel_states }
    requires outside { length outside.old.items ≡ length components.old.channel_states }
    requires fit { AreFit (length components.old.words) (length components.old.parts)
        untils.now (offer.now ∷ []) components.old.channel_states }
    requires counts { HaveCounts (offer.now ∷ []) outside.old.items }
    requires words { length components.old.words < 2 ^ 32 }
    ensures components { components.new ≡ record components.old {
      channel_states = accepted_with time untils.now components.old.channel_states offer.now;
    } }
    ensures outside { outside.new.items ≡ outside_with time untils.now outside.old.items offer.now }
{
    let number = offer.number as usize;
    if time < untils[number] {
        let accepted = components.channel_states()[number].accepted;
        components.accept(number, accepted + 1);
    } else {
        outside[number] += 1;
    }
}

// Has receivers take as rows say.
pub(crate) fn take(components: &mut Components, takes: &[Taking])
    requires { All (λ one. one.number < length components.old.channel_states) takes.now }
    ensures { components.new ≡ record components.old {
      channel_states = fold taking_with components.old.channel_states takes.now;
    } }
{
    for one in takes {
        take_one(components, one);
    }
}

// Has a receiver take as a row says.
fn take_one(components: &mut Components, take: &Taking)
    requires { take.now.number < length components.old.channel_states }
    ensures { components.new ≡ record components.old {
      channel_states = taking_with components.old.channel_states take.now;
    } }
{
    components.set_pull(take.number as usize, take.pull);
}

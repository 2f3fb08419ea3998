// Logs what the components of a run have done.

ghost use Rattle.std.specs.Prelude.{◌≡◌, ◌≤◌, ◌<◌, ◌+◌, ◌*◌, ◌^◌, ℕ, All, List, count_by};
ghost use Rattle.std.specs.Prelude.{length, nat_lt};
ghost use Rattle.aeth_app.specs.Limits.{max_connections};
ghost use Rattle.aeth_trace.specs.Channels.{channel_number};
ghost use Rattle.aeth_running.specs.Logged.{landed_below, rows_logged, session_logged};
ghost use Rattle.aeth_network.specs.ByNumber.{each_by};
ghost use Rattle.aeth_network.specs.Logging.{channels_by, ended_with, followed_by, gone_by};
ghost use Rattle.aeth_network.specs.Logging.{last_by};
ghost use Rattle.aeth_network.specs.Logging.{with_next, with_logged};

use aeth_components::{ChannelState, Components};
use aeth_report::{ChannelLog, Landing, SessionLog, SimLog};
use aeth_schedule::{SessionStarts, number_of};

// Fills the log of a network, where these channels were replaced as sessions went. What it is given
// to count these, channel by channel, may have any values.
pub(crate) fn log_sessions(
    log: &mut SimLog,
    components: &Components,
    outside: &[u32],
    session_starts: &SessionStarts,
    replaced: &[ChannelState],
    gone: &mut [u32],
)
    requires session_starts { All (λ one. channel_number one.channel < 2 * max_connections)
        session_starts.now }
    requires replaced { length replaced.now ≤ length session_starts.now }
    requires few { length replaced.now < 2 ^ 32 }
    requires noted { All
        (λ channel_state. channel_state.first + channel_state.landed
        ≤ length components.now.landings)
        replaced.now }
    requires channel_states { All
        (λ channel_state. channel_state.first + channel_state.landed
        ≤ length components.now.landings)
        components.now.channel_states }
    requires channels { length log.old.channels ≡ length components.now.channel_states }
    requires outside { length outside.now ≡ length components.now.channel_states }
    requires flits { length log.old.flits ≡ length components.now.flits }
    requires gone { length gone.old ≡ length components.now.channel_states }
    ensures { log.new ≡ record log.old {
      channels = channels_by log.old.cycles components.now.landings session_starts.now replaced.now
          components.now.channel_states outside.now 0 log.old.channels;
      flits = components.now.flits;
    } }
{
    let cycles = log.cycles;
    let landings = components.landings();
    let channel_states = components.channel_states();
    log_followed(
        &mut log.channels,
        gone,
        session_starts,
        replaced,
        landings,
        cycles,
    );
    log_last(
        &mut log.channels,
        gone,
        channel_states,
        outside,
        landings,
        cycles,
    );
    log.flits.copy_from_slice(components.flits());
}

// Logs those sessions that another one of their channel has followed, in one walk, and counts the
// sessions of each channel that have gone.
fn log_followed(
    channels: &mut [ChannelLog],
    gone: &mut [u32],
    session_starts: &SessionStarts,
    replaced: &[ChannelState],
    landings: &[u32],
    cycles: u32,
)
    requires session_starts { All (λ one. channel_number one.channel < 2 * max_connections)
        session_starts.now }
    requires replaced { length replaced.now ≤ length session_starts.now }
    requires few { length replaced.now < 2 ^ 32 }
    requires noted { All
        (λ channel_state. channel_state.first + channel_state.landed ≤ length landings.now)
        replaced.now }
    requires gone { length gone.old ≡ length channels.old }
    ensures channels { channels.new
        ≡ each_by (followed_by cycles landings.now session_starts.now replaced.now) 0 channels.old }
    ensures gone { gone.new ≡ each_by (gone_by session_starts.now replaced.now) 0 gone.old }
{
    gone.fill(0);
    for place in 0..replaced.len() {
        let number = number_of(session_starts.at(place).channel) as usize;
        if number < channels.len() {
            let channel = &mut channels[number];
            log_next(channel, gone[number], &replaced[place], landings, cycles);
            gone[number] += 1;
        }
    }
}

// Logs the last of so many sessions of a channel that have gone, if one has, as one more goes.
fn log_next(
    channel: &mut ChannelLog,
    gone: u32,
    channel_state: &ChannelState,
    landings: &[u32],
    cycles: u32,
)
    requires { channel_state.now.first + channel_state.now.landed ≤ length landings.now }
    ensures { channel.new ≡ record channel.old {
      sessions = with_next cycles landings.now gone channel_state.now channel.old.sessions;
    } }
{
    if gone > 0 {
        let last = gone as usize - 1;
        log_at(&mut channel.sessions, last, channel_state, landings, cycles);
    }
}

// Logs the last session of each channel, of which so many have gone.
fn log_last(
    channels: &mut [ChannelLog],
    gone: &[u32],
    channel_states: &[ChannelState],
    outside: &[u32],
    landings: &[u32],
    cycles: u32,
)
    requires channel_states { All
        (λ channel_state. channel_state.first + channel_state.landed ≤ length landings.now)
        channel_states.now }
    requires channels { length channels.old ≡ length channel_states.now }
    requires outside { length outside.now ≡ length channel_states.now }
    requires gone { length gone.now ≡ length channel_states.now }
    ensures { channels.new
        ≡ each_by (last_by cycles landings.now gone.now channel_states.now outside.now) 0
        channels.old }
{
    for number in 0..channels.len() {
        let channel = &mut channels[number];
        let channel_state = &channel_states[number];
        let outside = outside[number];
        log_channel(
            channel,
            gone[number],
            channel_state,
            outside,
            landings,
            cycles,
        );
    }
}

// Logs the last of so many sessions of a channel, which stands so at last, with so many words
// outside of all of them. Where none has gone, the first is as one that has.
fn log_channel(
    channel: &mut ChannelLog,
    gone: u32,
    channel_state: &ChannelState,
    outside: u32,
    landings: &[u32],
    cycles: u32,
)
    requires { channel_state.now.first + channel_state.now.landed ≤ length landings.now }
    ensures { channel.new
        ≡ ended_with cycles landings.now gone channel_state.now outside channel.old }
{
    let last = gone.saturating_sub(1) as usize;
    log_at(&mut channel.sessions, last, channel_state, landings, cycles);
    channel.sessions.truncate(last + 1);
    channel.outside = outside;
}

// Logs the session at a place, if there is one, whose channel stood so at its end.
fn log_at(
    sessions: &mut [SessionLog],
    place: usize,
    channel_state: &ChannelState,
    landings: &[u32],
    cycles: u32,
)
    requires { channel_state.now.first + channel_state.now.landed ≤ length landings.now }
    ensures { sessions.new ≡ with_logged cycles landings.now place channel_state.now sessions.old }
{
    if place < sessions.len() {
        log_session(&mut sessions[place], channel_state, landings, cycles);
    }
}

// Logs a session whose channel stood so at its end.
fn log_session(
    session: &mut SessionLog,
    channel_state: &ChannelState,
    landings: &[u32],
    cycles: u32,
)
    requires { channel_state.now.first + channel_state.now.landed ≤ length landings.now }
    ensures { session.new ≡ session_logged cycles landings.now session.old channel_state.now }
{
    let landed = landed_below(channel_state, landings, cycles);
    session.landed = landed;
    session.taken = channel_state.taken;
    session.rows.truncate(landed as usize);
    log_rows(&mut session.rows, &landings[channel_state.first as usize..]);
}

// Logs each row when its word landed.
fn log_rows(rows: &mut [Landing], landings: &[u32])
    requires { length rows.old ≤ length landings.now }
    ensures { (cycles : ℕ) (all : List ℕ)
        → rows.new ≡ rows_logged cycles all rows.old landings.now }
{
    for place in 0..rows.len() {
        rows[place].landed = landings[place];
    }
}

// How many words of a channel have landed below the end of a run. What the last cycle latches lands
// behind the run: it was noted, and is not logged.
fn landed_below(channel_state: &ChannelState, landings: &[u32], cycles: u32) -> u32
    requires { channel_state.now.first + channel_state.now.landed ≤ length landings.now }
    ensures count { result ≡ landed_below cycles landings.now channel_state.now }
    ensures most { result ≤ channel_state.now.landed }
{
    let first = channel_state.first as usize;
    count_below(
        &landings[first..first + channel_state.landed as usize],
        cycles,
    )
}

// How many of some cycles lie below another.
fn count_below(landings: &[u32], cycles: u32) -> u32
    requires { length landings.now < 2 ^ 32 }
    ensures { result ≡ count_by (λ at. nat_lt at cycles) landings.now }
{
    let mut count = 0;
    for at in landings {
        if *at < cycles {
            count += 1;
        }
    }
    count
}

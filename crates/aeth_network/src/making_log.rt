// The log of a run before its first cycle: with a row for each word that a session accepts.

ghost use Rattle.std.specs.Prelude.{◌≡◌, ◌<◌, ◌*◌, ◌++◌, ◌∷◌, [], All, IfOk, length, map};
ghost use Rattle.std.specs.List.{range_with_len};
ghost use Rattle.aeth_app.specs.Limits.{max_connections};
ghost use Rattle.aeth_trace.specs.Channels.{channel_number};
ghost use Rattle.aeth_report.specs.Channels.{channels_of};
ghost use Rattle.aeth_running.specs.FirstLog.{first_row, first_session};
ghost use Rattle.aeth_network.specs.ByNumber.{each_by};
ghost use Rattle.aeth_network.specs.Records.{AreOffered, IsFresh, added_by, channel_from, log_from};

use aeth_app::App;
use aeth_base::{Channel, ConnId, NoMemory, Side};
use aeth_chip::Chip;
use aeth_report::{ChannelLog, Landing, SessionLog, SimLog};
use aeth_schedule::{SessionStart, SessionStarts, number_of};
use aeth_server::Due;
use aeth_trace::Words;
use std::alloc::Global;

// The log of a run of which nothing has landed yet.
pub(crate) fn first_log(
    alloc: Global,
    chip: &Chip,
    app: &App,
    words: &Words,
    session_starts: &SessionStarts,
    cycles: u32,
) -> Result<SimLog, NoMemory>
    requires words { AreOffered words.now }
    requires session_starts { All (IsFresh words.now) session_starts.now }
    requires known { All (λ one. channel_number one.channel < 2 * max_connections)
        session_starts.now }
    ensures { IfOk result (λ log.
        log ≡ log_from chip.now app.now words.now cycles session_starts.now) }
{
    let counts = counts_of(alloc, app, session_starts)?;
    let mut channels = first_channels(alloc, app, &counts)?;
    add_sessions(alloc, &mut channels, words, session_starts, cycles)?;
    Ok(SimLog {
        cycles,
        channels,
        flits: vec![in alloc; 0; chip.links() as usize]?,
    })
}

// How many sessions each channel has, by its number.
fn counts_of(alloc: Global, app: &App, session_starts: &SessionStarts) -> Result<Vec<u32>, NoMemory>
    requires { All (λ one. channel_number one.channel < 2 * max_connections) session_starts.now }
    ensures { IfOk result (λ counts. length counts.items ≡ 2 * length app.now.connections) }
{
    let mut counts = vec![in alloc; 0u32; 2 * app.connections() as usize]?;
    for place in 0..session_starts.len() {
        let number = number_of(session_starts.at(place).channel) as usize;
        if number < counts.len() {
            counts[number] = counts[number].saturating_add(1);
        }
    }
    Ok(counts)
}

// The channels of an application, without sessions, and with room for so many.
fn first_channels(alloc: Global, app: &App, counts: &[u32]) -> Result<Vec<ChannelLog>, NoMemory>
    requires { length counts.now ≡ 2 * length app.now.connections }
    ensures { IfOk result (λ channels. channels.items
        ≡ map (channel_from [] 0 []) (channels_of (length app.now.connections))) }
{
    let mut channels = Vec::new(alloc);
    for c in 0..app.connections() {
        let place = 2 * c as usize;
        let fwd = first_channel(alloc, ConnId(c), Side::Fwd, counts[place])?;
        let back = first_channel(alloc, ConnId(c), Side::Back, counts[place + 1])?;
        channels.push(fwd)?;
        channels.push(back)?;
    }
    Ok(channels)
}

// A channel without sessions, and with room for so many.
fn first_channel(
    alloc: Global,
    conn: ConnId,
    side: Side,
    count: u32,
) -> Result<ChannelLog, NoMemory>
    ensures { IfOk result (λ channel. channel
        ≡ channel_from [] 0 [] (record { conn = conn; side = side })) }
{
    Ok(ChannelLog {
        channel: Channel { conn, side },
        sessions: Vec::with_capacity(alloc, count as usize)?,
        outside: 0,
    })
}

// Adds each session to its channel, in one walk.
fn add_sessions(
    alloc: Global,
    channels: &mut [ChannelLog],
    words: &Words,
    session_starts: &SessionStarts,
    cycles: u32,
) -> Result<(), NoMemory>
    requires words { AreOffered words.now }
    requires session_starts { All (IsFresh words.now) session_starts.now }
    requires known { All (λ one. channel_number one.channel < 2 * max_connections)
        session_starts.now }
    ensures { IfOk result (λ done. channels.new
        ≡ each_by (added_by words.now cycles session_starts.now) 0 channels.old) }
{
    for place in 0..session_starts.len() {
        let session_start = session_starts.at(place);
        let number = number_of(session_start.channel) as usize;
        if number < channels.len() {
            add_session(alloc, &mut channels[number], words, &session_start, cycles)?;
        }
    }
    Ok(())
}

// Adds a session to its channel.
fn add_session(
    alloc: Global,
    channel: &mut ChannelLog,
    words: &Words,
    session_start: &SessionStart,
    cycles: u32,
) -> Result<(), NoMemory>
    requires words { AreOffered words.now }
    requires session_start { IsFresh words.now session_start.now }
    ensures { IfOk result (λ done. channel.new ≡ record channel.old {
      sessions = channel.old.sessions ++ first_session words.now cycles session_start.now ∷ [];
    }) }
{
    let session = first_session(alloc, words, session_start, cycles)?;
    channel.sessions.push(session)?;
    Ok(())
}

// A session of which nothing has landed yet.
fn first_session(
    alloc: Global,
    words: &Words,
    session_start: &SessionStart,
    cycles: u32,
) -> Result<SessionLog, NoMemory>
    requires words { AreOffered words.now }
    requires session_start { IsFresh words.now session_start.now }
    ensures { IfOk result (λ session. session ≡ first_session words.now cycles session_start.now) }
{
    Ok(SessionLog {
        go: u64::from(session_start.channel_state.go),
        ended: session_start.channel_state.fin < cycles,
        offered: session_start.count,
        landed: 0,
        taken: 0,
        rows: first_rows(alloc, words, session_start)?,
    })
}

// A row for each of its words, as of which none has landed.
fn first_rows(
    alloc: Global,
    words: &Words,
    session_start: &SessionStart,
) -> Result<Vec<Landing>, NoMemory>
    requires words { AreOffered words.now }
    requires session_start { IsFresh words.now session_start.now }
    ensures { IfOk result (λ rows. rows.items
        ≡ map (first_row words.now session_start.now) (range_with_len 0 session_start.now.count)) }
{
    let mut rows = Vec::with_capacity(alloc, session_start.count as usize)?;
    let mut due = Due::new(&session_start.shape);
    for place in 0..session_start.count {
        let word = words.nth_word(
            session_start.channel,
            session_start.before as usize + place as usize,
        );
        rows.push(Landing {
            offered: word.cycle,
            landed: 0,
            due: due.step(u64::from(word.cycle)),
            value: word.value,
        })?;
    }
    Ok(rows)
}

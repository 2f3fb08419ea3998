// Printing a log.
ghost use Rattle.aeth_report.specs.LogText.{channel_lines, landing_line, lines_named, link_line};
ghost use Rattle.aeth_report.specs.LogText.{session_lines, text_of};
ghost use Rattle.aeth_report.specs.Regular.{IsOrdered, IsRegular};
ghost use Rattle.aeth_text.specs.Spelling.{text_of_lines};
ghost use Rattle.std.specs.Prelude.{◌≡◌, ◌<◌, ◌++◌, All, IfOk, OnErr, OnOk, flat_map, length, map, take};
ghost use Rattle.std.specs.List.{enumerate_from};

use crate::lines::{
    push_dropped, push_head, push_landing, push_link, push_outside, push_session_line,
};
use crate::log::{ChannelLog, Landing, SessionLog, SimLog};
use aeth_app::App;
use aeth_base::{NoMemory, Side};
use std::alloc::Global;

/// Appends the lines of landings, numbered from 1. Where memory is wanting, all that stood there still does, at
/// the front.
pub fn push_landings(out: &mut Vec<u8>, rows: &[Landing]) -> Result<(), NoMemory>
    ensures ok { OnOk result (out.new.items
        ≡ out.old.items ++ text_of_lines (map landing_line (enumerate_from 1 rows.now))) }
    ensures err { OnErr result (take (length out.old.items) out.new.items ≡ out.old.items) }
{
    let mut index = 0_u64;
    for row in rows {
        index += 1;
        push_landing(out, index, row)?;
    }
    Ok(())
}

// Appends a session.
fn push_session(
    out: &mut Vec<u8>,
    name: &[u8],
    side: Side,
    session: &SessionLog,
) -> Result<(), NoMemory>
    requires { IsOrdered session.now }
    ensures { OnOk result (out.new.items
        ≡ out.old.items ++ text_of_lines (session_lines name.now side session.now)) }
{
    push_session_line(out, name, side, session)?;
    push_landings(out, &session.rows)?;
    push_dropped(out, session)
}

// Appends sessions.
fn push_sessions(
    out: &mut Vec<u8>,
    name: &[u8],
    side: Side,
    sessions: &[SessionLog],
) -> Result<(), NoMemory>
    requires { All IsOrdered sessions.now }
    ensures { OnOk result (out.new.items
        ≡ out.old.items ++ text_of_lines (flat_map (session_lines name.now side) sessions.now)) }
{
    for session in sessions {
        push_session(out, name, side, session)?;
    }
    Ok(())
}

// Appends a channel whose connection has this name.
fn push_named(out: &mut Vec<u8>, name: &[u8], one: &ChannelLog) -> Result<(), NoMemory>
    requires { All IsOrdered one.now.sessions }
    ensures { OnOk result (out.new.items
        ≡ out.old.items ++ text_of_lines (lines_named name.now one.now)) }
{
    push_sessions(out, name, one.channel.side, &one.sessions)?;
    push_outside(out, name, one.channel.side, one.outside)
}

// Appends channels.
fn push_channels(out: &mut Vec<u8>, app: &App, channels: &[ChannelLog]) -> Result<(), NoMemory>
    requires known { All (λ one. one.channel.conn.0 < length app.now.connections) channels.now }
    requires ordered { All (λ one. All IsOrdered one.sessions) channels.now }
    ensures { OnOk result (out.new.items
        ≡ out.old.items ++ text_of_lines (flat_map (channel_lines app.now) channels.now)) }
{
    for one in channels {
        let connection = app.connection(one.channel.conn);
        push_named(out, connection.name.as_bytes(), one)?;
    }
    Ok(())
}

// Appends the lines of links, numbered from 0.
fn push_links(out: &mut Vec<u8>, flits: &[u32]) -> Result<(), NoMemory>
    ensures { OnOk result (out.new.items
        ≡ out.old.items ++ text_of_lines (map link_line (enumerate_from 0 flits.now))) }
{
    let mut link = 0_u64;
    for count in flits {
        push_link(out, link, *count)?;
        link += 1;
    }
    Ok(())
}

/// The text of a log that is regular for an application: a line for the run, then the sessions of
/// each channel with their landings, then a line for each link. It takes time in proportion to the
/// text. `Err` where there was no memory.
#[tactic(auto, unfolding(crate::specs::LogText::text_of))]
pub fn sim_text(alloc: Global, log: &SimLog, app: &App) -> Result<Vec<u8>, NoMemory>
    requires { IsRegular app.now log.now }
    ensures { IfOk result (λ text. text.items ≡ text_of app.now log.now) }
{
    let mut out = Vec::new(alloc);
    push_head(&mut out, log.cycles)?;
    push_channels(&mut out, app, &log.channels)?;
    push_links(&mut out, &log.flits)?;
    out.extend_from_slice(b"end\n")?;
    Ok(out)
}

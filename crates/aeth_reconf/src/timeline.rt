// The sessions of each connection.
ghost use Rattle.aeth_group.specs.Members.{groups_of};
ghost use Rattle.aeth_reconf.specs.Timeline.{begun, closed_of, rest_of, sessions_at, timeline_of};
ghost use Rattle.aeth_report.specs.Sessions.{sessions_of};
ghost use Rattle.aeth_trace.specs.declared.switches.SwitchRow.{SwitchRow};
ghost use Rattle.std.specs.Prelude.{◌≡◌, ◌<◌, ◌++◌, ◌∷◌, List, All, IfOk, OnOk, length};

use crate::times::{close_by, go_by};
use aeth_app::App;
use aeth_base::{Channel, ConnId, NoMemory, UseId};
use aeth_group::Groups;
use aeth_report::Session;
use aeth_trace::{Spans, SwitchRow, Switches};
use std::alloc::Global;
use std::marker::Model;

// The sessions of one connection, in their order.
#[derive(Drop)]
struct ConnectionSessions {
    list: Vec<Session>,
}

impl Model for ConnectionSessions {
    ghost use Rattle.std.specs.Prelude.{List};
    ghost use Rattle.aeth_report.specs.declared.session.Session.{Session};

    ghost Value = { List Session };

    ghost view = { λ sessions. sessions.list.items };
}

/// The sessions of each connection over a list of switches. They are seen as a list of sessions for
/// each connection.
#[derive(Drop)]
pub struct Timeline {
    connections: Vec<ConnectionSessions>,
}

impl Model for Timeline {
    ghost use Rattle.std.specs.Prelude.{List};
    ghost use Rattle.aeth_report.specs.declared.session.Session.{Session};

    ghost Value = { List (List Session) };

    ghost view = { λ timeline. timeline.connections.items };
}

impl Timeline {
    /// The sessions of an application's connections over switches that take so long. It takes a step
    /// for each connection and switch. `Err` where there was no memory.
    pub fn of(
        alloc: Global,
        app: &App,
        groups: &Groups,
        switches: &Switches,
        spans: &Spans,
    ) -> Result<Timeline, NoMemory>
        requires groups { groups.now ≡ groups_of app.now }
        requires spans { spans.now.uses ≡ length app.now.uses }
        requires known { All (λ row. row.to.0 < length app.now.uses) switches.now }
        ensures { IfOk result (λ timeline. timeline
            ≡ timeline_of groups.now spans.now switches.now) }
    {
        let mut connections = Vec::new(alloc);
        for c in 0..app.connections() {
            let list = sessions_over(alloc, groups, spans, ConnId(c), switches.rows())?;
            connections.push(ConnectionSessions { list })?;
        }
        Ok(Timeline { connections })
    }

    /// The sessions of a channel, which are those of its connection, in their order.
    pub fn sessions(&self, channel: Channel) -> &[Session]
        ensures { result.now ≡ sessions_at self.now channel.conn.0 }
    {
        match self.connections.get(channel.conn.0 as usize) {
            None => &[],
            Some(one) => &one.list,
        }
    }
}

// The sessions of a connection.
fn sessions_over(
    alloc: Global,
    groups: &Groups,
    spans: &Spans,
    conn: ConnId,
    rows: &[SwitchRow],
) -> Result<Vec<Session>, NoMemory>
    requires spans { spans.now.uses ≡ length groups.now.uses }
    requires known { All (λ row. row.to.0 < length groups.now.uses) rows.now }
    ensures { IfOk result (λ sessions. sessions.items
        ≡ sessions_of groups.now spans.now conn.0 rows.now) }
{
    let mut sessions = Vec::new(alloc);
    if let [first, later @ ..] = rows {
        let current = begun(groups, conn, first.to, 0);
        let one = OneConnection {
            groups,
            spans,
            conn,
        };
        push_rest(&mut sessions, &one, first.to, later, current)?;
    }
    Ok(sessions)
}

// One connection, whose sessions are told, and what switches do to it.
#[derive(Clone, Copy)]
struct OneConnection<'a> {
    groups: &'a Groups,
    spans: &'a Spans,
    conn: ConnId,
}

// Appends what is still to come of a connection's sessions: the one that is open, and those that rows
// open, the first of which leaves this use case.
fn push_rest(
    sessions: &mut Vec<Session>,
    one: &OneConnection<'_>,
    first: UseId,
    rows: &[SwitchRow],
    current: Option<Session>,
) -> Result<(), NoMemory>
    requires spans { one.now.spans.now.uses ≡ length one.now.groups.now.uses }
    requires first { first.0 < length one.now.groups.now.uses }
    requires known { All (λ row. row.to.0 < length one.now.groups.now.uses) rows.now }
    ensures { OnOk result (sessions.new.items ≡ sessions.old.items
        ++ rest_of one.now.groups.now one.now.spans.now one.now.conn.0 current first.0 rows.now) }
{
    let mut from = first;
    let mut current = current;
    for row in rows {
        current = pass(sessions, one, from, row, current)?;
        from = row.to;
    }
    if let Some(session) = current {
        sessions.push(Session {
            go: session.go,
            group: session.group,
            close: None,
        })?;
    }
    Ok(())
}

// A connection's open session behind one more switch, which leaves this use case. A session that the
// switch closes is put behind the others.
fn pass(
    sessions: &mut Vec<Session>,
    one: &OneConnection<'_>,
    from: UseId,
    row: &SwitchRow,
    current: Option<Session>,
) -> Result<Option<Session>, NoMemory>
    requires spans { one.now.spans.now.uses ≡ length one.now.groups.now.uses }
    requires from { from.0 < length one.now.groups.now.uses }
    requires to { row.now.to.0 < length one.now.groups.now.uses }
    ensures { IfOk result (λ behind. (rows : List SwitchRow) → sessions.new.items
        ++ rest_of one.now.groups.now one.now.spans.now one.now.conn.0 behind row.now.to.0 rows
        ≡ sessions.old.items
        ++ rest_of one.now.groups.now one.now.spans.now one.now.conn.0 current from.0 (row.now ∷ rows)) }
{
    if one.groups.kept(from, row.to, one.conn) {
        return Ok(current);
    }
    push_closed(sessions, one.spans, from, row, current)?;
    let go = go_by(one.spans, from, row);
    Ok(begun(one.groups, one.conn, row.to, go))
}

// Appends the open session, which a switch closes.
fn push_closed(
    sessions: &mut Vec<Session>,
    spans: &Spans,
    from: UseId,
    row: &SwitchRow,
    current: Option<Session>,
) -> Result<(), NoMemory>
    requires from { from.0 < spans.now.uses }
    requires to { row.now.to.0 < spans.now.uses }
    ensures { OnOk result (sessions.new.items ≡ sessions.old.items
        ++ closed_of spans.now (record { leaves = from.0; row = row.now }) current) }
{
    if let Some(session) = current {
        sessions.push(Session {
            go: session.go,
            group: session.group,
            close: Some(close_by(spans, from, row)),
        })?;
    }
    Ok(())
}

// The session that begins with a use case in a cycle, where the use case has the connection.
fn begun(groups: &Groups, conn: ConnId, to: UseId, go: u64) -> Option<Session>
    requires { to.0 < length groups.now.uses }
    ensures { result ≡ begun groups.now conn.0 to.0 go }
{
    if !groups.has(to, conn) {
        return None;
    }
    Some(Session {
        go,
        group: groups.group_of(to),
        close: None,
    })
}

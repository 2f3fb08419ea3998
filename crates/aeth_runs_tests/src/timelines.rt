// What no clause says: that timelines are made where memory is left, and when sessions begin and end.
ghost use Rattle.aeth_group.specs.Members.{groups_of};
ghost use Rattle.std.specs.Prelude.{◌≡◌, IfSome, length};

use crate::designs::{PAIR, THREE};
use aeth_app::{App, read_app};
use aeth_base::{Channel, ConnId, Side};
use aeth_chip::{Chip, read_chip};
use aeth_group::Groups;
use aeth_reconf::{Session, Timeline};
use aeth_trace::{Spans, read_switches};
use std::alloc::Global;
use std::test::*;

// The lag and the writes of each switch between the use cases, in the order of the one that is left
// and of the one that is entered.
static SPANS: [(u32, u32); 9] = [
    (0, 0),
    (0, 4),
    (3, 9),
    (3, 4),
    (0, 0),
    (3, 5),
    (3, 9),
    (0, 5),
    (0, 0),
];

// The first connection is kept by the switches in cycles 10 and 20, and closed by that in cycle 30,
// which drains for 5 cycles. The second is closed, opened anew, and kept.
const SWITCHES: &str = "cycle,use,drain\n0,u1,0\n10,u0,0\n20,u1,0\n30,u2,5\n";

// The spans of three use cases.
fn spans_of_three(alloc: Global) -> Option<Spans>
    ensures { IfSome result (λ spans. spans.uses ≡ 3) }
{
    match Vec::from_array(alloc, SPANS) {
        Ok(pairs) => Some(Spans::new(3, pairs)),
        Err(_) => None,
    }
}

// The timeline of the switches, with the groups and the spans of the application.
fn timeline_of(alloc: Global, app: &App, groups: &Groups, spans: &Spans) -> Option<Timeline>
    requires groups { groups.now ≡ groups_of app.now }
    requires spans { spans.now.uses ≡ length app.now.uses }
{
    match read_switches(alloc, SWITCHES.as_bytes(), app, spans) {
        Ok(switches) => Timeline::of(alloc, app, groups, &switches, spans).ok(),
        Err(_) => None,
    }
}

// The same, with its spans.
fn timeline_with(alloc: Global, app: &App, spans: &Spans) -> Option<Timeline>
    requires { spans.now.uses ≡ length app.now.uses }
{
    match Groups::of(alloc, app) {
        Ok(groups) => timeline_of(alloc, app, &groups, spans),
        Err(_) => None,
    }
}

// The timeline of the switches for an application of three use cases.
fn timeline_of_three(alloc: Global, app: &App) -> Option<Timeline> {
    if app.uses() != 3 {
        return None;
    }
    match spans_of_three(alloc) {
        Some(spans) => timeline_with(alloc, app, &spans),
        None => None,
    }
}

// The timeline of the switches on a chip.
fn timeline_on(alloc: Global, chip: &Chip) -> Option<Timeline> {
    match read_app(alloc, THREE.as_bytes(), chip) {
        Ok(app) => timeline_of_three(alloc, &app),
        Err(_) => None,
    }
}

// The timeline of the switches.
fn timeline(alloc: Global) -> Option<Timeline> {
    let chip = read_chip(alloc, PAIR.as_bytes()).ok()?;
    timeline_on(alloc, &chip)
}

// A session of group 0: when it goes, and how it closes where a switch closes it.
type Told = (u64, Option<(u64, u64, u64)>);

fn is_session(session: &Session, told: Told) -> bool {
    let close = match session.close {
        Some(close) => Some((close.until, close.stop, close.fin)),
        None => None,
    };
    session.group.0 == 0 && session.go == told.0 && close == told.1
}

fn are_sessions(sessions: &[Session], told: &[Told]) -> bool {
    if sessions.len() != told.len() {
        return false;
    }
    for place in 0..sessions.len() {
        if !is_session(&sessions[place], told[place]) {
            return false;
        }
    }
    true
}

// A connection that is kept twice and then closed, and one that is closed and opened anew behind the
// writes.
static SESSIONS: [(u32, Side, &[Told]); 3] = [
    (0, Side::Fwd, &[(0, Some((30, 35, 38)))]),
    (0, Side::Back, &[(0, Some((30, 35, 38)))]),
    (1, Side::Fwd, &[(0, Some((10, 10, 13))), (24, None)]),
];

// The first connection that has other sessions.
fn first_other_connection(timeline: &Timeline) -> Option<u32> {
    for &(conn, side, told) in &SESSIONS {
        let channel = Channel {
            conn: ConnId(conn),
            side,
        };
        if !are_sessions(timeline.sessions(channel), told) {
            return Some(conn);
        }
    }
    None
}

#[test]
fn connections_are_kept_and_closed_and_opened_anew(rt: HostRuntime) -> Result<(), Fail> {
    let timeline = timeline(rt.alloc()).ok_or("a timeline")?;
    assert_eq!(rt; first_other_connection(&timeline), None);
    Ok(())
}

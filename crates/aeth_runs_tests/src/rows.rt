// The rows of files of words, of receivers and of switches, as they are read.
ghost use Rattle.std.specs.Prelude.{◌≡◌, IfSome, length};

use crate::two::two;
use aeth_app::App;
use aeth_base::{Channel, Side};
use aeth_trace::{PullRow, Spans, SwitchRow, WordRow, read_receivers, read_switches, read_words};
use std::alloc::Global;
use std::test::*;

// A row of a channel: its connection, its side, its cycle, and its value or pull.
type OfChannel = (u32, Side, u32, u32);

// A row of switches: its cycle, its use case, and its drain.
type OfSwitch = (u32, u32, u32);

// Files of words, and what their rows say.
static WORDS: [(&str, &[OfChannel]); 2] = [
    (
        "connection,side,cycle,value\nc0,fwd,0,0\nc1,back,0,4294967295\nc0,fwd,1000000,7\n",
        &[
            (0, Side::Fwd, 0, 0),
            (1, Side::Back, 0, 4_294_967_295),
            (0, Side::Fwd, 1_000_000, 7),
        ],
    ),
    (
        "connection,side,cycle,value\nc0,fwd,0,7\nc1,back,0,4294967295\nc0,fwd,1000000,8\n",
        &[
            (0, Side::Fwd, 0, 7),
            (1, Side::Back, 0, 4_294_967_295),
            (0, Side::Fwd, 1_000_000, 8),
        ],
    ),
];

// The same of receivers.
static RECEIVERS: [(&str, &[OfChannel]); 1] = [(
    "connection,side,cycle,pull\nc1,back,3,255\nc0,fwd,3,0\n",
    &[(1, Side::Back, 3, 255), (0, Side::Fwd, 3, 0)],
)];

// The same of switches, which are apart by as little as may be.
static SWITCHES: [(&str, &[OfSwitch]); 3] = [
    (
        "cycle,use,drain\n0,u0,0\n6,u1,0\n30,u0,0\n37,u1,0\n",
        &[(0, 0, 0), (6, 1, 0), (30, 0, 0), (37, 1, 0)],
    ),
    (
        "cycle,use,drain\n0,u0,0\n6,u1,5\n15,u0,0\n",
        &[(0, 0, 0), (6, 1, 5), (15, 0, 0)],
    ),
    (
        "cycle,use,drain\n0,u1,0\n0,u0,0\n7,u1,1000000\n",
        &[(0, 1, 0), (0, 0, 0), (7, 1, 1_000_000)],
    ),
];

fn is_of_channel(channel: Channel, cycle: u32, number: u32, told: OfChannel) -> bool {
    channel.conn.0 == told.0 && channel.side == told.1 && cycle == told.2 && number == told.3
}

fn are_words(rows: &[WordRow], told: &[OfChannel]) -> bool {
    if rows.len() != told.len() {
        return false;
    }
    for place in 0..rows.len() {
        let row = rows[place];
        if !is_of_channel(row.channel, row.cycle, row.value, told[place]) {
            return false;
        }
    }
    true
}

fn are_pulls(rows: &[PullRow], told: &[OfChannel]) -> bool {
    if rows.len() != told.len() {
        return false;
    }
    for place in 0..rows.len() {
        let row = rows[place];
        if !is_of_channel(row.channel, row.cycle, row.pull, told[place]) {
            return false;
        }
    }
    true
}

fn are_switches(rows: &[SwitchRow], told: &[OfSwitch]) -> bool {
    if rows.len() != told.len() {
        return false;
    }
    for place in 0..rows.len() {
        let row = rows[place];
        if (row.cycle, row.to.0, row.drain) != told[place] {
            return false;
        }
    }
    true
}

fn tells_words(alloc: Global, app: &App, file: &str, told: &[OfChannel]) -> bool {
    match read_words(alloc, file.as_bytes(), app) {
        Ok(words) => are_words(words.rows(), told),
        Err(_) => false,
    }
}

fn tells_pulls(alloc: Global, app: &App, file: &str, told: &[OfChannel]) -> bool {
    match read_receivers(alloc, file.as_bytes(), app) {
        Ok(receivers) => are_pulls(receivers.rows(), told),
        Err(_) => false,
    }
}

fn tells_switches(alloc: Global, app: &App, spans: &Spans, file: &str, told: &[OfSwitch]) -> bool
    requires { spans.now.uses ≡ length app.now.uses }
{
    match read_switches(alloc, file.as_bytes(), app, spans) {
        Ok(switches) => are_switches(switches.rows(), told),
        Err(_) => false,
    }
}

// The first file that has other words or pulls.
fn first_other_of_channels(alloc: Global, app: &App) -> Option<&'static str> {
    for &(file, told) in &WORDS {
        if !tells_words(alloc, app, file, told) {
            return Some(file);
        }
    }
    for &(file, told) in &RECEIVERS {
        if !tells_pulls(alloc, app, file, told) {
            return Some(file);
        }
    }
    None
}

// The first file that has other switches.
fn first_other_of_switches(alloc: Global, app: &App, spans: &Spans) -> Option<&'static str>
    requires { spans.now.uses ≡ length app.now.uses }
{
    for &(file, told) in &SWITCHES {
        if !tells_switches(alloc, app, spans, file, told) {
            return Some(file);
        }
    }
    None
}

// What the switches take: `c1` opens by 4 writes, and closes by 4 writes after 3 cycles.
fn spans_of_two(alloc: Global) -> Option<Spans>
    ensures { IfSome result (λ spans. spans.uses ≡ 2) }
{
    match Vec::from_array(alloc, [(0, 0), (0, 4), (3, 4), (0, 0)]) {
        Ok(pairs) => Some(Spans::new(2, pairs)),
        Err(_) => None,
    }
}

// The first file that has other rows.
fn first_other(alloc: Global, app: &App) -> Option<&'static str> {
    let Some(spans) = spans_of_two(alloc) else {
        return Some("spans");
    };
    if app.uses() != 2 {
        return Some("uses");
    }
    match first_other_of_channels(alloc, app) {
        Some(file) => Some(file),
        None => first_other_of_switches(alloc, app, &spans),
    }
}

#[test]
fn rows_are_read_as_they_stand(rt: HostRuntime) -> Result<(), Fail> {
    let app = two(rt.alloc())?;
    assert_eq!(rt; first_other(rt.alloc(), &app), None);
    Ok(())
}

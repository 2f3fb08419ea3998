// Runs of channels by themselves: the cycles in which words are sent, land and are due, worked by hand.
ghost use Rattle.std.specs.Prelude.{◌≤◌, length};
ghost use Rattle.aeth_server.specs.ChannelShape.{IsShapeInRange};

use crate::server::{Channel, DELAYED, FARTHEST, NEAREST, RAREST, SINGLE, SPREAD, shape_of};
use aeth_server::{Alone, ChannelShape, Due};

// A run of a channel: its buffer, the cycles in which words are offered, how many words the receiver
// takes at most in a cycle, the cycle from which on nothing is sent, how many cycles there are, the
// cycles in which words are sent, those in which they land, and those in which they are due.
#[derive(Clone, Copy)]
struct Run {
    name: &'static str,
    channel: Channel,
    buffer: u32,
    offers: &'static [u64],
    pull: u32,
    stop: u64,
    cycles: u64,
    sends: &'static [u64],
    landings: &'static [u64],
    due: &'static [u64],
}

static RUNS: [Run; 8] = [
    Run {
        name: "five words at once",
        channel: SPREAD,
        buffer: 9,
        offers: &[1, 1, 1, 1, 1],
        pull: 2,
        stop: 20,
        cycles: 20,
        sends: &[4, 4, 8, 8, 12],
        landings: &[7, 7, 11, 11, 15],
        due: &[7, 9, 11, 13, 15],
    },
    Run {
        name: "on a link with a delay",
        channel: DELAYED,
        buffer: 9,
        offers: &[1, 1, 1, 1, 1],
        pull: 2,
        stop: 20,
        cycles: 20,
        sends: &[2, 2, 5, 5, 8],
        landings: &[6, 6, 9, 9, 12],
        due: &[7, 9, 11, 13, 15],
    },
    Run {
        name: "a receiver that takes nothing",
        channel: SPREAD,
        buffer: 9,
        offers: &[1, 1, 1, 1, 1, 1, 1, 1, 1, 1, 1, 1],
        pull: 0,
        stop: 30,
        cycles: 30,
        sends: &[4, 4, 8, 8, 12, 12, 16, 16, 20],
        landings: &[7, 7, 11, 11, 15, 15, 19, 19, 23],
        due: &[7, 9, 11, 13, 15, 17, 19, 21, 23, 25, 27, 29],
    },
    Run {
        name: "a receiver that takes two words",
        channel: SPREAD,
        buffer: 9,
        offers: &[1, 1, 1, 1, 1, 1, 1, 1, 1, 1, 1, 1],
        pull: 2,
        stop: 30,
        cycles: 30,
        sends: &[4, 4, 8, 8, 12, 12, 16, 16, 20, 20, 24, 24],
        landings: &[7, 7, 11, 11, 15, 15, 19, 19, 23, 23, 27, 27],
        due: &[7, 9, 11, 13, 15, 17, 19, 21, 23, 25, 27, 29],
    },
    Run {
        name: "a word past the stop",
        channel: SINGLE,
        buffer: 6,
        offers: &[0, 2],
        pull: 0,
        stop: 3,
        cycles: 12,
        sends: &[1],
        landings: &[4],
        due: &[10, 14],
    },
    Run {
        name: "credits on the shortest paths",
        channel: NEAREST,
        buffer: 2,
        offers: &[0, 0, 0, 0, 0],
        pull: 2,
        stop: 20,
        cycles: 20,
        sends: &[0, 0, 5, 5, 10],
        landings: &[2, 2, 7, 7, 12],
        due: &[3, 3, 4, 4, 5],
    },
    Run {
        name: "credits on the longest paths",
        channel: FARTHEST,
        buffer: 2,
        offers: &[0, 0, 0, 0, 0],
        pull: 2,
        stop: 200,
        cycles: 200,
        sends: &[0, 0, 65, 65, 130],
        landings: &[32, 32, 97, 97, 162],
        due: &[33, 33, 34, 34, 35],
    },
    Run {
        name: "one slot of the largest table",
        channel: RAREST,
        buffer: 5,
        offers: &[0, 0, 0],
        pull: 2,
        stop: 260,
        cycles: 260,
        sends: &[127, 127, 255],
        landings: &[129, 129, 257],
        due: &[129, 193, 257],
    },
];

// How many of these are the cycle.
fn times(cycles: &[u64], t: u64) -> usize
    ensures { result ≤ length cycles.now }
{
    let mut count = 0;
    for cycle in cycles {
        if *cycle == t {
            count += 1;
        }
    }
    count
}

// Whether words are sent and land in the cycles of a run, and in no others.
fn goes(run: &Run, shape: &ChannelShape) -> bool
    requires { IsShapeInRange shape.now }
{
    if run.buffer > 65535 || run.cycles > 1000 {
        return false;
    }
    if run.offers.len() > 100 || run.sends.len() > 100 || run.landings.len() > 100 {
        return false;
    }
    let mut alone = Alone::new(shape, run.buffer);
    let mut sent = 0;
    let mut landed = 0;
    for t in 0..run.cycles {
        let words = times(run.offers, t) as u32;
        let step = alone.cycle(t, words, run.pull, t < run.stop);
        sent += times(run.sends, t);
        landed += times(run.landings, t);
        if step.sent as usize != sent || step.landed as usize != landed {
            return false;
        }
    }
    true
}

// Whether words are due in the cycles of a run, one after the other.
fn is_due(run: &Run, shape: &ChannelShape) -> bool
    requires { IsShapeInRange shape.now }
{
    if run.offers.len() > 100 {
        return false;
    }
    let mut due = Due::new(shape);
    for i in 0..run.offers.len() {
        if run.offers[i] > 1_000_000 || run.due.get(i) != Some(&due.step(run.offers[i])) {
            return false;
        }
    }
    true
}

// Whether a run is as its channel by itself.
fn holds(run: &Run) -> bool {
    match shape_of(&run.channel) {
        Some(shape) => goes(run, &shape) && is_due(run, &shape),
        None => false,
    }
}

// The name of the first run that isn't so.
fn first_other_run() -> Option<&'static str> {
    for run in &RUNS {
        if !holds(run) {
            return Some(run.name);
        }
    }
    None
}

#[test]
fn words_are_sent_land_and_are_due(rt: HostRuntime) {
    assert_eq!(rt; first_other_run(), None);
}

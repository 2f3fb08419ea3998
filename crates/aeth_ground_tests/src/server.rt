// Channels by themselves: their round trips, buffers and finish times, worked by hand.
ghost use Rattle.std.specs.Prelude.{◌≡◌, IfSome};
ghost use Rattle.aeth_server.specs.ChannelShape.{IsShapeInRange, shape_of};
ghost use Rattle.aeth_server.specs.Shape.{round_trip};

use crate::slot_set::set_of;
use aeth_server::{ChannelShape, buffer, deadline, latency};

// A channel: its table, its need, its slots and the delay of its path, the slots and the delay of the
// opposite channel, and the delay of its receiver.
#[derive(Clone, Copy)]
pub(crate) struct Channel {
    size: u32,
    need: u32,
    slots: &'static [u32],
    path: u32,
    back: &'static [u32],
    back_path: u32,
    delay: u32,
}

pub(crate) const SPREAD: Channel = Channel {
    size: 8,
    need: 2,
    slots: &[0, 4],
    path: 3,
    back: &[2],
    back_path: 3,
    delay: 0,
};

pub(crate) const SINGLE: Channel = Channel {
    size: 8,
    need: 1,
    slots: &[1],
    path: 3,
    back: &[1],
    back_path: 3,
    delay: 0,
};

pub(crate) const DELAYED: Channel = Channel {
    size: 8,
    need: 2,
    slots: &[0, 2, 5],
    path: 4,
    back: &[0],
    back_path: 3,
    delay: 0,
};

const ANSWERING: Channel = Channel {
    size: 8,
    need: 1,
    slots: &[0],
    path: 3,
    back: &[0, 2, 5],
    back_path: 4,
    delay: 0,
};

pub(crate) const NEAREST: Channel = Channel {
    size: 1,
    need: 1,
    slots: &[0],
    path: 2,
    back: &[0],
    back_path: 2,
    delay: 0,
};

pub(crate) const FARTHEST: Channel = Channel {
    size: 1,
    need: 1,
    slots: &[0],
    path: 32,
    back: &[0],
    back_path: 32,
    delay: 4096,
};

pub(crate) const RAREST: Channel = Channel {
    size: 128,
    need: 1,
    slots: &[127],
    path: 2,
    back: &[0],
    back_path: 32,
    delay: 0,
};

// The shape of a channel, where its numbers are in their ranges and its slots suffice.
pub(crate) fn shape_of(channel: &Channel) -> Option<ChannelShape>
    ensures { IfSome result IsShapeInRange }
{
    if channel.size < 1 || channel.size > 128 || channel.need < 1 || channel.delay > 4096 {
        return None;
    }
    if channel.path < 2 || channel.path > 32 || channel.back_path < 2 || channel.back_path > 32 {
        return None;
    }
    let slots = set_of(channel.size, channel.slots);
    let back = set_of(channel.size, channel.back);
    let credits = 15 * u64::from(back.count());
    if channel.need > slots.count() || 2 * u64::from(channel.need) > credits {
        return None;
    }
    Some(ChannelShape {
        slots,
        links: channel.path,
        delay: channel.delay,
        need: channel.need,
        back,
        back_links: channel.back_path,
    })
}

// A channel, its latency with the path, its round trip, and its buffer in words.
static BUFFERS: [(Channel, u32, u32, u32); 7] = [
    (SPREAD, 4, 13, 9),
    (SINGLE, 6, 13, 6),
    (DELAYED, 4, 13, 9),
    (ANSWERING, 6, 11, 5),
    (NEAREST, 2, 5, 12),
    (FARTHEST, 32, 4161, 8324),
    (RAREST, 65, 161, 5),
];

// The round trip of a word and its credit, in cycles.
fn round_trip(shape: &ChannelShape) -> u32
    requires { IsShapeInRange shape.now }
    ensures { result ≡ round_trip (shape_of shape.now) }
{
    let credits = latency(&shape.back, 15, shape.rate());
    shape.latency() + shape.delay + 1 + credits + shape.back_links
}

// The latency, the round trip and the buffer of a channel.
fn numbers_of(channel: &Channel) -> Option<(u32, u32, u32)> {
    match shape_of(channel) {
        Some(shape) => Some((shape.latency(), round_trip(&shape), buffer(&shape))),
        None => None,
    }
}

// The latency, the round trip and the buffer of the first channel that has others.
fn first_other_buffer() -> Option<(u32, u32, u32)> {
    for &(channel, latency, trip, words) in &BUFFERS {
        if numbers_of(&channel) != Some((latency, trip, words)) {
            return Some((latency, trip, words));
        }
    }
    None
}

#[test]
fn buffers_hold_a_round_trip(rt: HostRuntime) {
    assert_eq!(rt; first_other_buffer(), None);
}

// A number of words, and the finish time of the last of them.
static FINISHES: [(usize, u128); 5] = [(0, 0), (1, 28), (2, 36), (4, 52), (5, 60)];

// The first number of words with another finish time.
fn first_other_finish(shape: &ChannelShape) -> Option<usize>
    requires { IsShapeInRange shape.now }
{
    let offers = [1, 1, 1, 1, 9];
    for &(count, finish) in &FINISHES {
        if deadline(shape, &offers, count) != finish {
            return Some(count);
        }
    }
    None
}

#[test]
fn finish_times_are_in_words_per_table(rt: HostRuntime) {
    let shape = shape_of(&SPREAD).expect(&rt, "a shape");
    assert_eq!(rt; first_other_finish(&shape), None);
}

// What a channel is granted and asks for.
ghost use Rattle.std.specs.Prelude.{◌≡◌, ◌+◌, ◌*◌, ◌≤◌};
ghost use Rattle.aeth_base.specs.Limits.{max_path_delay, max_queue_words, max_slots};
ghost use Rattle.aeth_base.specs.Limits.{words_per_flit};
ghost use Rattle.aeth_server.specs.ChannelShape.{IsShapeInRange, shape_of};
ghost use Rattle.aeth_server.specs.Shape.{buffer_of, channel_latency};

use crate::service_latency::latency;
use aeth_base::{CREDITS_PER_FLIT, WORDS_PER_FLIT};
use aeth_slots::SlotSet;

/// What one channel is granted and asks for. Both slot sets have one table size.
#[derive(Clone, Copy)]
pub struct ChannelShape {
    /// The starts that are granted to it: at least as many as it needs.
    pub slots: SlotSet,
    /// The delay of its path in cycles, 2 to 32; as many as links where each has a delay of one.
    pub links: u32,
    /// The delay that its receiver declares, in cycles: how long after its landing a word is taken at
    /// the latest; at most 4,096.
    pub delay: u32,
    /// The flits that it needs, each time that the table comes round: at least one.
    pub need: u32,
    /// The starts of the opposite channel of its connection, which carries its credits: enough for
    /// the need.
    pub back: SlotSet,
    /// The delay of the opposite channel's path in cycles, 2 to 32.
    pub back_links: u32,
}

impl ChannelShape {
    /// The table size, in slots.
    pub fn size(&self) -> u32
        requires { IsShapeInRange self.now }
        ensures size { result ≡ (shape_of self.now).size }
        ensures least { 1 ≤ result }
        ensures most { result ≤ max_slots }
    {
        self.slots.size()
    }

    /// The rate, in words per table.
    pub fn rate(&self) -> u32
        requires { IsShapeInRange self.now }
        ensures rate { result ≡ (shape_of self.now).rate }
        ensures least { 1 ≤ result }
        ensures within { result ≤ words_per_flit * (shape_of self.now).size }
        ensures most { result ≤ words_per_flit * max_slots }
    {
        let _size = self.slots.size();
        WORDS_PER_FLIT * self.need
    }

    /// The latency, in cycles: how much later, at the most, a word lands than a steady server of this
    /// rate, with no path, would be done with it, while the receiver keeps its delay.
    pub fn latency(&self) -> u32
        requires { IsShapeInRange self.now }
        ensures latency { result ≡ channel_latency (shape_of self.now) }
        ensures most { result ≤ max_slots + max_path_delay }
    {
        latency(&self.slots, WORDS_PER_FLIT, self.rate()) + self.links
    }
}

/// The words for which the receiver needs room, so that the credits never keep a word behind its
/// due time: those of a round trip at the rate, and two more. They are at most 65,535.
pub fn buffer(shape: &ChannelShape) -> u32
    requires { IsShapeInRange shape.now }
    ensures gives { result ≡ buffer_of (shape_of shape.now) }
    ensures most { result ≤ max_queue_words }
{
    let size = shape.size();
    let rate = shape.rate();
    let credits = latency(&shape.back, CREDITS_PER_FLIT, rate);
    let round_trip = shape.latency() + shape.delay + 1 + credits + shape.back_links;
    (rate * round_trip).div_ceil(size) + 2
}

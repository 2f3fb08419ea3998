// The rate and the latency of a chain.
ghost use Rattle.std.specs.Prelude.{◌≡◌, ◌≤◌, ◌+◌, ◌*◌, All, length};
ghost use Rattle.aeth_base.specs.Limits.{max_receiver_delay, max_slots, words_per_flit};
ghost use Rattle.aeth_server.specs.ChannelShape.{IsShapeInRange};
ghost use Rattle.aeth_chain.specs.Chain.{IsChain, bound_of, chain_rate, latency_along, legs_of};
ghost use Rattle.aeth_chain.specs.Chain.{passing_latency, leg_of};
ghost use Rattle.aeth_chain.specs.Limits.{max_chain_items, max_leg_latency, max_work};

use crate::item::ChainItem;
use aeth_server::ChannelShape;

/// What a chain guarantees. After the latency-rate server (Stiliadis and Varma, 1998).
#[derive(Clone, Copy)]
pub struct ChainBound {
    /// Words per table: the least rate of its channels.
    pub rate: u32,
    /// In cycles, how much later, at the most, a word of the first channel lands on the last than a
    /// steady server of this rate, with no path, would be done with it.
    pub latency: u64,
}

/// The rate and the latency of a chain, whose items have these shapes. It takes no memory.
pub fn chain_bound(items: &[ChainItem], shapes: &[ChannelShape]) -> ChainBound
    requires { IsChain items.now shapes.now }
    ensures gives { result ≡ bound_of (legs_of items.now shapes.now) }
    ensures least { 1 ≤ result.rate }
    ensures most { result.rate ≤ words_per_flit * max_slots }
    ensures within { result.latency ≤ max_leg_latency * max_chain_items }
{
    let rate = rate_along(items, shapes);
    ChainBound {
        rate,
        latency: latency_along(rate, items, shapes),
    }
}

// The least rate of some channels, 0 where there is none.
fn rate_along(items: &[ChainItem], shapes: &[ChannelShape]) -> u32
    requires beside { length shapes.now ≡ length items.now }
    requires ranges { All IsShapeInRange shapes.now }
    ensures gives { result ≡ chain_rate (legs_of items.now shapes.now) }
    ensures least { 1 ≤ length items.now → 1 ≤ result }
    ensures most { result ≤ words_per_flit * max_slots }
{
    let [_, items_behind @ ..] = items else {
        return 0;
    };
    let [shape, shapes_behind @ ..] = shapes else {
        return 0;
    };
    if items_behind.is_empty() {
        return shape.rate();
    }
    shape.rate().min(rate_along(items_behind, shapes_behind))
}

// The latency along some channels at a rate, 0 where there is none.
fn latency_along(rate: u32, items: &[ChainItem], shapes: &[ChannelShape]) -> u64
    requires some { 1 ≤ rate }
    requires beside { length shapes.now ≡ length items.now }
    requires few { length items.now ≤ max_chain_items }
    requires ranges { All IsShapeInRange shapes.now }
    requires works { All (λ item. item.work ≤ max_work) items.now }
    ensures gives { result ≡ latency_along rate (legs_of items.now shapes.now) }
    ensures most { result ≤ max_leg_latency * length items.now }
{
    let [item, items_behind @ ..] = items else {
        return 0;
    };
    let [shape, shapes_behind @ ..] = shapes else {
        return 0;
    };
    let latency = u64::from(shape.latency());
    if items_behind.is_empty() {
        return latency;
    }
    latency + passing_latency(rate, item, shape) + latency_along(rate, items_behind, shapes_behind)
}

// From the landing of a word to its offer on the next channel, and its share of the table.
fn passing_latency(rate: u32, item: &ChainItem, shape: &ChannelShape) -> u64
    requires some { 1 ≤ rate }
    requires range { IsShapeInRange shape.now }
    requires work { item.now.work ≤ max_work }
    ensures gives { result ≡ passing_latency rate (leg_of item.now shape.now) }
    ensures most { result ≤ max_receiver_delay + max_work + 1 + max_slots }
{
    let share = shape.size().div_ceil(rate);
    u64::from(shape.delay) + u64::from(item.work) + 1 + u64::from(share)
}

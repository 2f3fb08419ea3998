// The cycles in which the words of a channel are sent, taken and credited, word by word: there is no
// loop over the cycles of a run.
ghost use Rattle.std.specs.Prelude.{◌≡◌, ◌≤◌, ◌<◌, ◌+◌, ◌*◌, ℕ, IfOk, length, slice_index};
ghost use Rattle.aeth_base.specs.Limits.{max_cycles};
ghost use Rattle.aeth_server.specs.Landing.{landing_cycle};
ghost use Rattle.aeth_server.specs.Shape.{buffer_of};
ghost use Rattle.aeth_server.specs.WordCycles.{IsCreditReady, IsReadyToGo, crediting_cycle};
ghost use Rattle.aeth_server.specs.WordCycles.{sending_cycle, taking_cycle};
ghost use Rattle.aeth_trace.specs.Receivers.{pull_at, pulls_until};
ghost use Rattle.aeth_chain.specs.Lanes.{IsLane, IsReceiving, after, crediting_cycles, sending_cycles};
ghost use Rattle.aeth_chain.specs.Lanes.{server_in, taking_cycles};

use crate::item::ChainItem;
use crate::passing::Offer;
use aeth_base::{CREDITS_PER_FLIT, NoMemory, WORDS_PER_FLIT};
use aeth_server::{ChannelShape, buffer, next_slot};
use aeth_trace::Receivers;
use std::alloc::Global;

// A channel of a chain in a run, with what is offered on it.
#[derive(Clone, Copy)]
pub(crate) struct Lane<'a> {
    pub item: ChainItem,
    pub shape: ChannelShape,
    pub offers: &'a [Offer],
    pub receivers: &'a Receivers,
    pub cycles: u32,
}

// The cycles of the words of a lane, those of the run where something isn't done in it.
#[derive(Drop)]
pub(crate) struct WordCycles {
    pub sent: Vec<u32>,
    pub taken: Vec<u32>,
    pub credited: Vec<u32>,
}

// Where a receiver stands: the cycle in which it took the last word, how many it had taken before this
// cycle, and how many of its rows aren't later.
#[derive(Clone, Copy)]
pub(crate) struct Receiving {
    pub cycle: u32,
    pub had: usize,
    pub known: usize,
}

// The cycles of all words of a lane, in a few steps a word and one a row of its receiver.
pub(crate) fn word_cycles(alloc: Global, lane: &Lane) -> Result<WordCycles, NoMemory>
    requires { IsLane lane.now }
    ensures sent { IfOk result (λ cycles. cycles.sent.items ≡ sending_cycles (server_in lane.now)
        lane.now.cycles (length lane.now.offers.now)) }
    ensures taken { IfOk result (λ cycles. cycles.taken.items ≡ taking_cycles (server_in lane.now)
        lane.now.cycles (length lane.now.offers.now)) }
{
    let buffer = buffer(&lane.shape);
    let mut cycles = WordCycles {
        sent: Vec::with_capacity(alloc, lane.offers.len())?,
        taken: Vec::with_capacity(alloc, lane.offers.len())?,
        credited: Vec::with_capacity(alloc, lane.offers.len())?,
    };
    let mut receiving = Receiving {
        cycle: 0,
        had: 0,
        known: 0,
    };
    for place in 0..lane.offers.len() {
        let sent = sending(lane, buffer, place, &cycles.sent, &cycles.credited);
        let landed = (sent + lane.shape.links).min(lane.cycles);
        receiving = received(lane, receiving, place, landed);
        let credited = crediting(lane, place, receiving.cycle, &cycles.credited);
        cycles.sent.push(sent)?;
        cycles.taken.push(receiving.cycle)?;
        cycles.credited.push(credited)?;
    }
    Ok(cycles)
}

// So much after the cycle of the word so many places before, 0 where there is none.
fn after(cycles: &[u32], place: usize, back: usize, delay: u32) -> u32
    requires some { 1 ≤ back }
    requires all { length cycles.now ≡ place }
    requires room { (i : ℕ) → slice_index cycles.now i + delay ≤ 2 * max_cycles }
    ensures { result ≡ after cycles.now place back delay }
{
    if back <= place {
        cycles[place - back] + delay
    } else {
        0
    }
}

// From when on a word can be sent: it was offered, the credit came back of the word whose place it
// takes, and the last flit in which it had no room has gone.
fn ready(lane: &Lane, buffer: u32, place: usize, sent: &[u32], credited: &[u32]) -> u32
    requires lane { IsLane lane.now }
    requires buffer { buffer ≡ buffer_of (server_in lane.now).shape }
    requires place { place < length lane.now.offers.now }
    requires sent { sent.now ≡ sending_cycles (server_in lane.now) lane.now.cycles place }
    requires credited { credited.now
        ≡ crediting_cycles (server_in lane.now) lane.now.cycles place }
    ensures ready { IsReadyToGo (server_in lane.now) lane.now.cycles place result }
    ensures early { result ≤ 2 * max_cycles }
{
    let offered = lane.offers[place].cycle;
    let returned = after(credited, place, buffer as usize, lane.shape.back_links);
    let apart = after(sent, place, WORDS_PER_FLIT as usize, 1);
    offered.max(returned).max(apart)
}

// When a word is sent: in the first slot in which it can be.
fn sending(lane: &Lane, buffer: u32, place: usize, sent: &[u32], credited: &[u32]) -> u32
    requires lane { IsLane lane.now }
    requires buffer { buffer ≡ buffer_of (server_in lane.now).shape }
    requires place { place < length lane.now.offers.now }
    requires sent { sent.now ≡ sending_cycles (server_in lane.now) lane.now.cycles place }
    requires credited { credited.now
        ≡ crediting_cycles (server_in lane.now) lane.now.cycles place }
    ensures gives { result ≡ sending_cycle (server_in lane.now) lane.now.cycles (place + 1) }
    ensures within { result ≤ lane.now.cycles }
{
    let ready = ready(lane, buffer, place, sent, credited);
    next_slot(&lane.shape.slots, ready).min(lane.cycles)
}

// From when on the credit of a word can be sent that is taken in a cycle.
fn credit_ready(lane: &Lane, place: usize, taken: u32, credited: &[u32]) -> u32
    requires lane { IsLane lane.now }
    requires taken { taken ≡ taking_cycle (server_in lane.now) lane.now.cycles (place + 1) }
    requires within { taken ≤ lane.now.cycles }
    requires credited { credited.now
        ≡ crediting_cycles (server_in lane.now) lane.now.cycles place }
    ensures ready { IsCreditReady (server_in lane.now) lane.now.cycles place result }
    ensures early { result ≤ 2 * max_cycles }
{
    let apart = after(credited, place, CREDITS_PER_FLIT as usize, 1);
    apart.max(taken + 1)
}

// When the credit of a word is sent that is taken in a cycle: in the first opposite slot in which it
// can be.
fn crediting(lane: &Lane, place: usize, taken: u32, credited: &[u32]) -> u32
    requires lane { IsLane lane.now }
    requires taken { taken ≡ taking_cycle (server_in lane.now) lane.now.cycles (place + 1) }
    requires within { taken ≤ lane.now.cycles }
    requires credited { credited.now
        ≡ crediting_cycles (server_in lane.now) lane.now.cycles place }
    ensures { result ≡ crediting_cycle (server_in lane.now) lane.now.cycles (place + 1) }
{
    let ready = credit_ready(lane, place, taken, credited);
    next_slot(&lane.shape.back, ready).min(lane.cycles)
}

// Where a receiver stands behind one more word, which lands in a cycle.
fn received(lane: &Lane, before: Receiving, place: usize, landed: u32) -> Receiving
    requires lane { IsLane lane.now }
    requires before { IsReceiving (server_in lane.now) lane.now.cycles place before.cycle
        before.had }
    requires known { before.known
        ≤ length (pulls_until lane.now.receivers.now lane.now.item.channel before.cycle) }
    requires place { place < length lane.now.offers.now }
    requires landed { landed ≡ landing_cycle (server_in lane.now) lane.now.cycles (place + 1) }
    ensures gives { IsReceiving (server_in lane.now) lane.now.cycles (place + 1) result.cycle
        result.had }
    ensures known { result.known
        ≤ length (pulls_until lane.now.receivers.now lane.now.item.channel result.cycle) }
{
    let mut cycle = before.cycle;
    let mut had = before.had;
    if landed > cycle {
        cycle = landed;
        had = place;
    }
    let mut known = before.known;
    'wait: while cycle < lane.cycles {
        let pull = lane
            .receivers
            .next_pull(lane.item.channel, cycle, &mut known);
        if had + pull as usize > place {
            return Receiving { cycle, had, known };
        }
        had += pull as usize;
        cycle = next_pulling(lane, cycle, pull, known);
    }
    Receiving { cycle, had, known }
}

// The next cycle in which a receiver may take words, behind one in which it takes at most so many.
fn next_pulling(lane: &Lane, cycle: u32, pull: u32, known: usize) -> u32
    requires lane { IsLane lane.now }
    requires within { cycle < lane.now.cycles }
    requires pull { pull ≡ pull_at lane.now.receivers.now lane.now.item.channel cycle }
    requires known { known
        ≡ length (pulls_until lane.now.receivers.now lane.now.item.channel cycle) }
    ensures later { cycle < result }
    ensures within { result ≤ lane.now.cycles }
    ensures idle { (t : ℕ) → cycle < t → t < result
        → pull_at lane.now.receivers.now lane.now.item.channel t ≡ 0 }
{
    if pull > 0 {
        return cycle + 1;
    }
    match lane.receivers.next_change(lane.item.channel, cycle, known) {
        Some(next) => next.min(lane.cycles),
        None => lane.cycles,
    }
}

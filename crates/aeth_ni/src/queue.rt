// One queue number of a network interface: its two queues, its route and its credits.

ghost use Rattle.std.specs.Prelude.{◌≡◌, ◌<◌, ◌≤◌, ◌↔◌, length, slice_get, slice_index, IfOk};
ghost use Rattle.std.specs.Prelude.{IsTrue, None, take, drop};
ghost use Rattle.std.specs.Bool.{IsFalse, OnTrue, OnFalse};
ghost use Rattle.circular_buffer.specs.Buffer.{buffer};
ghost use Rattle.aeth_base.specs.Limits.{words_per_flit};
ghost use Rattle.aeth_ni.specs.Limits.{waiting_words};
ghost use Rattle.aeth_ni.specs.Queue.{IsRoute, empty_queue, offered, word_taken, finished};
ghost use Rattle.aeth_ni.specs.Queue.{flit_landed, words_in, stopped, without_route, with_route};
ghost use Rattle.aeth_ni.specs.Sending.{emitted, flit_sent};

use aeth_base::{CREDITS_PER_FLIT, NoMemory, WORDS_PER_FLIT};
use aeth_clocked::Flit;
use aeth_header::{Header, pack};
use circular_buffer::HeapCircularBuffer;
use std::alloc::Global;
use std::marker::Model;

/// The most words that wait in a source queue.
pub const WAITING_WORDS: usize = 8;

/// Where the flits of a queue go.
#[derive(Clone, Copy)]
pub struct Route {
    /// The output ports on the way, as in a header: below 2^21.
    pub ports: u32,
    /// The queue of the receiving interface: below 32.
    pub remote: u8,
}

/// The source queue, the receive queue and the credits of one queue number.
#[derive(Drop)]
pub(crate) struct Queue {
    route: Option<Route>,
    waiting: HeapCircularBuffer<u32>,
    received: HeapCircularBuffer<u32>,
    counter: u32,
    owed: u32,
    halted: bool,
}

impl Model for Queue {
    ghost use Rattle.std.specs.Prelude.{◌≡◌, IfSome};
    ghost use Rattle.aeth_ni.specs.Queue.{QueueState, IsRoute, IsQueue};

    ghost Value = { QueueState };

    ghost view = { λ queue. record {
      route = queue.route;
      waiting = queue.waiting.items;
      received = queue.received.items;
      room = queue.received.capacity;
      counter = queue.counter;
      owed = queue.owed;
      halted = queue.halted;
    } };

    ghost invariant = { λ queue. IsQueue queue.waiting.capacity queue.route };
}

impl Queue {
    /// A queue without a route, without words, and without credits.
    pub(crate) fn new(alloc: Global, room: u32) -> Result<Queue, NoMemory>
        ensures { IfOk result (λ queue. queue ≡ empty_queue room) }
    {
        let waiting = HeapCircularBuffer::with_capacity(alloc, WAITING_WORDS)?;
        let received = HeapCircularBuffer::with_capacity(alloc, room as usize)?;
        Ok(Queue {
            route: None,
            waiting,
            received,
            counter: 0,
            owed: 0,
            halted: false,
        })
    }

    /// Puts a word behind those that wait, where there is room.
    pub(crate) fn offer(&mut self, word: u32) -> bool
        ensures full { IsFalse result ↔ (length self.old.waiting ≡ waiting_words) }
        ensures offered { OnTrue result (self.new ≡ offered word self.old) }
        ensures kept { OnFalse result (self.new ≡ self.old) }
        ensures few { length self.old.waiting ≤ waiting_words }
    {
        if self.waiting.len() == WAITING_WORDS {
            return false;
        }
        self.waiting.push_back(word);
        true
    }

    /// Takes the oldest word that was received.
    pub(crate) fn take(&mut self) -> Option<u32>
        ensures word { result ≡ slice_get self.old.received 0 }
        ensures queue { self.new ≡ word_taken self.old }
    {
        let word = self.received.pop_front()?;
        self.owed = self.owed.saturating_add(1);
        Some(word)
    }

    /// Stops injection until a route is set.
    pub(crate) fn halt(&mut self)
        ensures { self.new ≡ stopped self.old }
    {
        self.halted = true;
    }

    /// Empties both queues, the counter and the owed credits.
    pub(crate) fn finish(&mut self)
        ensures { self.new ≡ finished self.old }
    {
        self.waiting.clear();
        self.received.clear();
        self.counter = 0;
        self.owed = 0;
    }

    /// Takes the route away.
    pub(crate) fn clear_route(&mut self)
        ensures { self.new ≡ without_route self.old }
    {
        self.route = None;
    }

    /// Sets the route and the counter, and ends a halt.
    pub(crate) fn set_route(&mut self, route: Route, credits: u32)
        requires { IsRoute route }
        ensures { self.new ≡ with_route route credits self.old }
    {
        self.route = Some(route);
        self.counter = credits;
        self.halted = false;
    }

    /// Takes out what the queue sends in a slot of its own.
    pub(crate) fn emit(&mut self) -> Option<Flit>
        ensures flit { result ≡ emitted self.old }
        ensures queue { self.new ≡ flit_sent self.old }
    {
        if self.halted {
            return None;
        }
        let ready = self.waiting.len().min(WORDS_PER_FLIT as usize) as u32;
        let count = ready.min(self.counter);
        let credits = self.owed.min(CREDITS_PER_FLIT);
        if count == 0 && credits == 0 {
            return None;
        }
        let route = self.route?;
        self.counter -= count;
        self.owed -= credits;
        let (first, second) = take_words(&mut self.waiting, count);
        let header = pack(&Header {
            route: route.ports,
            queue: route.remote,
            credits: credits as u8,
            count: count as u8,
        });
        Some(Flit {
            header,
            first,
            second,
        })
    }

    /// Whether the queue sends nothing in a slot of its own.
    #[inline(always)]
    pub(crate) fn is_mute(&self) -> bool
        ensures { IsTrue result ↔ (emitted self.now ≡ None) }
    {
        self.owed == 0 && (self.waiting.is_empty() || self.counter == 0)
            || self.halted
            || self.route.is_none()
    }

    /// Puts the words of a flit behind those that were received, of which the newest stay, and
    /// adds its credits to the counter.
    pub(crate) fn land(&mut self, header: &Header, flit: &Flit)
        requires { header.now.count ≤ words_per_flit }
        ensures { self.new ≡ flit_landed header.now.credits (words_in header.now flit.now) self.old }
    {
        let words = [flit.first, flit.second];
        self.received
            .extend_from_slice(&words[..header.count as usize]);
        self.counter = self.counter.saturating_add(u32::from(header.credits));
    }
}

// Takes out as many words as a flit has, and gives 0 for each that it hasn't.
fn take_words(waiting: &mut HeapCircularBuffer<u32>, count: u32) -> (u32, u32)
    requires flit { count ≤ words_per_flit }
    requires waiting { count ≤ length waiting.old.items }
    ensures first { result.0 ≡ slice_index (take count waiting.old.items) 0 }
    ensures second { result.1 ≡ slice_index (take count waiting.old.items) 1 }
    ensures waiting { waiting.new ≡ buffer (drop count waiting.old.items) waiting.old.capacity }
{
    let first = if count > 0 { next_word(waiting) } else { 0 };
    let second = if count > 1 { next_word(waiting) } else { 0 };
    (first, second)
}

// Takes out the oldest word that waits.
fn next_word(waiting: &mut HeapCircularBuffer<u32>) -> u32
    requires { 0 < length waiting.old.items }
    ensures word { result ≡ slice_index waiting.old.items 0 }
    ensures waiting { waiting.new ≡ buffer (drop 1 waiting.old.items) waiting.old.capacity }
{
    waiting.pop_front().unwrap_or(0)
}

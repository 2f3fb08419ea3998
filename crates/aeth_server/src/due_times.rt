// When words are due.
ghost use Rattle.std.specs.Prelude.{◌≡◌, ◌≤◌, ◌<◌, [], All, length};
ghost use Rattle.aeth_base.specs.Limits.{max_cycles};
ghost use Rattle.aeth_server.specs.ChannelShape.{IsShapeInRange, shape_of};
ghost use Rattle.aeth_server.specs.FinishTimes.{due_cycle, finish_time};
ghost use Rattle.aeth_server.specs.Limits.{max_session_words};
ghost use Rattle.aeth_server.specs.Progress.{after_word, progress_of};
ghost use Rattle.aeth_server.specs.Shape.{channel_latency};

use crate::shape::ChannelShape;
use std::marker::Model;

/// The due cycles of a session's words, one after the other, in constant time a word. A session has
/// at most 1,000,000 words, which are offered in cycles up to 1,000,000.
/// After the latency-rate server (Stiliadis and Varma, 1998), for whole words.
#[derive(Drop)]
pub struct Due {
    size: u32,
    rate: u32,
    latency: u32,
    words: u32,
    finish: u128,
}

impl Model for Due {
    ghost use Rattle.aeth_server.specs.Progress.{IsWithinSession, Progress};

    ghost Value = { Progress };

    ghost view = { λ d. record {
      size = d.size;
      rate = d.rate;
      latency = d.latency;
      words = d.words;
      finish = d.finish;
    } };

    ghost invariant = { λ d. IsWithinSession d.size d.rate d.latency d.words d.finish };
}

impl Due {
    /// Before the first word of a session.
    pub fn new(shape: &ChannelShape) -> Due
        requires { IsShapeInRange shape.now }
        ensures { let granted = shape_of shape.now in
            result ≡ progress_of granted.size granted.rate (channel_latency granted) [] 0 }
    {
        Due {
            size: shape.size(),
            rate: shape.rate(),
            latency: shape.latency(),
            words: 0,
            finish: 0,
        }
    }

    /// The due cycle of the next word, which is offered in this cycle.
    pub fn step(&mut self, arrival: u64) -> u64
        requires few { self.old.words < max_session_words }
        requires early { arrival ≤ max_cycles }
        ensures word { self.new ≡ after_word self.old arrival }
        ensures due { result ≡ due_cycle self.new.rate self.new.finish }
    {
        let start = u128::from(self.rate) * (u128::from(arrival) + u128::from(self.latency));
        self.finish = start.max(self.finish) + u128::from(self.size);
        self.words += 1;
        self.finish.div_ceil(u128::from(self.rate)) as u64
    }

    // The rate times the time by which all words so far are due.
    fn finish(&self) -> u128
        ensures { result ≡ self.now.finish }
    {
        self.finish
    }
}

/// The rate times the time in cycles by which the `i`-th word is due, of words that are offered in
/// these cycles; 0 for `i` = 0. There are at most 1,000,000 words, and their cycles are at most
/// 1,000,000.
pub fn deadline(shape: &ChannelShape, arrivals: &[u64], i: usize) -> u128
    requires shape { IsShapeInRange shape.now }
    requires word { i ≤ length arrivals.now }
    requires few { length arrivals.now ≤ max_session_words }
    requires early { All (λ a. a ≤ max_cycles) arrivals.now }
    ensures { let granted = shape_of shape.now in
        result ≡ finish_time granted.size granted.rate (channel_latency granted) arrivals.now i }
{
    let mut due = Due::new(shape);
    for word in 0..i {
        due.step(arrivals[word]);
    }
    due.finish()
}

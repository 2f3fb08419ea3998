// One channel by itself, cycle by cycle, in the memory of its last cycles.
ghost use Rattle.std.specs.Prelude.{◌≡◌, ◌+◌, ◌-◌, ◌≤◌, ◌∷◌, ◌&&◌, if◌then◌else◌, length, min};
ghost use Rattle.std.specs.Prelude.{slice_index, take};
ghost use Rattle.aeth_base.specs.Limits.{max_cycles, max_path_delay, max_queue_words};
ghost use Rattle.aeth_server.specs.ChannelShape.{IsShapeInRange, shape_of};
ghost use Rattle.aeth_server.specs.Limits.{max_session_words};
ghost use Rattle.aeth_server.specs.SlotCycles.{is_slot};
ghost use Rattle.aeth_server.specs.AloneState.{after_cycle, first_state};

use crate::shape::ChannelShape;
use aeth_base::{CREDITS_PER_FLIT, MAX_PATH_DELAY, WORDS_PER_FLIT};
use aeth_slots::SlotSet;
use std::marker::Model;

// For how many cycles a flit is under way at most.
const MEMORY: usize = MAX_PATH_DELAY as usize;

/// One channel by itself: its private server from the first cycle on, in one session without a
/// close. It remembers what is under way alone, for the greatest delay of a path each way.
#[derive(Drop)]
pub struct Alone {
    shape: ChannelShape,
    buffer: u32,
    time: u64,
    arrived: u32,
    taken: u32,
    sent: [u32; MEMORY],
    credited: [u32; MEMORY],
}

/// The words sent, landed and taken after a cycle, as totals since the first cycle.
#[derive(Clone, Copy)]
pub struct AloneStep {
    /// The words sent.
    pub sent: u32,
    /// The words landed: those sent a path delay before.
    pub landed: u32,
    /// The words that the receiver took.
    pub taken: u32,
}

impl Model for Alone {
    ghost use Rattle.aeth_server.specs.AloneState.{AloneState, IsWithinRun};
    ghost use Rattle.aeth_server.specs.ChannelShape.{IsShapeInRange, shape_of};

    ghost Value = { AloneState };

    ghost view = { λ a. record {
      shape = shape_of a.shape;
      buffer = a.buffer;
      time = a.time;
      arrived = a.arrived;
      taken = a.taken;
      sent = a.sent;
      credited = a.credited;
    } };

    ghost invariant = { λ a. IsShapeInRange a.shape
        × IsWithinRun a.buffer a.arrived a.taken a.sent a.credited };
}

impl Alone {
    /// Before the first cycle, with a buffer of at most 65,535 words.
    pub fn new(shape: &ChannelShape, buffer: u32) -> Alone
        requires shape { IsShapeInRange shape.now }
        requires buffer { buffer ≤ max_queue_words }
        ensures { result ≡ first_state (shape_of shape.now) buffer }
    {
        Alone {
            shape: *shape,
            buffer,
            time: 0,
            arrived: 0,
            taken: 0,
            sent: [0; MEMORY],
            credited: [0; MEMORY],
        }
    }

    /// Cycle `t`, which is the next one: `words` more words are offered, the receiver takes at most
    /// `pull`, and flits are sent where `may_send` says so. Cycles are numbered from 0 to 1,000,000, and
    /// all words together are at most 1,000,000. It takes constant time.
    pub fn cycle(&mut self, t: u64, words: u32, pull: u32, may_send: bool) -> AloneStep
        requires next { t ≡ self.old.time }
        requires early { t ≤ max_cycles }
        requires few { self.old.arrived + words ≤ max_session_words }
        ensures cycle { self.new ≡ after_cycle self.old words pull may_send }
        ensures sent { result.sent ≡ slice_index self.new.sent 0 }
        ensures landed { result.landed ≡ slice_index self.old.sent (self.old.shape.path_delay - 1) }
        ensures taken { result.taken ≡ self.new.taken }
    {
        self.arrived += words;
        let sent = self.sent[0];
        let credited = self.credited[0];
        let landed = self.sent[self.shape.links as usize - 1];
        let returned = self.credited[self.shape.back_links as usize - 1];
        let allowed = (self.buffer + returned).saturating_sub(sent);
        let waiting = self.arrived.saturating_sub(sent).min(allowed);
        let owed = self.taken.saturating_sub(credited);
        let sends = is_open(may_send, &self.shape.slots, t);
        let returns = is_open(may_send, &self.shape.back, t);
        let words = going(sends, WORDS_PER_FLIT, waiting);
        let credits = going(returns, CREDITS_PER_FLIT, owed);
        self.sent = shifted(sent + words, &self.sent);
        self.credited = shifted(credited + credits, &self.credited);
        self.taken += pull.min(landed.saturating_sub(self.taken));
        self.time = t + 1;
        AloneStep {
            sent: sent + words,
            landed,
            taken: self.taken,
        }
    }
}

// How many go of so many that wait: none where the cycle isn't open, and at most as many as a flit
// carries.
fn going(is_open: bool, most: u32, waiting: u32) -> u32
    ensures gives { result ≡ (if is_open then min most waiting else 0) }
    ensures within { result ≤ waiting }
{
    if is_open { most.min(waiting) } else { 0 }
}

// Whether flits may be sent, and the cycle's slot is in the set.
fn is_open(may_send: bool, slots: &SlotSet, t: u64) -> bool
    ensures { result ≡ (may_send && is_slot slots.now.size slots.now.slots t) }
{
    may_send && slots.has((t % u64::from(slots.size())) as u32)
}

// The newest count before the others, of which the oldest is dropped.
fn shifted(newest: u32, counts: &[u32; MEMORY]) -> [u32; MEMORY]
    ensures { result ≡ newest ∷ take (max_path_delay - 1) counts.now }
{
    let mut all = [newest; MEMORY];
    all[1..].copy_from_slice(&counts[..MEMORY - 1]);
    all
}

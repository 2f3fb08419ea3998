// A sink in memory, whose calls fail as a test wants.
ghost use Rattle.aeth_io.specs.Causes.{HasCause};
ghost use Rattle.aeth_io.specs.MemSink.{after_write, is_failing, taken_of};
ghost use Rattle.aeth_io.specs.Sink.{appended};
ghost use Rattle.std.specs.Prelude.{◌≡◌, ◌<◌, ◌≤◌, ◌⊎◌, [], length, take, Some, IfOk, OnErr};
ghost use Rattle.std.specs.Prelude.{is_err};

use crate::{Failed, Sink};
use aeth_base::NoMemory;
use std::alloc::Global;
use std::marker::Model;

/// A sink that keeps what is written, in room for a fixed number of bytes. Calls count from 0.
#[derive(Drop)]
pub struct MemSink {
    bytes: Vec<u8>,
    room: usize,
    most: usize,
    fail: Vec<u64>,
    calls: u64,
    faults: u64,
}

impl Model for MemSink {
    ghost use Rattle.aeth_io.specs.MemSink.{SinkState};
    ghost use Rattle.std.specs.Prelude.{◌<◌, ◌≤◌, vec_len, vec_capacity};

    ghost Value = { SinkState };

    ghost view = { λ sink. record {
      bytes = sink.bytes.items;
      room = sink.room;
      most = sink.most;
      fail = sink.fail.items;
      calls = sink.calls;
      faults = sink.faults;
    } };

    ghost invariant = { λ sink.
        (0 < sink.most) × (vec_len sink.bytes ≤ sink.room)
        × (sink.room ≤ vec_capacity sink.bytes) };
}

impl MemSink {
    /// Makes a sink with room for `room` bytes, to which nothing is written yet. A call takes at
    /// most `most` bytes, and the calls with the numbers `fail` fail.
    pub fn new(alloc: Global, room: usize, most: usize, fail: Vec<u64>) -> Result<MemSink, NoMemory>
        requires { 0 < most }
        ensures { IfOk result (λ sink. sink ≡ record {
          bytes = [];
          room = room;
          most = most;
          fail = fail.items;
          calls = 0;
          faults = 0;
        }) }
    {
        let bytes = Vec::with_capacity(alloc, room)?;
        Ok(MemSink {
            bytes,
            room,
            most,
            fail,
            calls: 0,
            faults: 0,
        })
    }

    /// What was written.
    pub fn bytes(&self) -> &[u8]
        ensures { result.now ≡ self.now.bytes }
    {
        &self.bytes
    }
}

impl Sink for MemSink {
    ghost written = { λ sink. Some sink.bytes };

    ghost faults = { λ sink. sink.faults };

    /// A call whose number is listed, or that is made when the room is used up, fails and raises
    /// the count of faults. Any other takes as many bytes as the piece has, as a call takes at
    /// most, and as there is room for, whichever is least.
    fn write(&mut self, piece: &[u8]) -> Result<usize, Failed>
        ensures fails { is_err result ≡ is_failing self.old }
        ensures takes { IfOk result (λ n. n ≡ taken_of self.old piece.now) }
        ensures after { self.new ≡ after_write self.old piece.now }

        // And what holds of every sink.
        ensures within { IfOk result (λ n. n ≤ length piece.now) }
        ensures some { IfOk result (λ n. (length piece.now ≡ 0) ⊎ (1 ≤ n)) }
        ensures ok { IfOk result (λ n.
            Some self.new.bytes ≡ appended (Some self.old.bytes) (take n piece.now)) }
        ensures err { OnErr result (Some self.new.bytes ≡ Some self.old.bytes) }
        ensures cause { HasCause result self.old.faults self.new.faults }
        ensures later { self.old.faults ≤ self.new.faults }
    {
        let call = self.calls;
        self.calls = call.saturating_add(1);
        let left = self.room - self.bytes.len();
        if left == 0 || self.fail.contains(&call) {
            self.faults = self.faults.saturating_add(1);
            return Err(Failed);
        }
        let taken = piece.len().min(self.most).min(left);
        match self.bytes.extend_from_slice(&piece[..taken]) {
            Ok(()) => Ok(taken),
            Err(_) => unreachable!(),
        }
    }
}

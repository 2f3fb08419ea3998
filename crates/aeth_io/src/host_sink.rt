// A sink over one of std's writers.
ghost use Rattle.aeth_io.specs.Causes.{HasCause, one_more};
ghost use Rattle.std.specs.Prelude.{◌≡◌, ◌≤◌, ◌⊎◌, ℕ, None, IfOk, if◌then◌else◌, is_err};
ghost use Rattle.std.specs.Prelude.{length};

use crate::{Failed, Sink};
use std::io::Write;
use std::marker::Model;

/// The adapter over a writer of the machine, as standard output. It is seen as its count of faults,
/// and doesn't tell what was written: no proof knows what a file or a terminal got.
#[derive(Drop)]
pub struct HostSink<W: Write + Drop> {
    to: W,
    faults: u64,
}

impl<W: Write + Drop> Model for HostSink<W> {
    ghost Value = { ℕ };

    ghost view = { λ sink. sink.faults };
}

impl<W: Write + Drop> HostSink<W> {
    /// Makes a sink that no call has failed on.
    pub fn new(to: W) -> HostSink<W>
        ensures { result ≡ 0 }
    {
        HostSink { to, faults: 0 }
    }
}

impl<W: Write + Drop> Sink for HostSink<W> {
    ghost written = { λ _. None };

    ghost faults = { λ sink. sink };

    /// An error of the writer and a write of no byte raise the count of faults; nothing else does.
    fn write(&mut self, piece: &[u8]) -> Result<usize, Failed>
        ensures counts { self.new ≡ (if is_err result then one_more self.old else self.old) }

        // And what holds of every sink, of one that tells no bytes.
        ensures within { IfOk result (λ n. n ≤ length piece.now) }
        ensures some { IfOk result (λ n. (length piece.now ≡ 0) ⊎ (1 ≤ n)) }
        ensures cause { HasCause result self.old self.new }
        ensures later { self.old ≤ self.new }
    {
        match self.to.write(piece) {
            Ok(n) if n > 0 => Ok(n),
            _ => {
                self.faults = self.faults.saturating_add(1);
                Err(Failed)
            }
        }
    }
}

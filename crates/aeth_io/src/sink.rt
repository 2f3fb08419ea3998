// A place for bytes, which may fail.
ghost use Rattle.aeth_io.specs.Causes.{HasCause};
ghost use Rattle.aeth_io.specs.Sink.{AppendsProperPrefix, appended};
ghost use Rattle.std.specs.Prelude.{◌≡◌, ◌≤◌, ◌⊎◌, [], List, ℕ, Option, Some, codes, length, take};
ghost use Rattle.std.specs.Prelude.{IfOk, OnOk, OnErr};

use std::error::Error;
use std::fmt;

/// A call on a sink or a shelf failed.
#[derive(Clone, Copy, Debug, PartialEq, Eq)]
pub struct Failed;

impl fmt::Display for Failed {
    ghost output = { λ _. Some (codes "the call failed") };

    fn fmt<W: fmt::Write>(&self, f: &mut fmt::Formatter<W>) -> fmt::Result {
        write!(f, "the call failed")
    }
}

impl Error for Failed {}

/// A place that takes bytes, some at each call, as standard output does.
pub trait Sink {
    /// The bytes that were written, where the sink tells them.
    ghost written: { Self → Option (List ℕ) };

    /// The count of faults. It never falls, and a call that fails raises it or leaves it at the
    /// greatest `u64`.
    ghost faults: { Self → ℕ };

    /// Takes some bytes of the piece, from its first on, and says how many: at least one of a piece
    /// that has any. A call that fails takes none.
    fn write(&mut self, piece: &[u8]) -> Result<usize, Failed>
        ensures within { IfOk result (λ n. n ≤ length piece.now) }
        ensures some { IfOk result (λ n. (length piece.now ≡ 0) ⊎ (1 ≤ n)) }
        ensures ok { IfOk result (λ n.
            written self.new ≡ appended (written self.old) (take n piece.now)) }
        ensures err { OnErr result (written self.new ≡ written self.old) }
        ensures cause { HasCause result (faults self.old) (faults self.new) }
        ensures later { faults self.old ≤ faults self.new };
}

/// Writes the whole text. Each call on the sink is handed all that is left, and an empty text makes
/// no call.
pub fn write_all<S: Sink>(sink: &mut S, text: &[u8]) -> Result<(), Failed>
    ensures ok { OnOk result (S.written sink.new ≡ appended (S.written sink.old) text.now) }
    ensures err { OnErr result
        (AppendsProperPrefix (S.written sink.old) (S.written sink.new) text.now) }
    ensures cause { HasCause result (S.faults sink.old) (S.faults sink.new) }
    ensures later { S.faults sink.old ≤ S.faults sink.new }
    ensures kept { text.now ≡ [] → sink.new ≡ sink.old }
{
    let mut rest = text;
    while !rest.is_empty() {
        let taken = sink.write(rest)?;
        rest = &rest[taken..];
    }
    Ok(())
}

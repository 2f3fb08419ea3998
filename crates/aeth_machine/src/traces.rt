// The traces of a run.
ghost use Rattle.std.specs.Prelude.{◌≡◌};

use aeth_accepted::BorrowedTraces;
use aeth_trace::{Receivers, Switches, Words};

/// The words that are offered in a run, what its receivers take, and its switches between use cases.
#[derive(Drop)]
pub struct Traces {
    pub words: Words,
    pub receivers: Receivers,
    pub switches: Switches,
}

impl Traces {
    /// The same traces, borrowed.
    pub fn borrowed(&self) -> BorrowedTraces<'_>
        ensures words { result.words.now ≡ self.now.words }
        ensures receivers { result.receivers.now ≡ self.now.receivers }
        ensures switches { result.switches.now ≡ self.now.switches }
    {
        BorrowedTraces {
            words: &self.words,
            receivers: &self.receivers,
            switches: &self.switches,
        }
    }
}

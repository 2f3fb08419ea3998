// Why a text of certificates is refused.
ghost use Rattle.aeth_explain.specs.CutsFaults.{rule_of};
ghost use Rattle.aeth_explain.specs.declared.cuts_fault.CutsFault.TheVariants.{Memory};
ghost use Rattle.std.specs.Prelude.{◌≡◌};

use aeth_base::{BrokenRule, Fault, NoMemory, Shown};
use std::alloc::{AllocError, AllocFailed};

/// The first rule that a text of certificates breaks, and the first line that breaks it. Lines count
/// from 1.
#[derive(Clone, Copy)]
pub enum CutsFault {
    /// The line hasn't the form that belongs at its position, or lacks its line feed.
    BadLine { line: u32 },
    /// A field of the line names nothing. Fields count from 1.
    Unknown { line: u32, field: u32 },
    /// The `try` line isn't that of the try at its place, or the end comes before the last try.
    WrongTry { line: u32 },
    /// There was no memory.
    Memory,
}

impl From<NoMemory> for CutsFault {
    ghost from_gives = { λ _ fault. fault ≡ Memory };

    fn from(_: NoMemory) -> CutsFault {
        CutsFault::Memory
    }
}

impl From<AllocError> for CutsFault {
    ghost from_gives = { λ _ fault. fault ≡ Memory };

    fn from(_: AllocError) -> CutsFault {
        CutsFault::Memory
    }
}

impl<T: Drop> From<AllocFailed<T>> for CutsFault {
    ghost from_gives = { λ _ fault. fault ≡ Memory };

    fn from(_: AllocFailed<T>) -> CutsFault {
        CutsFault::Memory
    }
}

impl Fault for CutsFault {
    ghost rule = { rule_of };

    fn broken_rule(&self) -> Option<BrokenRule> {
        match self {
            CutsFault::BadLine { line } => Some(BrokenRule::at(
                1,
                "BadLine",
                *line,
                Shown::Nothing,
            )),
            CutsFault::Unknown { line, field } => {
                let value = Shown::Number(*field as u64);
                Some(BrokenRule::at(2, "Unknown", *line, value))
            }
            CutsFault::WrongTry { line } => {
                Some(BrokenRule::at(3, "WrongTry", *line, Shown::Nothing))
            }
            CutsFault::Memory => None,
        }
    }
}

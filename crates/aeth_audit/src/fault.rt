// Why a log of links is refused.
ghost use Rattle.std.specs.Prelude.{◌≡◌};
ghost use Rattle.aeth_audit.specs.Fault.{rule_of};
ghost use Rattle.aeth_audit.specs.declared.fault.LogFault.TheVariants.{Memory};

use aeth_base::{BrokenRule, Fault, NoMemory, Shown};
use std::alloc::{AllocError, AllocFailed};

/// The first rule that a log of links breaks, and the first row that breaks it. The header is row
/// 0, and the rows under it count from 1.
#[derive(Clone, Copy)]
pub enum LogFault {
    /// The record isn't the header, or a row hasn't the fields of its columns. It has no value. A
    /// log without a header breaks it at row 0.
    BadRow { row: u32 },
    /// A field of the row names no link of the chip. Fields count from 1.
    Unknown { row: u32, field: u32 },
    /// The row doesn't come later than the row before it: in a later cycle, or in the same one on a
    /// later link.
    OutOfOrder { row: u32, cycle: u32 },
    /// There are more rows than are allowed: so many.
    TooMany { rows: u32 },
    /// There was no memory.
    Memory,
}

impl Fault for LogFault {
    ghost rule = { rule_of };

    fn broken_rule(&self) -> Option<BrokenRule> {
        match self {
            LogFault::BadRow { row } => Some(BrokenRule::at(1, "BadRow", *row, Shown::Nothing)),
            LogFault::Unknown { row, field } => {
                Some(BrokenRule::at(2, "Unknown", *row, Shown::Number(*field as u64)))
            }
            LogFault::OutOfOrder { row, cycle } => {
                Some(BrokenRule::at(3, "OutOfOrder", *row, Shown::Number(*cycle as u64)))
            }
            LogFault::TooMany { rows } => {
                Some(BrokenRule::at(4, "TooMany", 0, Shown::Number(*rows as u64)))
            }
            LogFault::Memory => None,
        }
    }
}

impl From<NoMemory> for LogFault {
    ghost from_gives = { λ _ fault. fault ≡ Memory };

    fn from(_: NoMemory) -> LogFault {
        LogFault::Memory
    }
}

impl From<AllocError> for LogFault {
    ghost from_gives = { λ _ fault. fault ≡ Memory };

    fn from(_: AllocError) -> LogFault {
        LogFault::Memory
    }
}

impl<T: Drop> From<AllocFailed<T>> for LogFault {
    ghost from_gives = { λ _ fault. fault ≡ Memory };

    fn from(_: AllocFailed<T>) -> LogFault {
        LogFault::Memory
    }
}

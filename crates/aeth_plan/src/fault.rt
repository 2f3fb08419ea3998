// Why a plan text is refused.
ghost use Rattle.aeth_plan.specs.Refusals.{rule_of};
ghost use Rattle.aeth_plan.specs.declared.fault.PlanFault.TheVariants.{Memory};
ghost use Rattle.std.specs.Prelude.{◌≡◌};

use aeth_base::{BrokenRule, Fault, NoMemory, Shown};
use std::alloc::{AllocError, AllocFailed};

/// The first rule that a plan text breaks, and the first line that breaks it. Lines count from 1.
#[derive(Clone, Copy)]
pub enum PlanFault {
    /// The line hasn't the form that belongs at its position, or lacks its line feed.
    BadLine { line: u32 },
    /// A field of the line names nothing, or isn't the chip's. Fields count from 1.
    Unknown { line: u32, field: u32 },
    /// The line doesn't come after the one before.
    WrongOrder { line: u32 },
    /// There was no memory.
    Memory,
}

impl From<NoMemory> for PlanFault {
    ghost from_gives = { λ _ fault. fault ≡ Memory };

    fn from(_: NoMemory) -> PlanFault {
        PlanFault::Memory
    }
}

impl From<AllocError> for PlanFault {
    ghost from_gives = { λ _ fault. fault ≡ Memory };

    fn from(_: AllocError) -> PlanFault {
        PlanFault::Memory
    }
}

impl<T: Drop> From<AllocFailed<T>> for PlanFault {
    ghost from_gives = { λ _ fault. fault ≡ Memory };

    fn from(_: AllocFailed<T>) -> PlanFault {
        PlanFault::Memory
    }
}

impl Fault for PlanFault {
    ghost rule = { rule_of };

    fn broken_rule(&self) -> Option<BrokenRule> {
        match self {
            PlanFault::BadLine { line } => Some(BrokenRule::at(
                1,
                "BadLine",
                *line,
                Shown::Nothing,
            )),
            PlanFault::Unknown { line, field } => {
                let value = Shown::Number(*field as u64);
                Some(BrokenRule::at(2, "Unknown", *line, value))
            }
            PlanFault::WrongOrder { line } => {
                Some(BrokenRule::at(3, "WrongOrder", *line, Shown::Nothing))
            }
            PlanFault::Memory => None,
        }
    }
}

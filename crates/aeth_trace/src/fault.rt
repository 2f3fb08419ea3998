// Why a trace file is refused.
ghost use Rattle.aeth_trace.specs.Fault.{rule_of, value_of_first};
ghost use Rattle.aeth_trace.specs.declared.fault.TraceFault.TheVariants.{Memory};
ghost use Rattle.std.specs.Prelude.{◌≡◌};

use aeth_base::{BrokenRule, Fault, NoMemory, Shown};
use std::alloc::{AllocError, AllocFailed};

/// The first rule that a trace file breaks, and the first row that breaks it. The header is row 0,
/// and the rows under it count from 1.
#[derive(Clone, Copy)]
pub enum TraceFault {
    /// The record isn't the header, or a row hasn't the fields of its columns. It has no value. A
    /// file without a header breaks it at row 0.
    BadRow { row: u32 },
    /// A field of the row names no connection or no use case. Fields count from 1.
    Unknown { row: u32, field: u32 },
    /// The cycle of the row is less than that of the row before it.
    OutOfOrder { row: u32, cycle: u32 },
    /// A switch begins before the one before it is done: before cycle `go`, in which the channels
    /// of that one begin.
    Overlap { row: u32, cycle: u32, go: u64 },
    /// There are more rows than are allowed: so many.
    TooMany { rows: u32 },
    /// The first switch hasn't cycle 0 and drain 0. Without any switch it is broken at row 0.
    FirstNotZero { row: u32, cycle: u32, drain: u32 },
    /// There was no memory.
    Memory,
}

impl Fault for TraceFault {
    ghost rule = { rule_of };

    fn broken_rule(&self) -> Option<BrokenRule> {
        match self {
            TraceFault::BadRow { row } => Some(BrokenRule::at(1, "BadRow", *row, Shown::Nothing)),
            TraceFault::Unknown { row, field } => {
                Some(BrokenRule::at(2, "Unknown", *row, Shown::Number(*field as u64)))
            }
            TraceFault::OutOfOrder { row, cycle } => {
                Some(BrokenRule::at(3, "OutOfOrder", *row, Shown::Number(*cycle as u64)))
            }
            TraceFault::Overlap { row, cycle: _, go } => {
                Some(BrokenRule::at(4, "Overlap", *row, Shown::Number(*go)))
            }
            TraceFault::TooMany { rows } => {
                Some(BrokenRule::at(5, "TooMany", 0, Shown::Number(*rows as u64)))
            }
            TraceFault::FirstNotZero { row, cycle, drain } => {
                let value = value_of_first(*row, *cycle, *drain);
                Some(BrokenRule::at(6, "FirstNotZero", *row, value))
            }
            TraceFault::Memory => None,
        }
    }
}

fn value_of_first(row: u32, cycle: u32, drain: u32) -> Shown
    ensures { result ≡ value_of_first row cycle drain }
{
    if row == 0 {
        Shown::Nothing
    } else if cycle == 0 {
        Shown::Number(drain as u64)
    } else {
        Shown::Number(cycle as u64)
    }
}

impl From<NoMemory> for TraceFault {
    ghost from_gives = { λ _ fault. fault ≡ Memory };

    fn from(_: NoMemory) -> TraceFault {
        TraceFault::Memory
    }
}

impl From<AllocError> for TraceFault {
    ghost from_gives = { λ _ fault. fault ≡ Memory };

    fn from(_: AllocError) -> TraceFault {
        TraceFault::Memory
    }
}

impl<T: Drop> From<AllocFailed<T>> for TraceFault {
    ghost from_gives = { λ _ fault. fault ≡ Memory };

    fn from(_: AllocFailed<T>) -> TraceFault {
        TraceFault::Memory
    }
}

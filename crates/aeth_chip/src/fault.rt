// Why a chip file is refused.
ghost use Rattle.std.specs.Prelude.{◌≡◌};
ghost use Rattle.aeth_chip.specs.Faults.{rule_of};
ghost use Rattle.aeth_chip.specs.declared.fault.ChipFault.TheVariants.{Memory};

use aeth_base::{Broken, BrokenRule, Fault, NoMemory};
use std::alloc::{AllocError, AllocFailed};

/// The first rule that a chip file breaks, with the first place of its walk and the value there; or
/// want of memory.
#[derive(Clone, Copy)]
pub enum ChipFault {
    /// The bytes are no UTF-8 or no TOML. The place is 0, and there is no value.
    BadToml(Broken),
    /// A key is missing, unknown or of another type. The root is place 0, the links follow.
    WrongKey(Broken),
    /// A number is out of its range, or a text is no name. Places count from 1: the version, the
    /// slots, the numbers of routers, interfaces and links, then the names of routers and of
    /// interfaces, then in version 2 the delays of the links.
    OutOfRange(Broken),
    /// A name stands twice in the list of routers and then interfaces.
    NameTwice(Broken),
    /// A link begins or ends at no router or interface. The place is the link.
    UnknownName(Broken),
    /// A router has more than 8 links one way. The place is the router, the value the greater
    /// count.
    TooManyPorts(Broken),
    /// An interface hasn't one link each way that join it to one router. The place is the
    /// interface.
    NiNotSingle(Broken),
    /// There was no memory.
    Memory,
}

impl Fault for ChipFault {
    ghost rule = { rule_of };

    fn broken_rule(&self) -> Option<BrokenRule> {
        match *self {
            ChipFault::BadToml(broken) => Some(broken.breaks(1, "BadToml")),
            ChipFault::WrongKey(broken) => Some(broken.breaks(2, "WrongKey")),
            ChipFault::OutOfRange(broken) => Some(broken.breaks(3, "OutOfRange")),
            ChipFault::NameTwice(broken) => Some(broken.breaks(4, "NameTwice")),
            ChipFault::UnknownName(broken) => Some(broken.breaks(5, "UnknownName")),
            ChipFault::TooManyPorts(broken) => Some(broken.breaks(6, "TooManyPorts")),
            ChipFault::NiNotSingle(broken) => Some(broken.breaks(7, "NiNotSingle")),
            ChipFault::Memory => None,
        }
    }
}

impl From<NoMemory> for ChipFault {
    ghost from_gives = { λ _ fault. fault ≡ Memory };

    fn from(_: NoMemory) -> ChipFault {
        ChipFault::Memory
    }
}

impl From<AllocError> for ChipFault {
    ghost from_gives = { λ _ fault. fault ≡ Memory };

    fn from(_: AllocError) -> ChipFault {
        ChipFault::Memory
    }
}

impl<T: Drop> From<AllocFailed<T>> for ChipFault {
    ghost from_gives = { λ _ fault. fault ≡ Memory };

    fn from(_: AllocFailed<T>) -> ChipFault {
        ChipFault::Memory
    }
}

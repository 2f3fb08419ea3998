// Why an application file is refused.
ghost use Rattle.std.specs.Prelude.{◌≡◌};
ghost use Rattle.aeth_app.specs.Fault.{rule_of};
ghost use Rattle.aeth_app.specs.declared.fault.AppFault.TheVariants.{Memory};

use aeth_base::{Broken, BrokenRule, Fault, NoMemory};

/// The first rule that an application file breaks, with the first place in its walk where it is
/// broken, and the value there.
#[derive(Clone, Copy)]
pub enum AppFault {
    /// The bytes are no UTF-8 or no TOML. The place is 0, and there is no value.
    BadToml(Broken),
    /// A key is missing, unknown or of another type. The root is place 0; the cores follow, then
    /// each connection's own table, its `fwd` and its `back`, then the use cases. In a table it is
    /// the least such key in byte order. The value is the key.
    WrongKey(Broken),
    /// A number is out of its range, a text is no name, or the cost is neither `hops` nor
    /// `pressure`. Places count from 1: the version, the detour, the cost, which has its place also
    /// where it is absent, the numbers of cores, connections and use cases, their names, then for
    /// each connection `fwd` before `back`: `words`, `per`, `latency`, `delay`. The value is the
    /// number, the cost's text, or `Odd` for a name.
    OutOfRange(Broken),
    /// A text stands twice in one list: the cores, the connections, the use cases, or the
    /// connections of a use case. Places run through these lists from 0. The value is the text.
    NameTwice(Broken),
    /// A text names nothing: a core's interface, an end of a connection, a connection of a use
    /// case, a smooth use case. Places run through these from 0. The value is the text.
    UnknownName(Broken),
    /// A wish has more than two words a cycle. The place is twice the connection, and one more
    /// for `back`; the value is the words.
    RateTooHigh(Broken),
    /// A connection leads from a core to itself. The place is the connection, the value the core.
    CoreToItself(Broken),
    /// A core is an end of more than 8 connections. The place is the core, the value their number.
    CoreTooBusy(Broken),
    /// There are more cores than seats. The place is 0, the value the number of cores.
    TooFewSeats(Broken),
    /// More cores are fixed to an interface than it has seats. The place is the interface, the
    /// value their number.
    SeatsOverfull(Broken),
    /// There was no memory.
    Memory,
}

impl Fault for AppFault {
    ghost rule = { rule_of };

    fn broken_rule(&self) -> Option<BrokenRule> {
        match self {
            AppFault::BadToml(broken) => Some(broken.breaks(1, "BadToml")),
            AppFault::WrongKey(broken) => Some(broken.breaks(2, "WrongKey")),
            AppFault::OutOfRange(broken) => Some(broken.breaks(3, "OutOfRange")),
            AppFault::NameTwice(broken) => Some(broken.breaks(4, "NameTwice")),
            AppFault::UnknownName(broken) => Some(broken.breaks(5, "UnknownName")),
            AppFault::RateTooHigh(broken) => Some(broken.breaks(6, "RateTooHigh")),
            AppFault::CoreToItself(broken) => Some(broken.breaks(7, "CoreToItself")),
            AppFault::CoreTooBusy(broken) => Some(broken.breaks(8, "CoreTooBusy")),
            AppFault::TooFewSeats(broken) => Some(broken.breaks(9, "TooFewSeats")),
            AppFault::SeatsOverfull(broken) => Some(broken.breaks(10, "SeatsOverfull")),
            AppFault::Memory => None,
        }
    }
}

impl From<NoMemory> for AppFault {
    ghost from_gives = { λ _ fault. fault ≡ Memory };

    fn from(_: NoMemory) -> AppFault {
        AppFault::Memory
    }
}

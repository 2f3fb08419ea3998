// Why the items of a chain are refused.
ghost use Rattle.std.specs.Prelude.{◌≡◌};
ghost use Rattle.aeth_chain.specs.Fault.{rule_name, rule_number, rule_of};
ghost use Rattle.aeth_chain.specs.declared.fault.ChainFault.TheVariants.{Memory};

use aeth_base::{BrokenRule, Fault, Name, NoMemory, Shown};
use std::alloc::{AllocError, AllocFailed};

/// The rules of a chain's items, each of which is judged over all items before the next.
#[derive(Clone, Copy)]
pub enum ItemRule {
    /// No connection has the name.
    UnknownConnection,
    /// The use case hasn't the connection.
    NotInUse,
    /// The channel doesn't begin at the core at which the one before it ends.
    NotJoined,
    /// The channel stands in an earlier item.
    Repeated,
}

/// The first rule that the items of a chain break.
#[derive(Clone, Copy)]
pub enum ChainFault {
    /// The first item that breaks the rule, counted from 1, and the name of its connection.
    Broken {
        rule: ItemRule,
        item: u32,
        name: Name,
    },
    /// There was no memory.
    Memory,
}

impl ItemRule {
    // The number of the rule, from 1.
    fn number(self) -> u32
        ensures { result ≡ rule_number self }
    {
        match self {
            ItemRule::UnknownConnection => 1,
            ItemRule::NotInUse => 2,
            ItemRule::NotJoined => 3,
            ItemRule::Repeated => 4,
        }
    }

    // The name of the rule.
    fn name(self) -> &'static str
        ensures { result.now ≡ rule_name self }
    {
        match self {
            ItemRule::UnknownConnection => "UnknownConnection",
            ItemRule::NotInUse => "NotInUse",
            ItemRule::NotJoined => "NotJoined",
            ItemRule::Repeated => "Repeated",
        }
    }
}

impl Fault for ChainFault {
    ghost rule = { rule_of };

    fn broken_rule(&self) -> Option<BrokenRule> {
        match self {
            ChainFault::Broken { rule, item, name } => Some(BrokenRule {
                rule: rule.number(),
                name: rule.name(),
                place: *item,
                value: Shown::Word(*name),
            }),
            ChainFault::Memory => None,
        }
    }
}

impl From<NoMemory> for ChainFault {
    ghost from_gives = { λ _ fault. fault ≡ Memory };

    fn from(_: NoMemory) -> ChainFault {
        ChainFault::Memory
    }
}

impl From<AllocError> for ChainFault {
    ghost from_gives = { λ _ fault. fault ≡ Memory };

    fn from(_: AllocError) -> ChainFault {
        ChainFault::Memory
    }
}

impl<T: Drop> From<AllocFailed<T>> for ChainFault {
    ghost from_gives = { λ _ fault. fault ≡ Memory };

    fn from(_: AllocFailed<T>) -> ChainFault {
        ChainFault::Memory
    }
}

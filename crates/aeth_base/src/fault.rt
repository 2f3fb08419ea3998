// Why a file is refused.
ghost use Rattle.aeth_base.specs.Faults.{BrokenRule, broken_as};
ghost use Rattle.std.specs.Prelude.{◌≡◌, Option};

use crate::{Broken, Shown};
use std::marker::Model;

/// The first rule that a file breaks, as its refusal shows it.
#[derive(Clone, Drop)]
pub struct BrokenRule {
    /// The number of the rule among those of such files.
    pub rule: u32,
    /// The name of the rule.
    pub name: &'static str,
    /// The first place of the rule's walk over the file where it is broken.
    pub place: u32,
    /// The value there.
    pub value: Shown,
}

impl Model for BrokenRule {
    ghost use Rattle.aeth_base.specs.Faults.{BrokenRule};

    ghost Value = { BrokenRule };

    ghost view = { λ broken. record {
      rule = broken.rule;
      name = broken.name.now;
      place = broken.place;
      value = broken.value;
    } };
}

impl BrokenRule {
    /// The rule of a number and a name, broken at a place by a value.
    pub fn at(rule: u32, name: &'static str, place: u32, value: Shown) -> BrokenRule
        ensures { result ≡ record { rule = rule; name = name.now; place = place; value = value } }
    {
        BrokenRule {
            rule,
            name,
            place,
            value,
        }
    }
}

impl Broken {
    /// The rule of a number and a name that is broken here.
    pub fn breaks(self, rule: u32, name: &'static str) -> BrokenRule
        ensures { result ≡ broken_as rule name.now self }
    {
        BrokenRule::at(rule, name, self.place, self.value)
    }
}

/// Why a file isn't read: the first rule that it breaks, or want of memory.
pub trait Fault {
    /// The rule that the fault shows, if it shows one.
    ghost rule: { Self → Option BrokenRule };

    /// The first rule that the file breaks. `None` exactly where memory ran out.
    fn broken_rule(&self) -> Option<BrokenRule>
        ensures { result ≡ rule self.now };
}

// What a refusal shows of a file.
ghost use Rattle.aeth_base.specs.Shown.{shown_text};
ghost use Rattle.std.specs.Prelude.{◌≡◌};

use crate::Name;

/// The value that broke a rule, as a refusal shows it.
#[derive(Clone, Copy, Debug, PartialEq, Eq)]
pub enum Shown {
    /// The rule has no value.
    Nothing,
    /// A text that is no name, or a number below 0.
    Odd,
    /// A number from 0 on.
    Number(u64),
    /// A text that is a name.
    Word(Name),
}

/// Where a rule is broken first in its walk over the file, and by which value.
#[derive(Clone, Copy, Debug, PartialEq, Eq)]
pub struct Broken {
    /// The place in the rule's walk.
    pub place: u32,
    /// The value there.
    pub value: Shown,
}

/// A text as a refusal shows it: itself where it is a name, and else only that there is one.
pub fn shown_text(text: &str) -> Shown
    ensures { result ≡ shown_text text.now }
{
    match Name::new(text.as_bytes()) {
        Some(name) => Shown::Word(name),
        None => Shown::Odd,
    }
}

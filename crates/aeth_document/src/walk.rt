// A walk over the checks of a rule.
ghost use Rattle.aeth_document.specs.Arrays.{tables_in, texts_in};
ghost use Rattle.aeth_document.specs.Keys.{fields_view, wrong_key};
ghost use Rattle.aeth_document.specs.Walks.{found_by, no_name, walked};
ghost use Rattle.std.specs.Prelude.{◌≡◌, ◌∷◌, [], is_none, map};

use crate::keys::{Field, wrong_key};
use crate::names::no_name;
use crate::tables::{Tables, Texts};
use aeth_base::{Broken, Shown};

/// A walk over the checks of a rule, one after the other: the place of the next check, or the first
/// check that was broken. Past the last place of 32 bits, which no file reaches, places stand still.
#[derive(Clone, Copy)]
pub enum Walk {
    At(u32),
    Stopped(Broken),
}

impl Walk {
    /// A walk whose first check stands at a place.
    pub fn from(place: u32) -> Walk
        ensures { result ≡ Walk.At place }
    {
        Walk::At(place)
    }

    /// The walk after one more check, which shows the value that breaks it.
    #[tactic(auto, unfolding(crate::specs::Walks::walked))]
    pub fn check(self, check: Option<Shown>) -> Walk
        ensures { result ≡ walked self (check ∷ []) }
    {
        match self {
            Walk::Stopped(broken) => Walk::Stopped(broken),
            Walk::At(place) => match check {
                None => Walk::At(place.saturating_add(1)),
                Some(value) => Walk::Stopped(Broken { place, value }),
            },
        }
    }

    /// The walk after some more checks.
    #[tactic(auto, unfolding(crate::specs::Walks::walked))]
    pub fn checks(self, checks: &[Option<Shown>]) -> Walk
        ensures { result ≡ walked self checks.now }
    {
        let mut walk = self;
        for check in checks {
            walk = walk.check(*check);
        }
        walk
    }

    /// The walk after a check of each table's keys.
    #[tactic(auto, unfolding(crate::specs::Walks::walked))]
    pub fn keys(self, tables: Tables<'_>, fields: &[Field]) -> Walk
        ensures { result ≡ walked self (map (wrong_key (fields_view fields.now)) (tables_in tables.entry)) }
    {
        let mut walk = self;
        for table in tables {
            walk = walk.check(wrong_key(table, fields));
        }
        walk
    }

    /// The walk after a check of each text, which is to be a name.
    #[tactic(auto, unfolding(crate::specs::Walks::walked))]
    pub fn names(self, texts: Texts<'_>) -> Walk
        ensures { result ≡ walked self (map no_name (texts_in texts.entry)) }
    {
        let mut walk = self;
        for text in texts {
            walk = walk.check(no_name(text));
        }
        walk
    }

    /// Whether no check was broken.
    pub fn goes_on(self) -> bool
        ensures { result ≡ is_none (found_by self) }
    {
        match self {
            Walk::At(_) => true,
            Walk::Stopped(_) => false,
        }
    }

    /// The first check that was broken.
    pub fn found(self) -> Option<Broken>
        ensures { result ≡ found_by self }
    {
        match self {
            Walk::At(_) => None,
            Walk::Stopped(broken) => Some(broken),
        }
    }
}

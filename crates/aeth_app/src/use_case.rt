// Use cases: which connections run at one time.

use aeth_base::Name;
use std::marker::Model;

/// A use case: for each connection whether it has it, and for each use case whether it names that
/// one as smooth.
#[derive(Drop)]
pub(crate) struct UseCase {
    pub name: Name,
    pub has: Vec<bool>,
    pub smooth: Vec<bool>,
}

impl Model for UseCase {
    ghost use Rattle.aeth_app.specs.App.{UseData};

    ghost Value = { UseData };

    ghost view = { λ one. record {
      name = one.name;
      has = one.has.items;
      smooth = one.smooth.items;
    } };
}

// What the groups tell of one use case.
ghost use Rattle.std.specs.Prelude.{◌≡◌, IfOk};
ghost use Rattle.aeth_app.specs.App.{is_marked};

use aeth_base::{ConnId, NoMemory};
use std::marker::Model;

/// A use case's group, and for each connection whether the use case has it.
#[derive(Drop)]
pub(crate) struct UseGroup {
    pub group: u32,
    pub has: Vec<bool>,
}

impl Model for UseGroup {
    ghost use Rattle.aeth_group.specs.Members.{UseGroupData};

    ghost Value = { UseGroupData };

    ghost view = { λ one. record { group = one.group; has = one.has.items } };
}

impl UseGroup {
    pub fn copy(&self) -> Result<UseGroup, NoMemory>
        ensures { IfOk result (λ one. one ≡ self.now) }
    {
        let has = self.has.clone()?;
        Ok(UseGroup {
            group: self.group,
            has,
        })
    }

    pub fn has(&self, connection: ConnId) -> bool
        ensures { result ≡ is_marked self.now.has connection.0 }
    {
        match self.has.get(connection.0 as usize) {
            Some(mark) => *mark,
            None => false,
        }
    }
}

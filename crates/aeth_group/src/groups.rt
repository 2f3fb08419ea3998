// The groups of an application.
ghost use Rattle.std.specs.Prelude.{◌≡◌, ◌<◌, ◌≤◌, IfOk, count_by, length, map};
ghost use Rattle.std.specs.List.{range_with_len};
ghost use Rattle.aeth_app.specs.App.{has_connection};
ghost use Rattle.aeth_app.specs.Limits.{max_uses};
ghost use Rattle.aeth_group.specs.AppGroups.{IsGroupsOf};
ghost use Rattle.aeth_group.specs.Members.{IsGroups, are_together, group_at, groups_of, has_at};
ghost use Rattle.aeth_group.specs.Members.{has_unit, is_kept, is_member, units_of};
ghost use Rattle.aeth_group.specs.Rows.{uses_of};

use crate::closing::chained;
use crate::numbering::{class_of, firsts_below};
use crate::rows::rows_of;
use crate::use_group::UseGroup;
use aeth_app::App;
use aeth_base::{ConnId, GroupId, NoMemory, Unit, UseId};
use std::alloc::Global;
use std::marker::Model;

/// The groups of an application's use cases: chains of smooth switches join the use cases of one. A
/// switch within a group keeps the reservations of the connections that both use cases have.
///
/// Groups are numbered from 0 in the order of their least use cases. This project's own.
#[derive(Drop)]
pub struct Groups {
    connections: u32,
    count: u32,
    uses: Vec<UseGroup>,

    // For each group its use cases.
    rows: Vec<Vec<u32>>,
}

impl Model for Groups {
    ghost use Rattle.aeth_group.specs.Members.{GroupsData, IsGroups};
    ghost use Rattle.aeth_group.specs.Rows.{AreRows};

    ghost Value = { GroupsData };

    ghost view = { λ groups. record {
      connections = groups.connections;
      count = groups.count;
      uses = groups.uses.items;
    } };

    ghost invariant = { λ groups. IsGroups (record {
      connections = groups.connections;
      count = groups.count;
      uses = groups.uses.items;
    }) × AreRows groups.uses.items groups.count groups.rows.items };
}

impl Groups {
    /// The groups of an application. `Err` where there was no memory.
    pub fn of(alloc: Global, app: &App) -> Result<Groups, NoMemory>
        ensures groups { IfOk result (λ groups. groups ≡ groups_of app.now) }
        // use cases have one group exactly where a chain of smooth pairs joins them
        ensures joined { IfOk result (IsGroupsOf app.now) }
    {
        let marks = chained(app);
        let count = app.uses();
        let mut uses = Vec::new(alloc);
        for u in 0..count {
            let has = connections_of(alloc, app, UseId(u))?;
            let group = class_of(&marks, count, u);
            uses.push(UseGroup { group, has })?;
        }
        let groups = firsts_below(&marks, count, count);
        let rows = rows_of(alloc, &uses, groups)?;
        Ok(Groups {
            connections: app.connections(),
            count: groups,
            uses,
            rows,
        })
    }

    /// The same groups once more. `Err` where there was no memory.
    pub fn copy(&self, alloc: Global) -> Result<Groups, NoMemory>
        ensures { IfOk result (λ groups. groups ≡ self.now) }
    {
        let mut uses = Vec::new(alloc);
        for one in &self.uses {
            uses.push(one.copy()?)?;
        }
        let rows = rows_of(alloc, &uses, self.count)?;
        Ok(Groups {
            connections: self.connections,
            count: self.count,
            uses,
            rows,
        })
    }

    /// The number of use cases.
    pub fn uses(&self) -> u32
        ensures uses { result ≡ length self.now.uses }
        ensures most { result ≤ max_uses }
    {
        self.uses.len() as u32
    }

    /// Whether a use case is of a unit's group and has its connection.
    pub fn has_unit(&self, u: UseId, unit: Unit) -> bool
        ensures { result ≡ has_unit self.now unit u.0 }
    {
        match self.uses.get(u.0 as usize) {
            Some(one) => one.group == unit.group.0 && one.has(unit.conn),
            None => false,
        }
    }

    /// The number of groups.
    pub fn count(&self) -> u32
        ensures count { result ≡ self.now.count }
        ensures groups { IsGroups self.now }
    {
        self.count
    }

    /// The group of a use case.
    pub fn group_of(&self, u: UseId) -> GroupId
        requires { u.0 < length self.now.uses }
        ensures group { result.0 ≡ group_at self.now u.0 }
        ensures within { result.0 < self.now.count }
    {
        GroupId(self.uses[u.0 as usize].group)
    }

    /// Whether a use case has a connection.
    pub fn has(&self, u: UseId, c: ConnId) -> bool
        requires { u.0 < length self.now.uses }
        ensures { result ≡ has_at self.now u.0 c.0 }
    {
        self.uses[u.0 as usize].has(c)
    }

    /// The use cases of a group, ascending; none where there is no such group.
    pub fn uses_of(&self, g: GroupId) -> &[u32]
        ensures { result.now ≡ uses_of self.now g.0 }
    {
        match self.rows.get(g.0 as usize) {
            Some(row) => row.as_slice(),
            None => &[],
        }
    }

    /// Whether some use case of a group has a connection.
    pub fn member(&self, g: GroupId, c: ConnId) -> bool
        ensures { result ≡ is_member self.now g.0 c.0 }
    {
        let unit = Unit { conn: c, group: g };
        for u in self.uses_of(g) {
            if self.has_unit(UseId(*u), unit) {
                return true;
            }
        }
        false
    }

    /// Whether one use case of a group has both connections: their reservations in the group must
    /// not meet. A connection is together with itself where the group has it.
    pub fn together(&self, g: GroupId, a: ConnId, b: ConnId) -> bool
        ensures { result ≡ are_together self.now g.0 a.0 b.0 }
    {
        self.uses
            .iter()
            .any(|one| one.group == g.0 && one.has(a) && one.has(b))
    }

    /// Whether a switch between two use cases keeps a connection: both have it, and they are in one
    /// group.
    pub fn kept(&self, u: UseId, v: UseId, c: ConnId) -> bool
        requires u { u.0 < length self.now.uses }
        requires v { v.0 < length self.now.uses }
        ensures { result ≡ is_kept self.now u.0 v.0 c.0 }
    {
        let from = &self.uses[u.0 as usize];
        let to = &self.uses[v.0 as usize];
        from.has(c) && to.has(c) && from.group == to.group
    }

    /// The number of units: of pairs of a connection and a group in which some use case has it.
    pub fn units(&self) -> u32
        ensures { result ≡ length (units_of self.now) }
    {
        let mut units = 0;
        for c in 0..self.connections {
            units += self.groups_with(ConnId(c));
        }
        units
    }

    /// How many groups have a connection.
    fn groups_with(&self, c: ConnId) -> u32
        ensures groups { result ≡ count_by (λ g. is_member self.now g c.0)
            (range_with_len 0 self.now.count) }
        ensures within { result ≤ self.now.count }
    {
        let mut groups = 0;
        for g in 0..self.count {
            if self.member(GroupId(g), c) {
                groups += 1;
            }
        }
        groups
    }
}

/// For each connection whether a use case has it.
fn connections_of(alloc: Global, app: &App, u: UseId) -> Result<Vec<bool>, NoMemory>
    requires { u.0 < length app.now.uses }
    ensures { IfOk result (λ has. has.items
        ≡ map (has_connection app.now.uses u.0) (range_with_len 0 (length app.now.connections))) }
{
    let mut has = Vec::new(alloc);
    for c in 0..app.connections() {
        has.push(app.has(u, ConnId(c)))?;
    }
    Ok(has)
}

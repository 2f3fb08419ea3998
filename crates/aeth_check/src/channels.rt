// Rules 3 and 4: units and their sides.
ghost use Rattle.aeth_check.specs.Channels.{first_lacking, has_side};
ghost use Rattle.aeth_check.specs.Channels.{lacking_side};
ghost use Rattle.aeth_check.specs.Firsts.{first_line};
ghost use Rattle.aeth_check.specs.Verdict.{lacking, stranger};
ghost use Rattle.aeth_group.specs.Members.{is_member, units_of, units_with};
ghost use Rattle.aeth_plan.specs.Plan.{grant_before};
ghost use Rattle.aeth_plan.specs.UnitGrants.{is_before, is_for};
ghost use Rattle.aeth_text.specs.Order.{Rises};
ghost use Rattle.std.specs.Prelude.{◌≡◌, not};

use crate::lines::grants_begin;
use crate::verdict::Verdict;
use aeth_base::{ConnId, GroupId, Side, Unit};
use aeth_group::{Grant, Groups};
use aeth_plan::{Plan, is_before, is_for};
use aeth_text::line_after;

/// The line of the first grant whose connection is in no use case of its group.
fn first_stranger(groups: &Groups, first: u32, grants: &[Grant]) -> Option<u32>
    ensures { result ≡ first_line
        (λ grant. not (is_member groups.now grant.unit.group.0 grant.unit.conn.0)) first
        grants.now }
{
    let mut line = first;
    for grant in grants {
        if !groups.member(grant.unit.group, grant.unit.conn) {
            return Some(line);
        }
        line = line_after(line, 1);
    }
    None
}

/// Rule 3: a grant's connection is in no use case of its group.
#[tactic(auto, unfolding(crate::specs::Verdict::stranger))]
pub(crate) fn stranger(groups: &Groups, plan: &Plan) -> Option<Verdict>
    ensures { result ≡ stranger groups.now plan.now }
{
    let line = first_stranger(groups, grants_begin(plan), plan.grants())?;
    Some(Verdict::Broken {
        rule: 3,
        line,
        other: 0,
    })
}

/// Whether some grant is for a side of a unit, by a search by halves.
fn has_side(grants: &[Grant], unit: Unit, side: Side) -> bool
    requires { Rises grant_before grants.now }
    ensures { result ≡ has_side grants.now unit side }
{
    let mut low = 0;
    let mut high = grants.len();
    'halves: while low < high {
        let middle = low + (high - low) / 2;
        if is_before(unit, side, &grants[middle]) {
            low = middle + 1;
        } else {
            high = middle;
        }
    }
    low < grants.len() && is_for(unit, side, &grants[low])
}

/// Whether some grant is for a side of a unit. The grant at a place is looked at first.
fn has_side_near(grants: &[Grant], place: usize, unit: Unit, side: Side) -> bool
    requires { Rises grant_before grants.now }
    ensures { result ≡ has_side grants.now unit side }
{
    if place < grants.len() && is_for(unit, side, &grants[place]) {
        return true;
    }
    has_side(grants, unit, side)
}

/// The first side of a unit without a grant. The grants from a place on are looked at first.
fn lacking_side(grants: &[Grant], place: usize, unit: Unit) -> Option<Side>
    requires { Rises grant_before grants.now }
    ensures { result ≡ lacking_side grants.now unit }
{
    if !has_side_near(grants, place, unit, Side::Fwd) {
        return Some(Side::Fwd);
    }
    if !has_side_near(grants, place.saturating_add(1), unit, Side::Back) {
        return Some(Side::Back);
    }
    None
}

/// The first side without a grant of the units of a connection. The grants of the units stand one
/// behind the other, so they are looked for from a place on, which goes on by two with each unit.
#[tactic(auto, using(aeth_base::proofs::Ranges::range_more))]
fn lacking_with(
    grants: &[Grant],
    place: &mut usize,
    groups: &Groups,
    conn: ConnId,
) -> Option<(Unit, Side)>
    requires { Rises grant_before grants.now }
    ensures { result ≡ first_lacking grants.now (units_with groups.now conn.0) }
{
    for g in 0..groups.count() {
        let group = GroupId(g);
        if groups.member(group, conn) {
            let unit = Unit { conn, group };
            if let Some(side) = lacking_side(grants, *place, unit) {
                return Some((unit, side));
            }
            *place = place.saturating_add(2);
        }
    }
    None
}

/// The first side of a unit without a grant.
#[tactic(auto, using(aeth_base::proofs::Ranges::range_more))]
fn first_lacking(grants: &[Grant], groups: &Groups, connections: u32) -> Option<(Unit, Side)>
    requires order { Rises grant_before grants.now }
    requires connections { groups.now.connections ≡ connections }
    ensures { result ≡ first_lacking grants.now (units_of groups.now) }
{
    let mut place = 0;
    for c in 0..connections {
        if let Some(found) = lacking_with(grants, &mut place, groups, ConnId(c)) {
            return Some(found);
        }
    }
    None
}

/// Rule 4: a unit lacks a side.
#[tactic(auto, unfolding(crate::specs::Verdict::lacking))]
pub(crate) fn lacking(groups: &Groups, connections: u32, plan: &Plan) -> Option<Verdict>
    requires order { Rises grant_before plan.now.grants }
    requires connections { groups.now.connections ≡ connections }
    ensures { result ≡ lacking groups.now plan.now }
{
    let (unit, side) = first_lacking(plan.grants(), groups, connections)?;
    Some(Verdict::Missing { unit, side })
}

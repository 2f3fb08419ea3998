// The grants for a side of a unit, in a plan's order.
ghost use Rattle.aeth_plan.specs.UnitGrants.{is_before, is_for};
ghost use Rattle.std.specs.Prelude.{◌≡◌};

use aeth_base::{Side, Unit};
use aeth_group::Grant;

/// Whether a grant is for a side of a unit.
pub fn is_for(unit: Unit, side: Side, grant: &Grant) -> bool
    ensures { result ≡ is_for unit side grant.now }
{
    grant.unit.conn.0 == unit.conn.0 && grant.unit.group.0 == unit.group.0 && grant.side.is(side)
}

/// Whether a grant comes before those for a side of a unit.
pub fn is_before(unit: Unit, side: Side, grant: &Grant) -> bool
    ensures { result ≡ is_before unit side grant.now }
{
    if grant.unit.conn.0 != unit.conn.0 {
        return grant.unit.conn.0 < unit.conn.0;
    }
    if grant.unit.group.0 != unit.group.0 {
        return grant.unit.group.0 < unit.group.0;
    }
    match grant.side {
        Side::Fwd => match side {
            Side::Fwd => false,
            Side::Back => true,
        },
        Side::Back => false,
    }
}

// The order of a plan's lines.
ghost use Rattle.std.specs.Prelude.{◌≡◌, None, OnOk};
ghost use Rattle.aeth_base.specs.Faults.{Reads};
ghost use Rattle.aeth_text.specs.Order.{misplaced};
ghost use Rattle.aeth_plan.specs.Plan.{grant_before, seat_before};
ghost use Rattle.aeth_plan.specs.Rules.{ordered};
ghost use Rattle.aeth_plan.specs.Refusals.{rule_of};

use crate::fault::PlanFault;
use aeth_base::Side;
use aeth_group::{Grant, SeatLine};
use aeth_text::line_after;

fn grant_before(a: &Grant, b: &Grant) -> bool
    ensures { result ≡ grant_before a.now b.now }
{
    if a.unit.conn.0 != b.unit.conn.0 {
        return a.unit.conn.0 < b.unit.conn.0;
    }
    if a.unit.group.0 != b.unit.group.0 {
        return a.unit.group.0 < b.unit.group.0;
    }
    match a.side {
        Side::Fwd => match b.side {
            Side::Fwd => false,
            Side::Back => true,
        },
        Side::Back => false,
    }
}

/// Each seat comes after the one before it; the first has the line `first`.
pub(crate) fn seats_in_order(first: u32, seats: &[SeatLine]) -> Result<(), PlanFault>
    ensures gives { Reads rule_of (λ u. u) result
        (ordered (misplaced seat_before first seats.now)) }
    ensures ok { OnOk result (misplaced seat_before first seats.now ≡ None) }
{
    let [head, rest @ ..] = seats else {
        return Ok(());
    };
    let mut last = *head;
    let mut line = first;
    for seat in rest {
        line = line_after(line, 1);
        if last.core.0 >= seat.core.0 {
            return Err(PlanFault::WrongOrder { line });
        }
        last = *seat;
    }
    Ok(())
}

/// Each grant comes after the one before it; the first has the line `first`.
pub(crate) fn grants_in_order(first: u32, grants: &[Grant]) -> Result<(), PlanFault>
    ensures gives { Reads rule_of (λ u. u) result
        (ordered (misplaced grant_before first grants.now)) }
    ensures ok { OnOk result (misplaced grant_before first grants.now ≡ None) }
{
    let [head, rest @ ..] = grants else {
        return Ok(());
    };
    let mut last = *head;
    let mut line = first;
    for grant in rest {
        line = line_after(line, 1);
        if !grant_before(&last, grant) {
            return Err(PlanFault::WrongOrder { line });
        }
        last = *grant;
    }
    Ok(())
}

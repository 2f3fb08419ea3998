// The seats of cores and the grants of units, found in a plan, whose lines are in order.
ghost use Rattle.aeth_base.specs.declared.ids.Side.TheVariants.{Back, Fwd};
ghost use Rattle.aeth_plan.specs.Plan.{grant_before, seat_before};
ghost use Rattle.aeth_plan.specs.UnitGrants.{is_before, is_for};
ghost use Rattle.aeth_tables.specs.Granted.{grant_of, line_of};
ghost use Rattle.aeth_text.specs.Order.{Rises};
ghost use Rattle.std.specs.List.Sorted.{IsPartitionPoint};
ghost use Rattle.std.specs.Prelude.{◌≡◌, ◌==◌, None, Some, false, if◌then◌else◌, nat_lt};
ghost use Rattle.std.specs.Prelude.{option_copied, true};

use aeth_base::{CoreId, Side, Unit};
use aeth_group::{Grant, SeatLine};
use aeth_plan::{is_before, is_for};

/// How many lines seat cores before this one. It halves what is left in each step.
fn seats_before(seats: &[SeatLine], core: CoreId) -> usize
    requires { Rises seat_before seats.now }
    ensures { IsPartitionPoint (λ line. nat_lt line.core.0 core.0 ≡ true)
        (λ line. nat_lt line.core.0 core.0 ≡ false) seats.now result }
{
    seats.partition_point(|line| line.core.0 < core.0)
}

/// The line, where it seats a core.
fn kept_seat(core: CoreId, line: &SeatLine) -> Option<SeatLine>
    ensures { result ≡ (if line.now.core.0 == core.0 then Some line.now else None) }
{
    if line.core.0 == core.0 {
        Some(*line)
    } else {
        None
    }
}

/// The line that seats a core, if one does. Where all cores are seated, it stands at the core's number:
/// there it is looked for first.
pub(crate) fn line_of(seats: &[SeatLine], core: CoreId) -> Option<SeatLine>
    requires { Rises seat_before seats.now }
    ensures { result ≡ line_of seats.now core }
{
    let place = core.0 as usize;
    if place < seats.len() && seats[place].core.0 == core.0 {
        return Some(seats[place]);
    }
    match seats.get(seats_before(seats, core)) {
        None => None,
        Some(line) => kept_seat(core, line),
    }
}

/// How many grants come before those for a side of a unit. It halves what is left in each step.
fn grants_before(grants: &[Grant], unit: Unit, side: Side) -> usize
    requires { Rises grant_before grants.now }
    ensures { IsPartitionPoint (λ grant. is_before unit side grant ≡ true)
        (λ grant. is_before unit side grant ≡ false) grants.now result }
{
    grants.partition_point(|grant| is_before(unit, side, grant))
}

/// The grant, where it is for a side of a unit.
fn kept_for<'a>(unit: Unit, side: Side, grant: &'a Grant) -> Option<&'a Grant>
    ensures { option_copied result
        ≡ (if is_for unit side grant.now then Some grant.now else None) }
{
    if is_for(unit, side, grant) {
        Some(grant)
    } else {
        None
    }
}

/// The grant for a side of a unit, if it has one.
fn grant_of<'a>(grants: &'a [Grant], unit: Unit, side: Side) -> Option<&'a Grant>
    requires { Rises grant_before grants.now }
    ensures { option_copied result ≡ grant_of grants.now side unit }
{
    match grants.get(grants_before(grants, unit, side)) {
        None => None,
        Some(grant) => kept_for(unit, side, grant),
    }
}

/// The same, where the grant at a place is looked at first.
fn grant_near<'a>(grants: &'a [Grant], place: usize, unit: Unit, side: Side) -> Option<&'a Grant>
    requires { Rises grant_before grants.now }
    ensures { option_copied result ≡ grant_of grants.now side unit }
{
    if place < grants.len() && is_for(unit, side, &grants[place]) {
        return Some(&grants[place]);
    }
    grant_of(grants, unit, side)
}

/// The grants for the two sides of a unit, those that it has. They stand one behind the other.
pub(crate) fn grants_of<'a>(
    grants: &'a [Grant],
    unit: Unit,
) -> (Option<&'a Grant>, Option<&'a Grant>)
    requires { Rises grant_before grants.now }
    ensures fwd { option_copied result.0 ≡ grant_of grants.now Fwd unit }
    ensures back { option_copied result.1 ≡ grant_of grants.now Back unit }
{
    grants_near(grants, grants_before(grants, unit, Side::Fwd), unit)
}

/// The same, where the grants at a place and behind it are looked at first.
pub(crate) fn grants_near<'a>(
    grants: &'a [Grant],
    place: usize,
    unit: Unit,
) -> (Option<&'a Grant>, Option<&'a Grant>)
    requires { Rises grant_before grants.now }
    ensures fwd { option_copied result.0 ≡ grant_of grants.now Fwd unit }
    ensures back { option_copied result.1 ≡ grant_of grants.now Back unit }
{
    let fwd = grant_near(grants, place, unit, Side::Fwd);
    let back = grant_near(grants, place.saturating_add(1), unit, Side::Back);
    (fwd, back)
}

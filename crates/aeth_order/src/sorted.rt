// Units in their own order, of which the first stands last, and which of them waits first.
ghost use Rattle.std.specs.Prelude.{◌≡◌, ◌<◌, Contains, IfOk, IfSome, true, false, length, slice_index_or};
ghost use Rattle.std.specs.List.Sorted.{IsPermutation};
ghost use Rattle.aeth_order.specs.Grid.{Falls, IsFound, nobody, waits, waits_seated};
ghost use Rattle.aeth_order.specs.Units.{is_unit};
ghost use Rattle.aeth_order.specs.declared.keys.UnitKeys.{UnitKeys};

use crate::keys::UnitKeys;
use aeth_app::MAX_USES;
use aeth_base::{NoMemory, Unit};
use aeth_seats::Seats;

/// The units in their own order, of which the first stands last.
pub(crate) fn in_order(units: Vec<UnitKeys>) -> Result<Vec<UnitKeys>, NoMemory>
    ensures same { IfOk result (λ sorted. IsPermutation units.items sorted.items) }
    ensures falls { IfOk result (λ sorted. Falls sorted.items) }
{
    let mut sorted = units;
    sorted.sort_by(|a, b| b.order(a))?;
    Ok(sorted)
}

/// Whether a unit waits.
fn waits(marks: &[bool], unit: &UnitKeys) -> bool
    ensures { result ≡ waits marks.now unit.now }
{
    let place = MAX_USES as usize * unit.unit.conn.0 as usize + unit.unit.group.0 as usize;
    marks.get(place).copied().unwrap_or(false)
}

// Whether it waits and has a core with a seat.
fn waits_seated(marks: &[bool], seats: &Seats, unit: &UnitKeys) -> bool
    ensures { result ≡ waits_seated marks.now seats.now.places unit.now }
{
    unit.seat_key(seats) == 0 && waits(marks, unit)
}

// The last place of a unit, if it has one.
fn place_of(order: &[UnitKeys], unit: Unit) -> Option<usize>
    ensures within { IfSome result (λ at. at < length order.now) }
    ensures unit { IfSome result (λ at. is_unit unit (slice_index_or order.now at nobody) ≡ true) }
{
    let mut left = order.len();
    while left > 0 {
        left -= 1;
        if order[left].is_unit(unit) {
            return Some(left);
        }
    }
    None
}

/// Takes a unit out, where it is among these.
pub(crate) fn take_out(order: &mut Vec<UnitKeys>, unit: Unit)
    requires { Falls order.old.items }
    ensures falls { Falls order.new.items }
    ensures among { (a : UnitKeys) → Contains order.new.items a → Contains order.old.items a }
    ensures others { (a : UnitKeys) → Contains order.old.items a → is_unit unit a ≡ false
        → Contains order.new.items a }
{
    if let Some(at) = place_of(order, unit) {
        order.remove(at);
    }
}

/// The first that waits.
pub(crate) fn first_waiting(order: &[UnitKeys], marks: &[bool]) -> Option<UnitKeys>
    requires { Falls order.now }
    ensures { IsFound (waits marks.now) order.now result }
{
    let mut left = order.len();
    while left > 0 {
        left -= 1;
        if waits(marks, &order[left]) {
            return Some(order[left]);
        }
    }
    None
}

/// The first that waits and has a core with a seat.
pub(crate) fn first_seated(order: &[UnitKeys], marks: &[bool], seats: &Seats) -> Option<UnitKeys>
    requires { Falls order.now }
    ensures { IsFound (waits_seated marks.now seats.now.places) order.now result }
{
    let mut left = order.len();
    while left > 0 {
        left -= 1;
        if waits_seated(marks, seats, &order[left]) {
            return Some(order[left]);
        }
    }
    None
}

//! What the next unit is, over the definitions alone.
ghost use Rattle.std.specs.Prelude.{◌≡◌, ◌↔◌, [], List, None, Option, Some};
ghost use Rattle.aeth_base.specs.declared.ids.Unit.{Unit};
ghost use Rattle.aeth_seats.specs.Places.{Place};
ghost use Rattle.aeth_order.specs.Turn.{IsNext};
ghost use Rattle.aeth_order.specs.Units.{UnitsData, next_unit};

/// The unit whose turn is next waits, and none that waits comes before it by the five keys. There
/// is none exactly where none waits.
pub fn turns()
    ensures next { (units : UnitsData) (places : List (Option Place)) (unit : Unit)
        → next_unit units places ≡ Some unit → IsNext units places unit }
    ensures none { (units : UnitsData) (places : List (Option Place))
        → (next_unit units places ≡ None) ↔ (units.waiting ≡ []) }
{}

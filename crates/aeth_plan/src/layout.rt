// Where the lines of a plan text stand.
ghost use Rattle.aeth_plan.specs.Layout.{first_grant_line};
ghost use Rattle.std.specs.Prelude.{◌≡◌};

use aeth_text::line_after;

/// The line of the first seat, behind the line of the plan.
pub const FIRST_SEAT_LINE: u32 = 2;

/// The line of the first grant, behind the lines of these seats.
pub fn first_grant_line<X>(seats: &[X]) -> u32
    ensures { result ≡ first_grant_line seats.now }
{
    line_after(FIRST_SEAT_LINE, seats.len())
}

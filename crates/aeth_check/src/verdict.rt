// What a check of a plan answers.

use aeth_base::{Side, Unit};

/// Whether a plan is accepted, or the first rule that it breaks. Lines are those of the printed
/// plan, and count from 1.
#[derive(Clone, Copy)]
pub enum Verdict {
    /// No rule fails.
    Accepted,
    /// Rule 4: the unit lacks a grant for this side, the first such side by connection, group and
    /// side.
    Missing { unit: Unit, side: Side },
    /// Another rule fails, 1 to 7. In the rules 1 and 7 the lines are the least pair that fails,
    /// and else `line` is the first that does and `other` is 0. In rule 2 the first core that is
    /// fixed elsewhere is judged, and `line` is that of its seat, or 0 where it has none.
    Broken { rule: u8, line: u32, other: u32 },
}

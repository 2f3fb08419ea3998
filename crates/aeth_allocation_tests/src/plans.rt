// Plans that were worked out by hand: that they are read, printed and made where memory is left, and what switches take by
// them.
use crate::apps::{LOCAL, ONE, TWO};
use crate::chips::PAIR;
use crate::setups::Question::OfPlan;
use crate::setups::{Row, wrong_row};
use crate::texts::AskedOfPlan::{Made, Spans, Text};

/// A plan for the connection of `one`.
const PLAN: &str = "plan 1 8
seat cpu n0 0
seat mem n1 0
grant c0 0 fwd 0,4,3 0,4
grant c0 0 back 2,5,1 0
end
";

/// No line but the first and the last.
const EMPTY: &str = "plan 1 8
end
";

/// The last seat of an interface, the most links of a path, and all starts.
const FULL: &str = "plan 1 8
seat mem n0 3
grant c0 0 back 0,0,0,0,0,0,0,0 0,1,2,3,4,5,6,7
end
";

/// A plan for the two connections of `local`.
const LOCAL_PLAN: &str = "plan 1 8
seat cpu n0 0
seat mem n1 0
seat dsp n0 1
grant c0 0 fwd 0,4,3 0,4
grant c0 0 back 2,5,1 0
grant c1 0 fwd 0,1 2
grant c1 0 back 0,1 3
end
";

/// A plan for those of `two`.
const TWO_PLAN: &str = "plan 1 8
seat cpu n0 0
seat mem n1 0
seat dsp n0 1
grant c0 0 fwd 0,4,3 0,4
grant c0 0 back 2,5,1 0
grant c1 0 fwd 0,4,3 1
grant c1 0 back 2,5,1 1
end
";

/// A chip, an application, a plan, and what is asked of it.
static ROWS: &[Row] = &[
    (PAIR, ONE, OfPlan(PLAN, Text)),
    (PAIR, ONE, OfPlan(EMPTY, Text)),
    (PAIR, ONE, OfPlan(FULL, Text)),
    (PAIR, ONE, OfPlan(PLAN, Made(8, 2, 2))),
    (PAIR, LOCAL, OfPlan(LOCAL_PLAN, Spans(&[(0, 0)]))),
    (
        PAIR,
        TWO,
        OfPlan(TWO_PLAN, Spans(&[(0, 0), (0, 4), (3, 4), (0, 0)])),
    ),
];

#[test]
fn plans_are_as_worked_out(rt: HostRuntime) {
    assert_eq!(rt; wrong_row(rt.alloc(), ROWS), None);
}

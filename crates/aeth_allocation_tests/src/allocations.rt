// Allocations that were worked out by hand: what is left where a unit is refused, which no command
// prints, and a cost that no application names.
use crate::apps::{ONE, ROLL};
use crate::chips::{PAIR, SLOW_TWIN};
use crate::outcomes::{AskedOfAllocation, Price};
use crate::setups::Question::OfAllocation;
use crate::setups::{Row, wrong_row};
use aeth_alloc::Refused;
use aeth_base::{ConnId, GroupId, Side, Unit};

/// The seat and the slots of the first connection, which is refused back, were given back.
const ROLLED_BACK: AskedOfAllocation = AskedOfAllocation {
    price: Price::OfApplication,
    plan: "plan 1 8
seat cpu n0 0
seat aux n0 1
grant c1 0 fwd 0,1 0
grant c1 0 back 0,1 1
end
",
    refused: &[Refused {
        unit: Unit {
            conn: ConnId(0),
            group: GroupId(0),
        },
        side: Side::Back,
        turn: 1,
    }],
};

/// Of two links that lead over the faster one costs less.
const FASTER: AskedOfAllocation = AskedOfAllocation {
    price: Price::Delay,
    plan: "plan 1 8
seat cpu n0 0
seat mem n1 0
grant c0 0 fwd 0,6,3 0,4
grant c0 0 back 2,5,1 0
end
",
    refused: &[],
};

/// A chip, an application, and what is asked of the allocation.
static ROWS: &[Row] = &[
    (PAIR, ROLL, OfAllocation(ROLLED_BACK)),
    (SLOW_TWIN, ONE, OfAllocation(FASTER)),
];

#[test]
fn allocations_are_as_worked_out(rt: HostRuntime) {
    assert_eq!(rt; wrong_row(rt.alloc(), ROWS), None);
}

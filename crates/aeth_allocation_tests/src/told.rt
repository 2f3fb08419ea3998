// What applications and their groups tell, as it was worked out by hand.
use crate::apps::{SPLIT, TWO};
use crate::chips::PAIR;
use crate::parts::AskedOfApp::{Numbers, Parts, Position};
use crate::parts::AskedOfGroups;
use crate::setups::Question::{OfApp, OfGroups};
use crate::setups::{Row, wrong_row};
use aeth_base::{ConnId, CoreId, UseId};

/// One group: a switch between the use cases is smooth.
const JOINED: AskedOfGroups = AskedOfGroups {
    counts: [1, 2],
    had: [true, false, true, true],
    kept: [true, false],
    together: [true, false],
    members: [true, false],
    units: [true, false],
};

/// Two groups.
const APART: AskedOfGroups = AskedOfGroups {
    counts: [2, 3],
    had: [true, false, true, true],
    kept: [false, false],
    together: [false, true],
    members: [false, true],
    units: [true, true],
};

/// The pair, an application, and what is asked of it or of its groups.
static ROWS: &[Row] = &[
    (PAIR, TWO, OfApp(Numbers([8, 0, 3, 2, 2], true))),
    // A name is sought among parts of each kind.
    (
        PAIR,
        TWO,
        OfApp(Parts("cpu", (Some(CoreId(0)), None, None))),
    ),
    (
        PAIR,
        TWO,
        OfApp(Parts("dsp", (Some(CoreId(2)), None, None))),
    ),
    (PAIR, TWO, OfApp(Parts("c0", (None, Some(ConnId(0)), None)))),
    (PAIR, TWO, OfApp(Parts("c1", (None, Some(ConnId(1)), None)))),
    (PAIR, TWO, OfApp(Parts("u0", (None, None, Some(UseId(0)))))),
    (PAIR, TWO, OfApp(Parts("u1", (None, None, Some(UseId(1)))))),
    (PAIR, TWO, OfApp(Parts("u2", (None, None, None)))),
    // Connections at their ends, and at a core that is none of these.
    (PAIR, TWO, OfApp(Position(0, 0, Some(0)))),
    (PAIR, TWO, OfApp(Position(1, 0, Some(0)))),
    (PAIR, TWO, OfApp(Position(2, 1, Some(0)))),
    (PAIR, TWO, OfApp(Position(1, 1, Some(1)))),
    (PAIR, TWO, OfApp(Position(0, 1, None))),
    (PAIR, TWO, OfApp(Position(2, 0, None))),
    (PAIR, TWO, OfGroups(JOINED)),
    (PAIR, SPLIT, OfGroups(APART)),
];

#[test]
fn applications_and_groups_tell_their_parts(rt: HostRuntime) {
    assert_eq!(rt; wrong_row(rt.alloc(), ROWS), None);
}

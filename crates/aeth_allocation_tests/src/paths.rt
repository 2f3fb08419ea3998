// First paths and costs, as they were worked out by hand.
use crate::apps::{CORNERS, TWO};
use crate::chips::{MESH, PAIR, TRIANGLE, TWIN};
use crate::costs::three_costs;
use crate::grants::AskedOfBook::First;
use crate::searches::{Answer, Price, Search};
use crate::setups::Question::OfBook;
use crate::setups::{Row, wrong_row};
use aeth_base::NiId;

const FIRST_NI: &[NiId] = &[NiId(0)];

const SECOND_NI: &[NiId] = &[NiId(1)];

const BOTH_NIS: &[NiId] = &[NiId(0), NiId(1)];

/// The first connection has slots 0 and 4.
const GRANTED: &[(u32, u64)] = &[(0, 0b1_0001)];

/// The second connection, from the first interface to the second.
const ACROSS: Search = Search {
    conn: 1,
    latency: 12,
    detour: 0,
    from: FIRST_NI,
    to: SECOND_NI,
    crowded: &[],
};

const TOO_FAST: Search = Search {
    latency: 2,
    ..ACROSS
};

const FROM_CORNER_TO_CORNER: Search = Search {
    conn: 0,
    latency: 100,
    to: &[NiId(15)],
    ..ACROSS
};

const TO_ITSELF: Search = Search {
    to: FIRST_NI,
    ..ACROSS
};

const TO_ITSELF_CROWDED: Search = Search {
    to: FIRST_NI,
    crowded: FIRST_NI,
    ..ACROSS
};

const ALL_PAIRS: Search = Search {
    from: BOTH_NIS,
    to: BOTH_NIS,
    ..ACROSS
};

const ALL_PAIRS_CROWDED: Search = Search {
    from: BOTH_NIS,
    to: BOTH_NIS,
    crowded: BOTH_NIS,
    ..ACROSS
};

const WITH_DETOUR: Search = Search {
    detour: 1,
    ..ACROSS
};

/// A chip, an application, grants, and what is asked then.
static ROWS: &[Row] = &[
    // The first slot; the first that is free; none where a path would have to be as fast as 2 cycles.
    (
        PAIR,
        TWO,
        OfBook(&[], First(Price::Links, ACROSS, Answer(&[0, 4, 3], 0b1))),
    ),
    (
        PAIR,
        TWO,
        OfBook(
            GRANTED,
            First(Price::Links, ACROSS, Answer(&[0, 4, 3], 0b10)),
        ),
    ),
    (
        PAIR,
        TWO,
        OfBook(&[], First(Price::Links, TOO_FAST, Answer(&[], 0))),
    ),
    // Over seven hops.
    (
        MESH,
        CORNERS,
        OfBook(
            &[],
            First(
                Price::Links,
                FROM_CORNER_TO_CORNER,
                Answer(&[0, 32, 36, 40, 44, 58, 72, 31], 0b1),
            ),
        ),
    ),
    // Two links through one router, unless the interface is crowded.
    (
        PAIR,
        TWO,
        OfBook(&[], First(Price::Links, TO_ITSELF, Answer(&[0, 1], 0b1))),
    ),
    (
        PAIR,
        TWO,
        OfBook(&[], First(Price::Links, TO_ITSELF_CROWDED, Answer(&[], 0))),
    ),
    (
        PAIR,
        TWO,
        OfBook(&[], First(Price::Links, ALL_PAIRS, Answer(&[0, 1], 0b1))),
    ),
    (
        PAIR,
        TWO,
        OfBook(
            &[],
            First(Price::Links, ALL_PAIRS_CROWDED, Answer(&[0, 4, 3], 0b1)),
        ),
    ),
    // At one cost the lower link, and where used slots cost, the link that is used less.
    (
        TWIN,
        TWO,
        OfBook(&[], First(Price::Pressure, ACROSS, Answer(&[0, 4, 3], 0b1))),
    ),
    (
        TWIN,
        TWO,
        OfBook(
            GRANTED,
            First(Price::Links, ACROSS, Answer(&[0, 4, 3], 0b10)),
        ),
    ),
    (
        TWIN,
        TWO,
        OfBook(
            GRANTED,
            First(Price::Pressure, ACROSS, Answer(&[0, 6, 3], 0b10)),
        ),
    ),
    // At one cost fewer links, though the other path has lower ones.
    (
        TRIANGLE,
        TWO,
        OfBook(
            &[],
            First(Price::Delay, WITH_DETOUR, Answer(&[0, 6, 3], 0b1)),
        ),
    ),
];

#[test]
fn first_paths_are_found(rt: HostRuntime) {
    assert_eq!(rt; wrong_row(rt.alloc(), ROWS), None);
}

#[test]
fn costs_are_those_of_their_function(rt: HostRuntime) {
    assert_eq!(rt; three_costs(), [200, 607, 928]);
}

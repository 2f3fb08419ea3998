// What a book tells of grants, as it was worked out by hand.
use crate::apps::{LOCAL, SMOOTH, SPLIT, TWO};
use crate::chips::PAIR;
use crate::grants::AskedOfBook::{Narrowed, Starts, TakenOff, Used};
use crate::setups::Question::OfBook;
use crate::setups::{Row, wrong_row};

/// The first connection has slots 0 and 4.
const FIRST: &[(u32, u64)] = &[(0, 0b1_0001)];

/// Then the second has slot 7.
const BOTH: &[(u32, u64)] = &[(0, 0b1_0001), (1, 0b1000_0000)];

/// The links from the first interface to the second.
const OVER: &[u32] = &[0, 4, 3];

/// The pair, an application, grants, and what is asked then.
static ROWS: &[Row] = &[
    // Free starts: taken where a use case of the group has both connections, past the wrap too.
    (PAIR, TWO, OfBook(&[], Starts(1, 0, OVER, 0b1111_1111))),
    (PAIR, TWO, OfBook(FIRST, Starts(0, 0, OVER, 0b1110_1110))),
    (PAIR, TWO, OfBook(FIRST, Starts(1, 0, OVER, 0b1110_1110))),
    (PAIR, TWO, OfBook(FIRST, Starts(1, 0, &[4], 0b1101_1101))),
    (PAIR, TWO, OfBook(BOTH, Starts(0, 0, &[3], 0b1011_1001))),
    (PAIR, LOCAL, OfBook(FIRST, Starts(1, 0, OVER, 0b1110_1110))),
    (PAIR, SMOOTH, OfBook(FIRST, Starts(0, 0, OVER, 0b1110_1110))),
    (PAIR, SMOOTH, OfBook(FIRST, Starts(1, 0, OVER, 0b1111_1111))),
    (PAIR, SPLIT, OfBook(FIRST, Starts(0, 1, OVER, 0b1111_1111))),
    (PAIR, SPLIT, OfBook(FIRST, Starts(1, 1, OVER, 0b1111_1111))),
    // Used slots: the most of one use case, of which the second has both connections.
    (PAIR, TWO, OfBook(FIRST, Used(0, 0, 2))),
    (PAIR, TWO, OfBook(FIRST, Used(1, 4, 2))),
    (PAIR, TWO, OfBook(BOTH, Used(0, 0, 3))),
    (PAIR, TWO, OfBook(BOTH, Used(1, 4, 3))),
    (PAIR, TWO, OfBook(BOTH, Used(0, 1, 0))),
    // What one link leaves.
    (PAIR, TWO, OfBook(FIRST, Narrowed(4, 0, 0b1101_1101))),
    (PAIR, TWO, OfBook(FIRST, Narrowed(4, 1, 0b1110_1110))),
    (PAIR, TWO, OfBook(FIRST, Narrowed(4, 15, 0b1011_1011))),
    (PAIR, TWO, OfBook(FIRST, Narrowed(5, 1, 0b1111_1111))),
    // Grants that are taken off, the last first.
    (PAIR, TWO, OfBook(BOTH, TakenOff(&[], 2, 0b0110_1110))),
    (
        PAIR,
        TWO,
        OfBook(BOTH, TakenOff(&[Some(1)], 1, 0b1110_1110)),
    ),
    (
        PAIR,
        TWO,
        OfBook(BOTH, TakenOff(&[Some(1), Some(0)], 0, 0b1111_1111)),
    ),
    (
        PAIR,
        TWO,
        OfBook(BOTH, TakenOff(&[Some(1), Some(0), None], 0, 0b1111_1111)),
    ),
];

#[test]
fn books_tell_of_their_grants(rt: HostRuntime) {
    assert_eq!(rt; wrong_row(rt.alloc(), ROWS), None);
}

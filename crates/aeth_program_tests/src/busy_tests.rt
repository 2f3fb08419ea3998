// In which cycles a network is busy: these were worked out by hand from the rules.
use crate::busy_files::Texts;
use crate::designs::WORDS;
use crate::playing::is_busy_in;
use std::alloc::Global;
use std::test::Fail;

/// A run, and the cycles in which it is busy, behind which the number of its cycles stands.
struct Row {
    texts: Texts<'static>,
    cycles: u32,
    busy: &'static [u32],
}

const NO_WORDS: &str = "connection,side,cycle,value\n";

const NO_ROWS: &str = "connection,side,cycle,pull\n";

/// A receiver that takes nothing before cycle 30.
const STALLS: &str = "connection,side,cycle,pull\nc0,fwd,0,0\nc0,fwd,30,2\n";

/// The same, where a row gives it a pull in cycle 20 that the next one takes back.
const WAVERS: &str = "connection,side,cycle,pull
c0,fwd,0,0
c0,fwd,20,2
c0,fwd,20,0
c0,fwd,30,2
";

const NO_SWITCH: &str = "cycle,use,drain\n0,main,0\n";

/// A switch that closes and opens nothing: it stops words in cycle 10, and has drained in cycle 13.
const SWITCH: &str = "cycle,use,drain\n0,main,0\n10,main,3\n";

/// The words wait for slot 4, and go in cycles 4, 8 and 12; each flit is on three wires, and latched in
/// the cycle behind. Their credits go in cycles 8 and 16.
const FLOWS: &[u32] = &[
    1, 4, 5, 6, 7, 8, 9, 10, 11, 12, 13, 14, 15, 16, 17, 18, 19, 40,
];

/// The words land and wait. From cycle 30 on two, two and one are taken; the credits of four go in cycle
/// 32, and the last one in cycle 40.
const STALLED: &[u32] = &[
    1, 4, 5, 6, 7, 8, 9, 10, 11, 12, 13, 14, 15, 30, 31, 32, 33, 34, 35, 40, 41, 42, 43, 60,
];

static ROWS: [Row; 5] = [
    Row {
        texts: Texts {
            words: NO_WORDS,
            receivers: NO_ROWS,
            switches: NO_SWITCH,
        },
        cycles: 20,
        busy: &[20],
    },
    Row {
        texts: Texts {
            words: WORDS,
            receivers: NO_ROWS,
            switches: NO_SWITCH,
        },
        cycles: 40,
        busy: FLOWS,
    },
    Row {
        texts: Texts {
            words: WORDS,
            receivers: STALLS,
            switches: NO_SWITCH,
        },
        cycles: 60,
        busy: STALLED,
    },
    Row {
        texts: Texts {
            words: WORDS,
            receivers: WAVERS,
            switches: NO_SWITCH,
        },
        cycles: 60,
        busy: STALLED,
    },
    Row {
        texts: Texts {
            words: NO_WORDS,
            receivers: NO_ROWS,
            switches: SWITCH,
        },
        cycles: 20,
        busy: &[10, 13, 20],
    },
];

/// The number of the first row whose run is busy in other cycles.
fn wrong_row(alloc: Global) -> Result<Option<usize>, Fail> {
    for (i, row) in ROWS.iter().enumerate() {
        if !is_busy_in(alloc, &row.texts, row.cycles, row.busy)? {
            return Ok(Some(i));
        }
    }
    Ok(None)
}

#[test]
fn still_cycles_are_passed_over(rt: HostRuntime) -> Result<(), Fail> {
    assert_eq!(rt; wrong_row(rt.alloc())?, None);
    Ok(())
}

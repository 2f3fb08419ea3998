// Faults of sinks: what was written before a call fails, and before the room ends.
use crate::designs::{FILES, LOG, RUN};
use crate::runs::{ample_sink, failing_sink, said_to, shelf_of};
use aeth_io::MemSink;
use std::alloc::Global;
use std::test::Fail;

/// Words, the most bytes that a call on a sink takes, the failing calls on `out` and on `err`, and
/// what must be answered. A sink has room for 64 bytes, and the last run needs more.
static SINKS: [(&str, usize, u64, u64, &str); 5] = [
    ("slots 8 2 4 0,1,2,3,4,5,6,7", 2, 1, 9, "5 out 0,"),
    ("slots 8 2 4 0,1,2,3,4,5,6,7", 64, 0, 9, "5"),
    ("slots 8 1 4 1,2", 64, 9, 0, "5"),
    (
        "simulate pair one plan none receivers switches 20",
        4,
        9,
        1,
        "5 err read",
    ),
    (
        RUN,
        7,
        99,
        99,
        "5 out sim 1 20;chan c0 fwd 0 running 5 5 5;land 1 1 7 7 100;land 2 1 7",
    ),
];

#[test]
fn a_sink_that_fails_has_a_part(rt: HostRuntime) -> Result<(), Fail> {
    for &(words, most, out_call, err_call, answer) in &SINKS {
        let is_said = is_said_to(rt.alloc(), words, most, out_call, err_call, answer)?;
        assert!(rt; is_said, "{words}");
    }
    Ok(())
}

/// Whether a command says this to sinks of which these calls fail.
fn is_said_to(
    alloc: Global,
    words: &str,
    most: usize,
    out_call: u64,
    err_call: u64,
    answer: &str,
) -> Result<bool, Fail> {
    let mut out = failing_sink(alloc, 64, most, out_call)?;
    let mut err = failing_sink(alloc, 64, most, err_call)?;
    let said = said_of_files(alloc, words, &mut out, &mut err)?;
    Ok(said.as_str() == answer)
}

/// What a command says of the files to these sinks.
fn said_of_files(
    alloc: Global,
    words: &str,
    out: &mut MemSink,
    err: &mut MemSink,
) -> Result<String, Fail> {
    let mut shelf = shelf_of(alloc, &FILES)?;
    said_to(alloc, words, &mut shelf, out, err)
}

/// The most bytes that a call on `out` takes.
const PIECE: usize = 7;

/// How many calls the 215 bytes of the log need.
const WRITES: u64 = 31;

#[test]
fn each_failing_write_leaves_what_was_before(rt: HostRuntime) -> Result<(), Fail> {
    for call in 0..WRITES {
        assert!(rt; is_front_said(rt.alloc(), call)?, "{call}");
    }
    let whole = said_cut(rt.alloc(), WRITES)?;
    assert_eq!(rt; whole.as_str(), LOG);
    Ok(())
}

/// Whether the run says what it must where a call on `out` fails.
fn is_front_said(alloc: Global, call: u64) -> Result<bool, Fail> {
    let said = said_cut(alloc, call)?;
    Ok(is_front(said.as_str(), call))
}

/// What the run says where a call on `out` fails.
fn said_cut(alloc: Global, call: u64) -> Result<String, Fail> {
    let mut out = failing_sink(alloc, 4_096, PIECE, call)?;
    let mut err = ample_sink(alloc)?;
    said_of_files(alloc, RUN, &mut out, &mut err)
}

/// Whether it is the pieces before a call, behind the status.
fn is_front(said: &str, call: u64) -> bool {
    let Some(log) = LOG.strip_prefix("0 out ") else {
        return false;
    };
    match log.as_bytes().get(..(call as usize).saturating_mul(PIECE)) {
        Some([]) => said == "5",
        Some(front) => match said.strip_prefix("5 out ") {
            Some(written) => written.as_bytes() == front,
            None => false,
        },
        None => false,
    }
}

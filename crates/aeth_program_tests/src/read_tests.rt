// Faults of a shelf, short reads, files that are too long, and files that aren't read.
use crate::designs::{CHECKED, FILES, LOG, PLANNED, RUN, SUMMED_UP};
use crate::runs::{failing_shelf, said, shelf_of};
use aeth_io::MemShelf;
use std::alloc::Global;
use std::test::Fail;

/// Words, the calls of a shelf from a number to before another one, and what must be answered where one
/// of these fails. A call gives 64 bytes at most, so a file takes one for each 64 bytes and one for its
/// end. The last row of a command begins where all calls were made.
static READS: [(&str, u64, u64, &str); 20] = [
    ("app pair two", 0, 5, "4 err read fault chip;"),
    ("app pair two", 5, 15, "4 err read fault app;"),
    ("app pair two", 15, 17, SUMMED_UP),
    ("allocate pair one", 0, 5, "4 err read fault chip;"),
    ("allocate pair one", 5, 11, "4 err read fault app;"),
    ("allocate pair one", 11, 13, PLANNED),
    ("check pair one plan", 0, 5, "4 err read fault chip;"),
    ("check pair one plan", 5, 11, "4 err read fault app;"),
    ("check pair one plan", 11, 14, "4 err read fault plan;"),
    ("check pair one plan", 14, 16, CHECKED),
    ("tables pair one plan other", 0, 5, "4 err read fault chip;"),
    ("tables pair one plan other", 5, 11, "4 err read fault app;"),
    (
        "tables pair one plan other",
        11,
        13,
        "2 err refused use 1 UnknownUse 0 other;",
    ),
    (RUN, 0, 5, "4 err read fault chip;"),
    (RUN, 5, 11, "4 err read fault app;"),
    (RUN, 11, 14, "4 err read fault plan;"),
    (RUN, 14, 17, "4 err read fault words;"),
    (RUN, 17, 19, "4 err read fault receivers;"),
    (RUN, 19, 21, "4 err read fault switches;"),
    (RUN, 21, 23, LOG),
];

#[test]
fn a_failing_call_is_a_read_fault_of_its_file(rt: HostRuntime) -> Result<(), Fail> {
    for &(words, first, past, answer) in &READS {
        let other = other_call(rt.alloc(), words, 64, first, past, answer)?;
        assert_eq!(rt; other, None, "{words}");
    }
    Ok(())
}

/// The same of the run, of whose files a call gives one byte.
static BYTES: [(u64, u64, &str); 7] = [
    (0, 238, "4 err read fault chip;"),
    (238, 522, "4 err read fault app;"),
    (522, 613, "4 err read fault plan;"),
    (613, 707, "4 err read fault words;"),
    (707, 735, "4 err read fault receivers;"),
    (735, 761, "4 err read fault switches;"),
    (761, 763, LOG),
];

#[test]
fn a_fault_at_each_byte_is_one_of_its_file(rt: HostRuntime) -> Result<(), Fail> {
    for &(first, past, answer) in &BYTES {
        let other = other_call(rt.alloc(), RUN, 1, first, past, answer)?;
        assert_eq!(rt; other, None, "{answer}");
    }
    Ok(())
}

/// The most bytes that a call of a shelf gives.
static MOST: [usize; 3] = [1, 2, 4_096];

#[test]
fn short_reads_give_the_same_text(rt: HostRuntime) -> Result<(), Fail> {
    for &most in &MOST {
        assert!(rt;
            is_said_failing(rt.alloc(), RUN, most, u64::MAX, LOG)?,
            "{most}"
        );
    }
    Ok(())
}

/// The first of the calls from a number to before another one with whose failure a command says something else than
/// this. A call gives so many bytes.
fn other_call(
    alloc: Global,
    words: &str,
    most: usize,
    first: u64,
    past: u64,
    answer: &str,
) -> Result<Option<u64>, Fail> {
    for call in first..past {
        if !is_said_failing(alloc, words, most, call, answer)? {
            return Ok(Some(call));
        }
    }
    Ok(None)
}

/// Whether a command says this over a shelf that gives so many bytes a call, and of which this call fails.
fn is_said_failing(
    alloc: Global,
    words: &str,
    most: usize,
    call: u64,
    answer: &str,
) -> Result<bool, Fail> {
    let mut shelf = failing_shelf(alloc, &FILES, most, call)?;
    let said = said(alloc, words, &mut shelf)?;
    Ok(said.as_str() == answer)
}

/// Words, and how many calls of the shelf there are: two for each file that is read, and one for a
/// file that can't be read.
static CALLS_OF: [(&str, u64); 6] = [
    ("app pair two", 4),
    ("app none two", 1),
    ("app two two", 2),
    ("app pair none", 3),
    ("app pair ", 0),
    ("slots 1 1 1 0", 0),
];

#[test]
fn a_file_after_a_failure_is_not_read(rt: HostRuntime) -> Result<(), Fail> {
    for &(words, calls) in &CALLS_OF {
        assert_eq!(rt; calls_of(rt.alloc(), words)?, calls, "{words}");
    }
    Ok(())
}

/// How many calls on the shelf a command makes.
fn calls_of(alloc: Global, words: &str) -> Result<u64, Fail> {
    let mut shelf = shelf_of(alloc, &FILES)?;
    let _said = said(alloc, words, &mut shelf)?;
    Ok(shelf.calls())
}

/// The number of bytes of a chip file, each of them `#`, and what `chip` must answer: the longest
/// file is a comment, and a file of one byte more is too long.
static LENGTHS: [(usize, &str); 2] = [
    (33_554_432, "2 err refused chip 2 WrongKey 0 link;"),
    (33_554_433, "2 err refused chip 0 TooLong 0 -;"),
];

#[test]
fn a_file_is_too_long(rt: HostRuntime) -> Result<(), Fail> {
    for &(length, answer) in &LENGTHS {
        assert!(rt; is_said_of_comment(rt.alloc(), length, answer)?, "{length}");
    }
    Ok(())
}

/// Whether `chip` says this of a comment of so many bytes.
fn is_said_of_comment(alloc: Global, length: usize, answer: &str) -> Result<bool, Fail> {
    let mut shelf = shelf_with_comment(alloc, length)?;
    let said = said(alloc, "chip comment", &mut shelf)?;
    Ok(said.as_str() == answer)
}

fn shelf_with_comment(alloc: Global, length: usize) -> Result<MemShelf, Fail> {
    let name = "comment".to_string(alloc)?;
    let file = vec![in alloc; b'#'; length]?;
    Ok(MemShelf::new(vec![in alloc; (name, file)]?, Vec::new(alloc)))
}

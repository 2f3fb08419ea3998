// Shelves in memory, and files of the greatest size and one byte more.
ghost use Rattle.std.specs.Prelude.{None, true};

use crate::sinks::failing_calls;
use aeth_io::{Failed, MemShelf, ReadFail, Shelf, read_all};
use std::alloc::Global;
use std::test::Fail;

/// A shelf of one file, of so many zeros.
#[derive(Drop)]
struct Zeros {
    size: usize,
}

impl Shelf for Zeros {
    ghost content = { λ _ _. None };

    ghost faults = { λ _ _. 0 };

    ghost counts_calls = { true };

    fn read(&mut self, _name: &str, at: u64, into: &mut [u8]) -> Result<usize, Failed> {
        Ok(into.len().min(self.size.saturating_sub(at as usize)))
    }
}

/// Sizes of files, and why these aren't read.
static SIZES: [(usize, Option<ReadFail>); 4] = [
    (0, None),
    (16_384, None),
    (33_554_432, None),
    (33_554_433, Some(ReadFail::TooLong)),
];

/// Whether a file of so many zeros is read whole, or fails so.
fn reads_or_fails(alloc: Global, size: usize, fail: Option<ReadFail>) -> bool {
    match read_all(alloc, &mut Zeros { size }, "chip") {
        Ok(text) => text.len() == size && fail.is_none(),
        Err(cause) => fail == Some(cause),
    }
}

/// The first size of which a file is read otherwise.
fn first_other_size(alloc: Global) -> Option<usize> {
    for &(size, fail) in &SIZES {
        if !reads_or_fails(alloc, size, fail) {
            return Some(size);
        }
    }
    None
}

#[test]
fn a_file_has_a_greatest_size(rt: HostRuntime) {
    assert_eq!(rt; first_other_size(rt.alloc()), None);
}

/// A file in memory, with its name.
fn file(alloc: Global, name: &str, bytes: &str) -> Result<(String, Vec<u8>), Fail> {
    let bytes = Vec::from_slice(alloc, bytes.as_bytes())?;
    Ok((name.to_string(alloc)?, bytes))
}

/// Files of which two have the name `chip`.
fn files(alloc: Global) -> Result<Vec<(String, Vec<u8>)>, Fail> {
    let mut files = Vec::new(alloc);
    files.push(file(alloc, "chip", "slots = 8")?)?;
    files.push(file(alloc, "empty", "")?)?;
    files.push(file(alloc, "chip", "slots = 9")?)?;
    Ok(files)
}

/// A shelf on which the name `chip` stands twice.
fn shelf_of(alloc: Global, most: usize, fail: Option<u64>) -> Result<MemShelf, Fail> {
    let files = files(alloc)?;
    Ok(MemShelf::short(files, most.max(1), failing_calls(alloc, fail)?))
}

/// The most bytes a call, the call that fails, a name, its content, and how many calls there are.
type Reading = (usize, Option<u64>, &'static str, Option<&'static str>, u64);

static READINGS: [Reading; 9] = [
    (64, None, "chip", Some("slots = 8"), 2),
    (9, None, "chip", Some("slots = 8"), 2),
    (8, None, "chip", Some("slots = 8"), 3),
    (1, None, "chip", Some("slots = 8"), 10),
    (64, Some(2), "chip", Some("slots = 8"), 2),
    (64, Some(0), "chip", None, 1),
    (64, Some(1), "chip", None, 2),
    (64, None, "empty", Some(""), 1),
    (64, None, "app", None, 1),
];

/// Whether a file of a shelf has this content; where it has none, whether its reading fails.
fn has_content(alloc: Global, shelf: &mut MemShelf, name: &str, content: Option<&str>) -> bool {
    match read_all(alloc, shelf, name) {
        Ok(text) => match content {
            Some(whole) => text.as_slice() == whole.as_bytes(),
            None => false,
        },
        Err(cause) => cause == ReadFail::Fault && content.is_none(),
    }
}

/// Whether a reading is so.
fn is_reading(alloc: Global, reading: Reading) -> Result<bool, Fail> {
    let (most, fail, name, content, calls) = reading;
    let mut shelf = shelf_of(alloc, most, fail)?;
    Ok(has_content(alloc, &mut shelf, name, content) && shelf.calls() == calls)
}

/// The place of the first reading that is otherwise.
fn first_other_reading(alloc: Global) -> Result<Option<usize>, Fail> {
    for place in 0..READINGS.len() {
        if !is_reading(alloc, READINGS[place])? {
            return Ok(Some(place));
        }
    }
    Ok(None)
}

#[test]
fn a_shelf_in_memory_gives_its_files(rt: HostRuntime) -> Result<(), Fail> {
    let other = first_other_reading(rt.alloc())?;
    assert_eq!(rt; other, None);
    Ok(())
}

// Runs of the program over files and sinks in memory.
use aeth_cli::run;
use aeth_io::{MemShelf, MemSink, Shelf};
use aeth_sim::Network;
use aeth_table_network::TableNetwork;
use std::alloc::Global;
use std::str;
use std::test::Fail;

/// More bytes than any text of these tests has.
const AMPLE: usize = 9_999;

/// The words of a line, which stand apart by one space.
pub(crate) fn words_of(alloc: Global, line: &str) -> Result<Vec<String>, Fail> {
    let mut words = Vec::new(alloc);
    if line.is_empty() {
        return Ok(words);
    }
    for word in line.split(' ') {
        words.push(word.to_string(alloc)?)?;
    }
    Ok(words)
}

/// A sink that takes everything.
pub(crate) fn ample_sink(alloc: Global) -> Result<MemSink, Fail> {
    Ok(MemSink::new(alloc, AMPLE, AMPLE, Vec::new(alloc))?)
}

/// Files of a shelf, by their names.
pub(crate) fn files_of(
    alloc: Global,
    files: &[(&str, &str)],
) -> Result<Vec<(String, Vec<u8>)>, Fail> {
    let mut held = Vec::new(alloc);
    for (name, text) in files {
        held.push(file_of(alloc, name, text)?)?;
    }
    Ok(held)
}

/// A file of a shelf, by its name.
pub(crate) fn file_of(alloc: Global, name: &str, text: &str) -> Result<(String, Vec<u8>), Fail> {
    Ok((
        name.to_string(alloc)?,
        Vec::from_slice(alloc, text.as_bytes())?,
    ))
}

/// A shelf with these files, of which no call fails.
pub(crate) fn shelf_of(alloc: Global, files: &[(&str, &str)]) -> Result<MemShelf, Fail> {
    Ok(MemShelf::new(files_of(alloc, files)?, Vec::new(alloc)))
}

/// A shelf with these files that gives at most so many bytes a call, and at least one, and whose call
/// of this number fails.
pub(crate) fn failing_shelf(
    alloc: Global,
    files: &[(&str, &str)],
    most: usize,
    call: u64,
) -> Result<MemShelf, Fail> {
    let files = files_of(alloc, files)?;
    Ok(MemShelf::short(files, most.max(1), vec![in alloc; call]?))
}

/// A sink with room for so many bytes that takes at most `most` a call, and at least one, and whose
/// call of this number fails.
pub(crate) fn failing_sink(
    alloc: Global,
    room: usize,
    most: usize,
    call: u64,
) -> Result<MemSink, Fail> {
    Ok(MemSink::new(alloc, room, most.max(1), vec![in alloc; call]?)?)
}

/// What a command does over the shelf: its status, and then what it writes to `out`, and to `err`,
/// with `;` for each line feed.
pub(crate) fn said<H: Shelf>(alloc: Global, line: &str, shelf: &mut H) -> Result<String, Fail> {
    let mut out = ample_sink(alloc)?;
    let mut err = ample_sink(alloc)?;
    said_to(alloc, line, shelf, &mut out, &mut err)
}

/// The same, with these sinks.
pub(crate) fn said_to<H: Shelf>(
    alloc: Global,
    line: &str,
    shelf: &mut H,
    out: &mut MemSink,
    err: &mut MemSink,
) -> Result<String, Fail> {
    let words = words_of(alloc, line)?;
    let status = run::<Network, TableNetwork, H, MemSink, MemSink>(alloc, &words, shelf, out, err);
    let mut text = format!(in alloc; "{status}")?;
    push_written(alloc, &mut text, " out ", out)?;
    push_written(alloc, &mut text, " err ", err)?;
    Ok(text)
}

fn push_written(alloc: Global, text: &mut String, label: &str, sink: &MemSink) -> Result<(), Fail> {
    if !sink.bytes().is_empty() {
        text.push_str(label)?;
        let written = str::from_utf8(sink.bytes())?.replace(alloc, '\n', ";")?;
        text.push_str(written.as_str())?;
    }
    Ok(())
}

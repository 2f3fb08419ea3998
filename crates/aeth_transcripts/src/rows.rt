// A row of a transcript: a command, what it writes, and its status.
use crate::files::{change_file, named_files};
use aeth_cli::start;
use aeth_io::{MemShelf, MemSink, Shelf};
use std::alloc::Global;
use std::io;

// More bytes than any text of the rows has.
const AMPLE: usize = 99_999;

/// The lines of a row over the files of a shelf.
///
/// A row that begins with `#` is a heading, and its line is its own. Else a row is the words of a
/// command, which stand apart by one space, and then ` | FILE: CHANGE` for each change of a file
/// that the words name.
pub(crate) fn transcript<H: Shelf>(alloc: Global, row: &str, shelf: &mut H) -> io::Result<Vec<u8>> {
    if row.starts_with('#') {
        return Ok(format!(in alloc; "{row}\n")?.into_bytes());
    }
    let mut parts = row.split(" | ");
    let words = words_of(alloc, parts.next().unwrap_or(""))?;
    let mut files = named_files(alloc, &words, shelf)?;
    for change in parts {
        change_file(alloc, &mut files, change)?;
    }
    said(alloc, row, &words, MemShelf::new(files, Vec::new(alloc)))
}

fn words_of(alloc: Global, line: &str) -> io::Result<Vec<String>> {
    let mut words = Vec::new(alloc);
    if line.is_empty() {
        return Ok(words);
    }
    for word in line.split(' ') {
        words.push(word.to_string(alloc)?)?;
    }
    Ok(words)
}

// The row after `$ `, what its words write to `out`, what they write to `err` after a line `err`,
// and a line with their status.
fn said(alloc: Global, row: &str, words: &[String], mut shelf: MemShelf) -> io::Result<Vec<u8>> {
    let mut out = ample_sink(alloc)?;
    let mut err = ample_sink(alloc)?;
    let status = start(alloc, words, &mut shelf, &mut out, &mut err);
    let mut lines = format!(in alloc; "$ {row}\n")?.into_bytes();
    lines.extend_from_slice(out.bytes())?;
    if !err.bytes().is_empty() {
        lines.extend_from_slice(b"err\n")?;
        lines.extend_from_slice(err.bytes())?;
    }
    let last = format!(in alloc; "status {status}\n")?;
    lines.extend_from_slice(last.as_bytes())?;
    Ok(lines)
}

// A sink that takes everything.
fn ample_sink(alloc: Global) -> io::Result<MemSink> {
    match MemSink::new(alloc, AMPLE, AMPLE, Vec::new(alloc)) {
        Ok(sink) => Ok(sink),
        Err(_) => Err(io::Error::from(io::ErrorKind::OutOfMemory)),
    }
}

// The files of a row, some of which are changed.
use aeth_io::{Shelf, read_all};
use std::alloc::Global;
use std::{io, str};

/// The files of a shelf that the words name.
pub(crate) fn named_files<H: Shelf>(
    alloc: Global,
    words: &[String],
    shelf: &mut H,
) -> io::Result<Vec<(String, Vec<u8>)>> {
    let mut files = Vec::new(alloc);
    for word in words {
        if let Ok(bytes) = read_all(alloc, shelf, word.as_str()) {
            files.push((word.as_str().to_string(alloc)?, bytes))?;
        }
    }
    Ok(files)
}

/// Changes the file that a change `FILE: CHANGE` names. A change that can't be made ends the
/// program, so that no row says what it doesn't show.
pub(crate) fn change_file(
    alloc: Global,
    files: &mut Vec<(String, Vec<u8>)>,
    change: &str,
) -> io::Result<()> {
    let Some((file, change)) = change.split_once(": ") else {
        return Err(no_such_change());
    };
    for (name, bytes) in files.iter_mut() {
        if name.as_str() == file {
            *bytes = changed_bytes(alloc, bytes, change)?;
            return Ok(());
        }
    }
    Err(no_such_change())
}

// The bytes of a file after a change: `first COUNT` leaves so many bytes.
fn changed_bytes(alloc: Global, bytes: &[u8], change: &str) -> io::Result<Vec<u8>> {
    if let Some(count) = change.strip_prefix("first ") {
        let part = &bytes[..number(count)?.min(bytes.len())];
        return Ok(Vec::from_slice(alloc, part)?);
    }
    let change = change.replace(alloc, ';', "\n")?;
    let Ok(text) = str::from_utf8(bytes) else {
        return Err(no_such_change());
    };
    Ok(changed_text(alloc, text, change.as_str())?.into_bytes())
}

// A text after a change: `OLD => NEW` puts one text in place of another, and
// `COUNT times ITEM before PLACE` puts an item so many times before a place, with the numbers from
// 0 on in place of `#`.
fn changed_text(alloc: Global, text: &str, change: &str) -> io::Result<String> {
    if let Some((old, new)) = change.split_once(" => ") {
        return replaced(alloc, text, old, new);
    }
    let Some((items, place)) = change.split_once(" before ") else {
        return Err(no_such_change());
    };
    let mut new = numbered(alloc, items)?;
    new.push_str(place)?;
    replaced(alloc, text, place, new.as_str())
}

fn replaced(alloc: Global, text: &str, old: &str, new: &str) -> io::Result<String> {
    let Some((before, after)) = text.split_once(old) else {
        return Err(no_such_change());
    };
    Ok(format!(in alloc; "{before}{new}{after}")?)
}

fn numbered(alloc: Global, items: &str) -> io::Result<String> {
    let Some((count, item)) = items.split_once(" times ") else {
        return Err(no_such_change());
    };
    let mut all = String::new(alloc);
    for place in 0..number(count)? {
        let digits = format!(in alloc; "{place}")?;
        let item = item.replace(alloc, '#', digits.as_str())?;
        all.push_str(item.as_str())?;
    }
    Ok(all)
}

fn number(digits: &str) -> io::Result<usize> {
    match digits.parse::<usize>() {
        Ok(number) => Ok(number),
        Err(_) => Err(no_such_change()),
    }
}

fn no_such_change() -> io::Error {
    io::Error::from(io::ErrorKind::InvalidInput)
}

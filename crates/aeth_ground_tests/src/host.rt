// A shelf over the files of the machine: their bytes, from each place on.
use aeth_io::{HostShelf, ReadFail, Shelf, read_all};
use std::alloc::{AllocError, Global};
use std::fs;
use std::test::Fail;

/// So many bytes, no two neighbours of which are equal.
fn mixed_bytes(alloc: Global, count: usize) -> Result<Vec<u8>, AllocError> {
    let mut bytes = Vec::new(alloc);
    for i in 0..count {
        bytes.push((i % 251) as u8)?;
    }
    Ok(bytes)
}

/// Writes a file of so many mixed bytes.
fn write_mixed(rt: &HostRuntime, name: &str, count: usize) -> Result<(), Fail> {
    let bytes = mixed_bytes(rt.alloc(), count)?;
    fs::write(rt, name, bytes.as_slice())?;
    Ok(())
}

/// Whether a shelf reads these bytes of a file, and no others.
fn reads_whole<H: Shelf>(alloc: Global, shelf: &mut H, name: &str, bytes: &[u8]) -> bool {
    match read_all(alloc, shelf, name) {
        Ok(text) => text.as_slice() == bytes,
        Err(_) => false,
    }
}

/// Whether a shelf over the machine's files reads these bytes of a file.
fn host_reads_whole(rt: &HostRuntime, name: &str, bytes: &[u8]) -> Result<bool, Fail> {
    let mut shelf = HostShelf::new(rt.clone()?);
    Ok(reads_whole(rt.alloc(), &mut shelf, name, bytes))
}

/// Whether a file is read with the bytes with which it is written.
fn is_read_as_written(rt: &HostRuntime, name: &str, bytes: &[u8]) -> Result<bool, Fail> {
    fs::write(rt, name, bytes)?;
    let is_read = host_reads_whole(rt, name, bytes)?;
    fs::remove_file(rt, name)?;
    Ok(is_read)
}

#[test]
fn a_host_shelf_reads_whole_files(rt: HostRuntime) -> Result<(), Fail> {
    let bytes = mixed_bytes(rt.alloc(), 40_000)?;
    let is_read = is_read_as_written(&rt, "aeth_host_shelf_whole.txt", bytes.as_slice())?;
    assert!(rt; is_read);
    Ok(())
}

/// Places of a file of 250 mixed bytes, and the bytes from there on, four or as many as there are.
static PIECES: [(u64, &[u8]); 8] = [
    (5, &[5, 6, 7, 8]),
    (9, &[9, 10, 11, 12]),
    (5, &[5, 6, 7, 8]),
    (0, &[0, 1, 2, 3]),
    (4, &[4, 5, 6, 7]),
    (247, &[247, 248, 249]),
    (250, &[]),
    (300, &[]),
];

/// Whether a shelf reads this piece into four bytes from a place on.
fn reads_piece<H: Shelf>(shelf: &mut H, name: &str, at: u64, piece: &[u8]) -> bool {
    let mut four = [0; 4];
    match shelf.read(name, at, &mut four) {
        Ok(taken) => &four[..taken] == piece,
        Err(_) => false,
    }
}

/// The first place from which on a shelf doesn't read its piece.
fn first_misread<H: Shelf>(shelf: &mut H, name: &str) -> Option<u64> {
    for &(at, piece) in &PIECES {
        if !reads_piece(shelf, name, at, piece) {
            return Some(at);
        }
    }
    None
}

/// The first place from which on a shelf over the machine's files doesn't read its piece.
fn host_first_misread(rt: &HostRuntime, name: &str) -> Result<Option<u64>, Fail> {
    let mut shelf = HostShelf::new(rt.clone()?);
    Ok(first_misread(&mut shelf, name))
}

#[test]
fn a_host_shelf_reads_from_a_place_on(rt: HostRuntime) -> Result<(), Fail> {
    let name = "aeth_host_shelf_places.txt";
    write_mixed(&rt, name, 250)?;
    let misread = host_first_misread(&rt, name)?;
    fs::remove_file(&rt, name)?;
    assert_eq!(rt; misread, None);
    Ok(())
}

/// Why a file can't be read.
fn failure<H: Shelf>(alloc: Global, shelf: &mut H, name: &str) -> Option<ReadFail> {
    read_all(alloc, shelf, name).err()
}

/// Why a shelf over the machine's files can't read a name that there isn't, and a folder.
fn host_failures(rt: &HostRuntime) -> Result<[Option<ReadFail>; 2], Fail> {
    let mut shelf = HostShelf::new(rt.clone()?);
    let alloc = rt.alloc();
    Ok([
        failure(alloc, &mut shelf, "no such file"),
        failure(alloc, &mut shelf, "/"),
    ])
}

#[test]
fn a_host_shelf_fails_at_what_is_no_file(rt: HostRuntime) -> Result<(), Fail> {
    let failures = host_failures(&rt)?;
    assert_eq!(rt; failures, [Some(ReadFail::Fault), Some(ReadFail::Fault)]);
    Ok(())
}

// A shelf over the files of the machine.
ghost use Rattle.aeth_io.specs.Causes.{HasCause, one_more};
ghost use Rattle.std.specs.Prelude.{OnOk, ◌≡◌, ◌≤◌, ℕ, List, None, true, IfOk, if◌then◌else◌, is_err};
ghost use Rattle.std.specs.Prelude.{length};

use crate::{Failed, Shelf};
use std::io::{Read, Seek, SeekFrom};
use std::marker::Model;
use std::rt::Files;
use std::{fs, io};

/// The adapter over the files of the machine, by their paths. It is seen as its count of faults,
/// which stands for all names, and doesn't tell what a file has. A missing file, a folder and an
/// error raise the count.
#[derive(Drop)]
pub struct HostShelf<R: Files + AllocGlobal + Drop> {
    files: R,
    last: Option<OpenedFile<R::File>>,
    faults: u64,
}

/// The file that was read last, and the place up to which it was read: what follows is read without
/// opening it anew, so a pipe serves too. Where there was no memory for its name it is opened anew.
#[derive(Drop)]
struct OpenedFile<F> {
    name: Option<String>,
    file: F,
    at: u64,
}

impl<R: Files + AllocGlobal + Drop> Model for HostShelf<R> {
    ghost Value = { ℕ };

    ghost view = { λ shelf. shelf.faults };
}

impl<R: Files + AllocGlobal + Drop> HostShelf<R> {
    /// Makes a shelf that no call has failed on.
    pub fn new(files: R) -> HostShelf<R>
        ensures { result ≡ 0 }
    {
        HostShelf {
            files,
            last: None,
            faults: 0,
        }
    }
}

impl<R: Files + AllocGlobal + Drop> Shelf for HostShelf<R> {
    ghost content = { λ _ _. None };

    ghost faults = { λ shelf _. shelf };

    ghost counts_calls = { true };

    /// An error of the machine raises the count of faults; nothing else does.
    fn read(&mut self, name: &str, at: u64, into: &mut [u8]) -> Result<usize, Failed>
        ensures counts { self.new ≡ (if is_err result then one_more self.old else self.old) }

        // And what holds of every shelf, of one that tells no content.
        ensures within { IfOk result (λ n. n ≤ length into.new) }
        ensures cause { HasCause result self.old self.new }
        ensures faultless { OnOk result ((other : List ℕ) → self.new ≡ self.old) }
        ensures later { self.old ≤ self.new }
    {
        let last = self.last.take();
        match read_on(&self.files, last, name, at, into) {
            Ok((taken, last)) => {
                self.last = Some(last);
                Ok(taken)
            }
            Err(_) => {
                self.faults = self.faults.saturating_add(1);
                Err(Failed)
            }
        }
    }
}

fn read_on<R: Files + AllocGlobal>(
    files: &R,
    last: Option<OpenedFile<R::File>>,
    name: &str,
    at: u64,
    into: &mut [u8],
) -> io::Result<(usize, OpenedFile<R::File>)>
    ensures { IfOk result (λ read. read.0 ≤ length into.new) }
{
    let mut opened = match last.filter(|last| last.at == at && is_named(&last.name, name)) {
        Some(last) => last,
        None => open_at(files, name, at)?,
    };
    let taken = opened.file.read(into)?;
    opened.at = at.saturating_add(taken as u64);
    Ok((taken, opened))
}

fn open_at<R: Files + AllocGlobal>(
    files: &R,
    name: &str,
    at: u64,
) -> io::Result<OpenedFile<R::File>> {
    let mut file = fs::open(files, name)?;
    if at > 0 {
        file.seek(SeekFrom::Start(at))?;
    }
    let name = String::from_str(files.alloc(), name).ok();
    Ok(OpenedFile { name, file, at })
}

fn is_named(kept: &Option<String>, name: &str) -> bool {
    match kept {
        Some(kept) => kept.as_str() == name,
        None => false,
    }
}

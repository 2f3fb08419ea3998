// A shelf in memory, whose calls fail as a test wants.
ghost use Rattle.aeth_io.specs.Causes.{HasCause};
ghost use Rattle.aeth_io.specs.MemShelf.{after_read, content_of, buffer_after, files_of, given_of};
ghost use Rattle.aeth_io.specs.MemShelf.{is_refusing};
ghost use Rattle.aeth_io.specs.Shelf.{IsEndOf, ReadsFrom};
ghost use Rattle.std.specs.Prelude.{◌≡◌, ◌<◌, ◌≤◌, List, ℕ, Some, length, IfOk, OnErr, OnOk, is_err};
ghost use Rattle.std.specs.Prelude.{option_copied, true};

use crate::{Failed, Shelf};
use std::marker::Model;

/// A shelf that holds its files. Calls count from 0, and one counter of faults stands for all
/// names.
#[derive(Drop)]
pub struct MemShelf {
    files: Vec<(String, Vec<u8>)>,
    most: usize,
    fail: Vec<u64>,
    calls: u64,
    faults: u64,
}

impl Model for MemShelf {
    ghost use Rattle.aeth_io.specs.MemShelf.{ShelfState, files_of};
    ghost use Rattle.std.specs.Prelude.{◌<◌};

    ghost Value = { ShelfState };

    ghost view = { λ shelf. record {
      files = files_of shelf.files.items;
      most = shelf.most;
      fail = shelf.fail.items;
      calls = shelf.calls;
      faults = shelf.faults;
    } };

    ghost invariant = { λ shelf. 0 < shelf.most };
}

impl MemShelf {
    /// Makes a shelf of files by name, of which the first of a name holds. The calls with the
    /// numbers `fail` fail.
    pub fn new(files: Vec<(String, Vec<u8>)>, fail: Vec<u64>) -> MemShelf
        ensures { result ≡ record {
          files = files_of files.items;
          most = usize.MAX;
          fail = fail.items;
          calls = 0;
          faults = 0;
        } }
    {
        MemShelf::short(files, usize::MAX, fail)
    }

    /// Makes such a shelf, of which a call gives at most `most` bytes.
    pub fn short(files: Vec<(String, Vec<u8>)>, most: usize, fail: Vec<u64>) -> MemShelf
        requires { 0 < most }
        ensures { result ≡ record {
          files = files_of files.items;
          most = most;
          fail = fail.items;
          calls = 0;
          faults = 0;
        } }
    {
        MemShelf {
            files,
            most,
            fail,
            calls: 0,
            faults: 0,
        }
    }

    /// How many calls were made; the greatest `u64` where they were more.
    pub fn calls(&self) -> u64
        ensures { result ≡ self.now.calls }
    {
        self.calls
    }
}

impl Shelf for MemShelf {
    ghost content = { λ shelf name. content_of shelf.files name };

    ghost faults = { λ shelf name. shelf.faults };

    ghost counts_calls = { true };

    /// A call whose number is listed, or on a name that no file has, fails and raises the count of
    /// faults. Any other gives as many bytes as the file has from `at` on, as are asked for, and as
    /// a call gives at most, whichever is least.
    fn read(&mut self, name: &str, at: u64, into: &mut [u8]) -> Result<usize, Failed>
        ensures fails { is_err result ≡ is_refusing self.old name.now }
        ensures gives { (bytes : List ℕ) → content_of self.old.files name.now ≡ Some bytes
            → IfOk result (λ n. n ≡ given_of self.old.most bytes at (length into.old)) }
        ensures filled { (bytes : List ℕ) → content_of self.old.files name.now ≡ Some bytes
            → IfOk result (λ _. into.new ≡ buffer_after self.old.most bytes at into.old) }
        ensures untouched { OnErr result (into.new ≡ into.old) }
        ensures after { self.new ≡ after_read self.old name.now }

        // And what holds of every shelf.
        ensures within { IfOk result (λ n. n ≤ length into.new) }
        ensures ok { (bytes : List ℕ) → content_of self.old.files name.now ≡ Some bytes
            → IfOk result (λ n. ReadsFrom bytes at n into.new) }
        ensures end { (bytes : List ℕ) → content_of self.old.files name.now ≡ Some bytes
            → 0 < length into.old → IfOk result (λ n. IsEndOf bytes at n) }
        ensures cause { HasCause result self.old.faults self.new.faults }
        ensures faultless { OnOk result ((other : List ℕ) → self.new.faults ≡ self.old.faults) }
        ensures later { (other : List ℕ) → self.old.faults ≤ self.new.faults }
        ensures kept { (other : List ℕ)
            → content_of self.new.files other ≡ content_of self.old.files other }
    {
        let call = self.calls;
        self.calls = call.saturating_add(1);
        let listed = self.fail.contains(&call);
        let found = find_file(&self.files, name);
        let Some(bytes) = found else {
            self.faults = self.faults.saturating_add(1);
            return Err(Failed);
        };
        if listed {
            self.faults = self.faults.saturating_add(1);
            return Err(Failed);
        }
        Ok(copy_from(self.most, bytes, at as usize, into))
    }
}

fn find_file<'a>(files: &'a [(String, Vec<u8>)], name: &str) -> Option<&'a [u8]>
    ensures { option_copied result ≡ content_of (files_of files.now) name.now }
{
    for (held, bytes) in files {
        if held.as_str() == name {
            return Some(bytes.as_slice());
        }
    }
    None
}

fn copy_from(most: usize, bytes: &[u8], at: usize, into: &mut [u8]) -> usize
    ensures given { result ≡ given_of most bytes.now at (length into.old) }
    ensures filled { into.new ≡ buffer_after most bytes.now at into.old }
{
    let at = at.min(bytes.len());
    let given = into.len().min(most).min(bytes.len() - at);
    into[..given].copy_from_slice(&bytes[at..at + given]);
    given
}

// A place of files, which may fail.
ghost use Rattle.aeth_io.specs.Causes.{HasCause, IsFaultless, Rose};
ghost use Rattle.aeth_io.specs.Limits.{max_file_bytes};
ghost use Rattle.aeth_io.specs.Shelf.{IsEndOf, ReadsFrom};
ghost use Rattle.aeth_io.specs.declared.shelf.ReadFail.TheVariants.{Fault, TooLong};
ghost use Rattle.std.specs.Prelude.{◌≡◌, ◌≢◌, ◌<◌, ◌≤◌, ℕ, Bool, true, List, Option, Some, Err};
ghost use Rattle.std.specs.Prelude.{◌++◌, length, IfOk, IsErr, OnOk};

use crate::Failed;
use aeth_base::NoMemory;
use std::alloc::Global;
use std::error::Error;
use std::fmt;

/// The most bytes of a file.
pub const MAX_FILE_BYTES: usize = 33_554_432;

/// How many bytes are asked for at a time.
const CHUNK: usize = 16_384;

/// A place of files by name, as a folder is, that gives some bytes of one at each call.
pub trait Shelf {
    /// The bytes of the file of a name, where the shelf tells them.
    ghost content: { Self → List ℕ → Option (List ℕ) };

    /// The count of faults of a name. It never falls, and a call that fails raises it or leaves it
    /// at the greatest `u64`.
    ghost faults: { Self → List ℕ → ℕ };

    /// Whether the counts are of failed calls alone. They aren't of a shelf that tries again by itself, and
    /// counts a try that failed where the call succeeds.
    ghost counts_calls: { Bool };

    /// Gives the next bytes of a file from place `at` on, and says how many: none, where some were
    /// asked for, is the end. A read changes no file.
    fn read(&mut self, name: &str, at: u64, into: &mut [u8]) -> Result<usize, Failed>
        ensures within { IfOk result (λ n. n ≤ length into.new) }
        ensures ok { (bytes : List ℕ) → content self.old name.now ≡ Some bytes
            → IfOk result (λ n. ReadsFrom bytes at n into.new) }
        ensures end { (bytes : List ℕ) → content self.old name.now ≡ Some bytes
            → 0 < length into.old → IfOk result (λ n. IsEndOf bytes at n) }
        ensures cause { HasCause result (faults self.old name.now) (faults self.new name.now) }
        ensures faultless { counts_calls ≡ true
            → OnOk result (IsFaultless (faults self.old) (faults self.new)) }
        ensures later { (other : List ℕ) → faults self.old other ≤ faults self.new other }
        ensures kept { (other : List ℕ) → content self.new other ≡ content self.old other };
}

/// Why a file wasn't read whole.
#[derive(Clone, Copy, Debug, PartialEq, Eq)]
pub enum ReadFail {
    /// A call on the shelf failed.
    Fault,
    /// The file has more than `MAX_FILE_BYTES` bytes.
    TooLong,
    /// Memory was wanting.
    Memory,
}

impl fmt::Display for ReadFail {
    fn fmt<W: fmt::Write>(&self, f: &mut fmt::Formatter<W>) -> fmt::Result {
        f.write_str(match self {
            ReadFail::Fault => "the file can't be read",
            ReadFail::TooLong => "the file is too long",
            ReadFail::Memory => "out of memory",
        })
    }
}

impl Error for ReadFail {}

impl From<NoMemory> for ReadFail {
    ghost use Rattle.aeth_io.specs.declared.shelf.ReadFail.TheVariants.{Memory};
    ghost use Rattle.std.specs.Prelude.{◌≡◌};

    ghost from_gives = { λ _ fail. fail ≡ Memory };

    fn from(_: NoMemory) -> ReadFail {
        ReadFail::Memory
    }
}

/// The whole content of a file. Each turn takes at least one byte, so it ends at the latest past
/// `MAX_FILE_BYTES` bytes. `Fault` comes only where a call on this name failed, any other answer only
/// where none did, and `TooLong` only where the file has more than `MAX_FILE_BYTES` bytes.
///
/// What is said of the content holds of each shelf that tells it.
pub fn read_all<H: Shelf>(alloc: Global, shelf: &mut H, name: &str) -> Result<Vec<u8>, ReadFail>
    ensures ok { (bytes : List ℕ) → H.content shelf.old name.now ≡ Some bytes
        → IfOk result (λ text. text.items ≡ bytes) }
    ensures within { IfOk result (λ text. length text.items ≤ max_file_bytes) }

    // A file that is too long is refused, and no other is refused as such.
    ensures too_long { (bytes : List ℕ) → H.content shelf.old name.now ≡ Some bytes
        → max_file_bytes < length bytes → IsErr result }
    ensures only_too_long { (bytes : List ℕ) → H.content shelf.old name.now ≡ Some bytes
        → result ≡ Err TooLong → max_file_bytes < length bytes }
    ensures cause { result ≡ Err Fault
        → Rose (H.faults shelf.old name.now) (H.faults shelf.new name.now) }
    ensures faultless { H.counts_calls ≡ true → result ≢ Err Fault
        → IsFaultless (H.faults shelf.old) (H.faults shelf.new) }
    ensures later { (other : List ℕ) → H.faults shelf.old other ≤ H.faults shelf.new other }
    ensures kept { (other : List ℕ) → H.content shelf.new other ≡ H.content shelf.old other }
{
    let mut text = Vec::new(alloc);
    let mut chunk = [0; CHUNK];
    while text.len() <= MAX_FILE_BYTES {
        let Ok(taken) = shelf.read(name, text.len() as u64, &mut chunk) else {
            return Err(ReadFail::Fault);
        };
        if taken == 0 {
            return Ok(text);
        }
        push_bytes(&mut text, &chunk[..taken])?;
    }
    Err(ReadFail::TooLong)
}

fn push_bytes(text: &mut Vec<u8>, bytes: &[u8]) -> Result<(), NoMemory>
    ensures ok { OnOk result (text.new.items ≡ text.old.items ++ bytes.now) }
{
    text.extend_from_slice(bytes)?;
    Ok(())
}

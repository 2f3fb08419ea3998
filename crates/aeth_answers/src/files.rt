// Files that are read and judged.
ghost use Rattle.aeth_answers.specs.Files.{text_file};
ghost use Rattle.aeth_answers.specs.Places.{files_of};
ghost use Rattle.aeth_answers.specs.Stop.{HandsOn, Judges};

use crate::answer::{Answer, Stop};
use crate::words::FileName;
use aeth_base::Fault;
use aeth_io::{ReadFail, Shelf, read_all};
use std::alloc::Global;

/// The bytes of a file, by its word in texts and its name on the shelf; or the end of the command, where
/// the file can't be read or is too long.
pub fn read_file<H: Shelf>(
    alloc: Global,
    file: &str,
    name: &FileName,
    shelf: &mut H,
) -> Result<Vec<u8>, Stop>
    ensures { Judges (files_of H.Shelf shelf.old) (files_of H.Shelf shelf.new)
        (text_file file.now name.now) (λ bytes. bytes.items) result }
{
    // Once a call on the shelf has failed no memory is asked for.
    let fault = Answer::read_fault(alloc, file)?;
    match read_all(alloc, shelf, name.as_str()) {
        Ok(bytes) => Ok(bytes),
        Err(ReadFail::Fault) => Err(Stop::Ends(fault)),
        Err(ReadFail::TooLong) => Err(Stop::Ends(Answer::too_long(alloc, file)?)),
        Err(ReadFail::Memory) => Err(Stop::Memory),
    }
}

/// What a reader gave of a file, or the end of the command by the rule that the file breaks.
pub fn judged<T, F: Fault + Drop>(alloc: Global, file: &str, read: Result<T, F>) -> Result<T, Stop>
    ensures { HandsOn F.rule file.now read result }
{
    match read {
        Ok(value) => Ok(value),
        Err(fault) => match fault.broken_rule() {
            Some(broken) => Err(Stop::Ends(Answer::refused_file(alloc, file, &broken)?)),
            None => Err(Stop::Memory),
        },
    }
}

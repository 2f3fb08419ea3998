// The top call: the answer to the words, and its writing.
ghost use Rattle.aeth_cli.specs.Promise.{Promise};
ghost use Rattle.std.specs.Prelude.{map, string_bytes};

use crate::commands::answer;
use aeth_answers::{Status, end_with};
use aeth_base::NoMemory;
use aeth_io::{Shelf, Sink};
use aeth_machine::Machine;
use std::alloc::Global;

/// Does what the words ask for, reads files from the shelf, writes its text to `out` or `err`, and
/// gives the status with which the program ends. The words are those after the program's name. Runs
/// are played by machines of the type `M`, those of `simulate-tables` by machines of the type `T`.
pub fn run<M: Machine, T: Machine, H: Shelf, O: Sink, E: Sink>(
    alloc: Global,
    words: &[String],
    shelf: &mut H,
    out: &mut O,
    err: &mut E,
) -> u8
    ensures { Promise (record { headers = M.outcome; tables = T.outcome })
        H.Shelf O.Sink E.Sink (map string_bytes words.now)
        (record { shelf = shelf.old; out = out.old; err = err.old })
        (record { shelf = shelf.new; out = out.new; err = err.new }) result }
{
    match answer::<M, T, H>(alloc, words, shelf) {
        Ok(answer) => end_with(&answer, out, err).number(),
        Err(NoMemory) => Status::Memory.number(),
    }
}

//! The program: the words, the files and the streams of the host are handed to one call, whose status is the
//! exit code.
#![tactic(auto)]

ghost use Rattle.std.specs.Prelude.{◌≡◌, drop};

use aeth_cli::{Status, start};
use aeth_io::{HostShelf, HostSink};
use std::io::ErrorKind;
use std::process::ExitCode;
use std::rt::Env;
use std::{env, io};

fn main(rt: HostRuntime) -> ExitCode {
    let arguments = match arguments(&rt) {
        Ok(arguments) => arguments,
        Err(error) if error.kind() == ErrorKind::OutOfMemory => return out_of_memory(),

        // Arguments that aren't text are no command, as none are.
        Err(_) => Vec::new(rt.alloc()),
    };
    let Ok(files) = rt.clone() else {
        return out_of_memory();
    };
    let mut shelf = HostShelf::new(files);
    let mut out = HostSink::new(rt.stdout());
    let mut err = HostSink::new(rt.stderr());
    let words = words_of(&arguments);
    ExitCode::from(start(rt.alloc(), words, &mut shelf, &mut out, &mut err))
}

/// The arguments of the program, the first of which is its name.
fn arguments<R: Env + AllocGlobal>(rt: &R) -> io::Result<Vec<String>> {
    let mut words = Vec::new(rt.alloc());
    for word in env::args(rt)? {
        words.push(word)?;
    }
    Ok(words)
}

/// The words after the program's name.
fn words_of(arguments: &[String]) -> &[String]
    ensures { result.now ≡ drop 1 arguments.now }
{
    match arguments.split_first() {
        Some((_name, words)) => words,
        None => arguments,
    }
}

/// The exit code where memory is wanting for the arguments themselves.
fn out_of_memory() -> ExitCode {
    ExitCode::from(Status::Memory.number())
}

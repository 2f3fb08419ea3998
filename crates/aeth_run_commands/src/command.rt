// The commands that play runs, and what each answers.
ghost use Rattle.aeth_answers.specs.Places.{files_of};
ghost use Rattle.aeth_answers.specs.Stop.{Answers};
ghost use Rattle.aeth_run_commands.specs.Commands.{HasRanges, run_command, run_task};
ghost use Rattle.std.specs.Prelude.{◌≡◌, IfSome, map, string_bytes};

use crate::simulate::SimulatedRun;
use crate::{demo, simulate};
use aeth_answers::{Answer, Stop};
use aeth_io::Shelf;
use aeth_machine::Machine;
use std::alloc::Global;

/// A command that plays a run.
#[derive(Drop)]
pub enum RunCommand<'a> {
    /// `simulate CHIP APP PLAN WORDS RECEIVERS SWITCHES CYCLES [TURN]`: what a run shows in a network
    /// whose routers read headers.
    Simulate(SimulatedRun<'a>),
    /// `simulate-tables`, with the same words: what it shows in one whose routers look slot tables
    /// up.
    SimulateTables(SimulatedRun<'a>),
    /// `demo N`: a large run that is made from a number, summed up.
    Demo { number: u32 },
}

impl<'a> RunCommand<'a> {
    /// The command on a run that a name and the words behind it are, if they are one.
    pub fn of(name: &str, words: &'a [String]) -> Option<RunCommand<'a>>
        ensures command { result ≡ run_command name.now (map string_bytes words.now) }
        ensures ranges { IfSome result HasRanges }
    {
        match name {
            "simulate" => Some(RunCommand::Simulate(simulate::command(words)?)),
            "simulate-tables" => Some(RunCommand::SimulateTables(simulate::command(words)?)),
            "demo" => demo::command(words),
            _ => None,
        }
    }

    /// What the command asks for, done over the files of a shelf, or what ends it before. Runs are
    /// played by machines of the type `M`, those of `simulate-tables` by machines of the type `T`.
    pub fn answer<M: Machine, T: Machine, H: Shelf>(
        &self,
        alloc: Global,
        shelf: &mut H,
    ) -> Result<Answer, Stop>
        requires { HasRanges self.now }
        ensures { Answers (files_of H.Shelf shelf.old) (files_of H.Shelf shelf.new)
            (run_task (record { headers = M.outcome; tables = T.outcome }) self.now) result }
    {
        match self {
            RunCommand::Simulate(run) => simulate::answer::<M, H>(alloc, run, shelf),
            RunCommand::SimulateTables(run) => simulate::answer::<T, H>(alloc, run, shelf),
            RunCommand::Demo { number } => demo::answer::<M>(alloc, *number),
        }
    }
}

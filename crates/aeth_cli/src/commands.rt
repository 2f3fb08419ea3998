// The commands, and what each answers.
ghost use Rattle.aeth_answers.specs.Places.{IsAfter, NoneFailed, files_of};
ghost use Rattle.aeth_answers.specs.Stop.{Answers};
ghost use Rattle.aeth_cli.specs.Commands.{AnswersWords, HasRanges, IsAnswerTo, command_of, task_of};
ghost use Rattle.std.specs.Prelude.{◌≡◌, IfOk, IfSome, OnErr, map, string_bytes};

mod links;

use crate::commands::links::LoggedRun;
use aeth_answers::{Answer, Stop};
use aeth_base::NoMemory;
use aeth_design_commands::DesignCommand;
use aeth_explain_commands::ExplainCommand;
use aeth_io::Shelf;
use aeth_machine::Machine;
use aeth_plan_commands::PlanCommand;
use aeth_run_commands::RunCommand;
use std::alloc::Global;

/// What a command line asks for.
#[derive(Drop)]
pub enum Command<'a> {
    /// On slots, a chip, an application or a plan: `slots`, `server`, `chip`, `app`, `allocate`,
    /// `check`.
    Design(DesignCommand<'a>),
    /// On the units that an allocation refuses: `explain`.
    Explain(ExplainCommand<'a>),
    /// On an accepted plan: `tables`, `route-tables`, `audit`, `chain`.
    Plan(PlanCommand<'a>),
    /// On a run that is played: `simulate`, `simulate-tables`, `demo`.
    Run(RunCommand<'a>),
    /// `links CHIP APP PLAN WORDS RECEIVERS SWITCHES CYCLES`: what the links carry in a run of so
    /// many cycles, as a log of links.
    Links(LoggedRun<'a>),
}

/// The command that the words are, if they are one.
fn command_of(words: &[String]) -> Option<Command<'_>>
    ensures command { result ≡ command_of (map string_bytes words.now) }
    ensures ranges { IfSome result HasRanges }
{
    let (name, words) = words.split_first()?;
    let name = name.as_str();
    if let Some(command) = DesignCommand::of(name, words) {
        return Some(Command::Design(command));
    }
    if let Some(command) = ExplainCommand::of(name, words) {
        return Some(Command::Explain(command));
    }
    if let Some(command) = PlanCommand::of(name, words) {
        return Some(Command::Plan(command));
    }
    if let Some(command) = RunCommand::of(name, words) {
        return Some(Command::Run(command));
    }
    Some(Command::Links(links::command(name, words)?))
}

/// The answer to the words.
pub fn answer<M: Machine, T: Machine, H: Shelf>(
    alloc: Global,
    words: &[String],
    shelf: &mut H,
) -> Result<Answer, NoMemory>
    ensures after { IsAfter (files_of H.Shelf shelf.old) (files_of H.Shelf shelf.new) }
    ensures answers { IfOk result (IsAnswerTo (record { headers = M.outcome; tables = T.outcome })
        (files_of H.Shelf shelf.old) (files_of H.Shelf shelf.new)
        (command_of (map string_bytes words.now))) }
    ensures memory { OnErr result (NoneFailed (files_of H.Shelf shelf.old) (files_of H.Shelf shelf.new)) }
{
    match words_answer::<M, T, H>(alloc, words, shelf) {
        Ok(answer) => Ok(answer),
        Err(Stop::Ends(answer)) => Ok(answer),
        Err(Stop::Memory) => Err(NoMemory),
    }
}

/// What the words ask for, done, or what ends it before.
fn words_answer<M: Machine, T: Machine, H: Shelf>(
    alloc: Global,
    words: &[String],
    shelf: &mut H,
) -> Result<Answer, Stop>
    ensures { AnswersWords (record { headers = M.outcome; tables = T.outcome })
        (files_of H.Shelf shelf.old) (files_of H.Shelf shelf.new)
        (command_of (map string_bytes words.now)) result }
{
    match command_of(words) {
        Some(command) => command_answer::<M, T, H>(alloc, &command, shelf),
        None => Ok(Answer::usage(alloc)?),
    }
}

/// What the command asks for, done, or what ends it before.
fn command_answer<M: Machine, T: Machine, H: Shelf>(
    alloc: Global,
    command: &Command,
    shelf: &mut H,
) -> Result<Answer, Stop>
    requires { HasRanges command.now }
    ensures { Answers (files_of H.Shelf shelf.old) (files_of H.Shelf shelf.new)
        (task_of (record { headers = M.outcome; tables = T.outcome }) command.now) result }
{
    match command {
        Command::Design(command) => command.answer(alloc, shelf),
        Command::Explain(command) => command.answer(alloc, shelf),
        Command::Plan(command) => command.answer(alloc, shelf),
        Command::Run(command) => command.answer::<M, T, H>(alloc, shelf),
        Command::Links(run) => links::answer(alloc, run, shelf),
    }
}

// `links CHIP APP PLAN WORDS RECEIVERS SWITCHES CYCLES`: what the links carry in a run of an accepted
// plan.
ghost use Rattle.aeth_accepted.specs.Inputs.{AreAccepted};
ghost use Rattle.aeth_answers.specs.Places.{files_of};
ghost use Rattle.aeth_answers.specs.Stop.{Answers};
ghost use Rattle.aeth_cli.specs.Commands.Links.{HasRanges, links_command, links_job, links_task};
ghost use Rattle.aeth_cli.specs.Commands.Links.{links_words};
ghost use Rattle.aeth_group.specs.Members.{groups_of};
ghost use Rattle.aeth_run_commands.specs.TracedDesigns.{seen_traced, traced_inputs};
ghost use Rattle.std.specs.Prelude.{◌≡◌, IfOk, IfSome, map, string_bytes};

use aeth_accepted::RunInputs;
use aeth_answers::{Answer, Stop, ended, number_in};
use aeth_base::NoMemory;
use aeth_io::Shelf;
use aeth_links::links_text;
use aeth_run_commands::{TracedDesign, files_named, read_traced};
use aeth_run_files::RunFiles;
use std::alloc::Global;

/// The greatest number of cycles of which the command prints what the links carry.
const MAX_LOGGED_CYCLES: u32 = 10_000;

/// The run of which the command prints what the links carry.
#[derive(Drop)]
pub struct LoggedRun<'a> {
    pub files: RunFiles<'a>,
    pub cycles: u32,
}

/// The run that a name and the words behind it ask for, if they are the command.
pub fn command<'a>(name: &str, words: &'a [String]) -> Option<LoggedRun<'a>>
    ensures command { result ≡ links_command name.now (map string_bytes words.now) }
    ensures ranges { IfSome result HasRanges }
{
    match name {
        "links" => logged_run(words),
        _ => None,
    }
}

/// The run of the words CHIP APP PLAN WORDS RECEIVERS SWITCHES CYCLES.
fn logged_run<'a>(words: &'a [String]) -> Option<LoggedRun<'a>>
    ensures command { result ≡ links_words (map string_bytes words.now) }
    ensures ranges { IfSome result HasRanges }
{
    let [chip, app, plan, words, receivers, switches, cycles] = words else {
        return None;
    };
    let files = files_named(
        chip.as_str(),
        app.as_str(),
        plan.as_str(),
        words.as_str(),
        receivers.as_str(),
        switches.as_str(),
    )?;
    let cycles = number_in(1, MAX_LOGGED_CYCLES, cycles.as_str())?;
    Some(LoggedRun { files, cycles })
}

/// What the links carry in the run.
pub fn answer<H: Shelf>(alloc: Global, run: &LoggedRun, shelf: &mut H) -> Result<Answer, Stop>
    requires { HasRanges run.now }
    ensures { Answers (files_of H.Shelf shelf.old) (files_of H.Shelf shelf.new)
        (links_task run.now) result }
{
    let one = read_traced(alloc, &run.files, shelf)?;
    ended(carried(alloc, &one, run.cycles))
}

/// The log of what the links carry, by accepted inputs.
fn carried(alloc: Global, one: &TracedDesign, cycles: u32) -> Result<Answer, NoMemory>
    requires groups { one.now.run.planned.groups ≡ groups_of one.now.design.app }
    requires accepted { AreAccepted (traced_inputs (seen_traced one.now) cycles) }
    ensures { IfOk result (λ answer. answer
        ≡ links_job (traced_inputs (seen_traced one.now) cycles)) }
{
    let TracedDesign { design, run } = one;
    let traces = run.traces.borrowed();
    let inputs = RunInputs::of(
        &design.chip,
        &design.app,
        &run.planned.groups,
        &run.planned.plan,
        traces,
        cycles,
    );
    Ok(Answer::done(links_text(alloc, &inputs)?))
}

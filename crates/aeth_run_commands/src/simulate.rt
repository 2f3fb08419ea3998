// `simulate CHIP APP PLAN WORDS RECEIVERS SWITCHES CYCLES [TURN]`, and `simulate-tables` with the same
// words: what a run of an accepted plan shows.
ghost use Rattle.aeth_accepted.specs.Inputs.{AreAccepted};
ghost use Rattle.aeth_answers.specs.Places.{files_of};
ghost use Rattle.aeth_answers.specs.Stop.{Answers};
ghost use Rattle.aeth_group.specs.Members.{groups_of};
ghost use Rattle.aeth_machine.specs.RunInputs.{inputs_of};
ghost use Rattle.aeth_run_commands.specs.Simulate.{HasCycles, simulate_task, simulated_run};
ghost use Rattle.aeth_run_commands.specs.Simulate.{simulation_job, turn_of};
ghost use Rattle.aeth_run_commands.specs.TracedDesigns.{seen_traced, traced_inputs};
ghost use Rattle.std.specs.Prelude.{◌≡◌, ◌≤◌, IfOk, IfSome, map, string_bytes};

use crate::traced_designs::{TracedDesign, files_named, read_traced};
use aeth_answers::{Answer, Stop, ended, number_in};
use aeth_base::{MAX_CYCLES, NoMemory};
use aeth_io::Shelf;
use aeth_machine::{Machine, Traces, played};
use aeth_plan::{Design, Planned};
use aeth_report::sim_text;
use aeth_run_files::{Run, RunFiles};
use std::alloc::Global;

/// The greatest turn that a command asks for.
const MAX_TURN: u32 = 1_000_000;

/// The run that a simulation shows: of so many cycles, in an order of the components that begins with the
/// turn. Each order shows the same.
#[derive(Drop)]
pub struct SimulatedRun<'a> {
    pub files: RunFiles<'a>,
    pub cycles: u32,
    pub turn: u32,
}

/// The run of the words CHIP APP PLAN WORDS RECEIVERS SWITCHES CYCLES, with TURN or without.
pub fn command<'a>(words: &'a [String]) -> Option<SimulatedRun<'a>>
    ensures command { result ≡ simulated_run (map string_bytes words.now) }
    ensures ranges { IfSome result HasCycles }
{
    let [
        chip,
        app,
        plan,
        words,
        receivers,
        switches,
        cycles,
        rest @ ..,
    ] = words
    else {
        return None;
    };
    let files = files_named(
        chip.as_str(),
        app.as_str(),
        plan.as_str(),
        words.as_str(),
        receivers.as_str(),
        switches.as_str(),
    )?;
    let cycles = number_in(1, MAX_CYCLES, cycles.as_str())?;
    let turn = turn_in(rest)?;
    Some(SimulatedRun {
        files,
        cycles,
        turn,
    })
}

/// The turn of the words behind the number of cycles.
fn turn_in(words: &[String]) -> Option<u32>
    ensures { result ≡ turn_of (map string_bytes words.now) }
{
    match words {
        [] => Some(0),
        [turn] => number_in(0, MAX_TURN, turn.as_str()),
        _ => None,
    }
}

/// What the run shows, played by a machine.
pub fn answer<M: Machine, H: Shelf>(
    alloc: Global,
    run: &SimulatedRun,
    shelf: &mut H,
) -> Result<Answer, Stop>
    requires { HasCycles run.now }
    ensures { Answers (files_of H.Shelf shelf.old) (files_of H.Shelf shelf.new)
        (simulate_task M.outcome run.now.files run.now.cycles) result }
{
    let one = read_traced(alloc, &run.files, shelf)?;
    ended(printed_of::<M>(alloc, one, run.cycles, run.turn))
}

/// The text of the log of a run that was read. Its traces are let go before the text is made.
fn printed_of<M: Machine>(
    alloc: Global,
    one: TracedDesign,
    cycles: u32,
    turn: u32,
) -> Result<Answer, NoMemory>
    requires groups { one.run.planned.groups ≡ groups_of one.design.app }
    requires accepted { AreAccepted (traced_inputs (seen_traced one) cycles) }
    requires least { 1 ≤ cycles }
    ensures { IfOk result (λ answer. answer
        ≡ simulation_job M.outcome (traced_inputs (seen_traced one) cycles)) }
{
    let TracedDesign { design, run } = one;
    let Run { planned, traces } = run;
    printed::<M>(alloc, &design, &planned, traces, cycles, turn)
}

/// The text of the log of accepted inputs.
fn printed<M: Machine>(
    alloc: Global,
    design: &Design,
    planned: &Planned,
    traces: Traces,
    cycles: u32,
    turn: u32,
) -> Result<Answer, NoMemory>
    requires groups { planned.now.groups ≡ groups_of design.now.app }
    requires accepted { AreAccepted (inputs_of design.now planned.now.plan traces cycles) }
    requires least { 1 ≤ cycles }
    ensures { IfOk result (λ answer. answer
        ≡ simulation_job M.outcome (inputs_of design.now planned.now.plan traces cycles)) }
{
    let log = played::<M>(alloc, design, planned, traces, cycles, turn)?;
    Ok(Answer::done(sim_text(alloc, &log, &design.app)?))
}

// `demo N`: a large run that is made from a number, summed up.
ghost use Rattle.aeth_accepted.specs.Inputs.{AreAccepted};
ghost use Rattle.aeth_answers.specs.Places.{Files};
ghost use Rattle.aeth_answers.specs.Stop.{Answers, Judges};
ghost use Rattle.aeth_app.specs.App.{IsAppOf};
ghost use Rattle.aeth_base.specs.Limits.{max_cycles};
ghost use Rattle.aeth_run_commands.specs.Commands.{HasRanges};
ghost use Rattle.aeth_run_commands.specs.Demo.{demo_command, demo_task, design_text, granted_plan};
ghost use Rattle.aeth_run_commands.specs.Demo.{on_refusals, planned_demo, summary_job, summary_text};
ghost use Rattle.aeth_run_commands.specs.Demo.{texts_task, traced_demo, traces_texts};
ghost use Rattle.aeth_demo.specs.Limits.{demo_cycles, max_demo_number};
ghost use Rattle.aeth_group.specs.Members.{groups_of};
ghost use Rattle.aeth_machine.specs.RunInputs.{inputs_of};
ghost use Rattle.aeth_report.specs.Limits.{max_total};
ghost use Rattle.aeth_report.specs.Regular.{landings_in, offered_in};
ghost use Rattle.aeth_plan.specs.Design.{IsDesign};
ghost use Rattle.aeth_tables.specs.Switching.{spans_of};
ghost use Rattle.std.specs.Prelude.{◌≡◌, ◌≤◌, ℕ, [], IfOk, IfSome, map, string_bytes, sum, sum_by};

use crate::command::RunCommand;
use aeth_alloc::{Outcome, allocate};
use aeth_answers::{Answer, Stop, ended, number_in, push_total};
use aeth_app::App;
use aeth_base::NoMemory;
use aeth_demo::{DEMO_CYCLES, DemoTexts, MAX_DEMO_NUMBER, demo_texts};
use aeth_design_commands::refusals;
use aeth_files::{app_in, chip_in};
use aeth_group::Groups;
use aeth_machine::{Machine, Traces, flits, landings, late, offered, outside, played};
use aeth_plan::{Design, Plan, Planned};
use aeth_report::SimLog;
use aeth_run_files::{receivers_in, switches_in, words_in};
use std::alloc::Global;

/// The turn of the run.
const TURN: u32 = 0;

/// The command of the word N.
pub fn command<'a>(words: &'a [String]) -> Option<RunCommand<'a>>
    ensures command { result ≡ demo_command (map string_bytes words.now) }
    ensures ranges { IfSome result HasRanges }
{
    let [number] = words else {
        return None;
    };
    let number = number_in(0, MAX_DEMO_NUMBER, number.as_str())?;
    Some(RunCommand::Demo { number })
}

/// What the run of a number comes to.
pub fn answer<M: Machine>(alloc: Global, n: u32) -> Result<Answer, Stop>
    requires { n ≤ max_demo_number }
    ensures { (now : Files) → Answers now now (demo_task M.outcome n) result }
{
    let texts = demo_texts(alloc, n)?;
    texts_answer::<M>(alloc, n, &texts)
}

/// The same for the texts.
fn texts_answer<M: Machine>(alloc: Global, n: u32, texts: &DemoTexts) -> Result<Answer, Stop>
    ensures { (now : Files) → Answers now now (texts_task M.outcome n texts.now) result }
{
    let design = design_in(alloc, texts)?;
    planned_answer::<M>(alloc, n, texts, &design)
}

/// The same for a chip and an application.
fn planned_answer<M: Machine>(
    alloc: Global,
    n: u32,
    texts: &DemoTexts,
    design: &Design,
) -> Result<Answer, Stop>
    requires { IsAppOf design.now.chip design.now.app }
    ensures { (now : Files) → Answers now now (planned_demo M.outcome n texts.now design.now) result }
{
    let planned = granted(alloc, design)?;
    traced_answer::<M>(alloc, n, texts, design, &planned)
}

/// The same for an accepted plan.
fn traced_answer<M: Machine>(
    alloc: Global,
    n: u32,
    texts: &DemoTexts,
    design: &Design,
    planned: &Planned,
) -> Result<Answer, Stop>
    requires of_chip { IsAppOf design.now.chip design.now.app }
    requires groups { planned.now.groups ≡ groups_of design.now.app }
    requires design { IsDesign design.now.chip design.now.app planned.now.plan }
    ensures { (now : Files) → Answers now now
        (traced_demo M.outcome n texts.now design.now planned.now.plan) result }
{
    let traces = traces_in(alloc, texts, design, planned)?;
    ended(summed_up::<M>(alloc, n, design, planned, traces))
}

/// The chip and the application of the texts.
fn design_in(alloc: Global, texts: &DemoTexts) -> Result<Design, Stop>
    ensures judges { (now : Files) → Judges now now (design_text texts.now)
        (λ design. design) result }
    ensures app { IfOk result (λ design. IsAppOf design.chip design.app) }
{
    let chip = chip_in(alloc, &texts.chip)?;
    let app = app_in(alloc, &chip, &texts.app)?;
    Ok(Design { chip, app })
}

/// The plan of an allocation, where no unit is refused.
fn granted(alloc: Global, design: &Design) -> Result<Planned, Stop>
    requires { IsAppOf design.now.chip design.now.app }
    ensures judges { (now : Files) → Judges now now
        (granted_plan design.now.chip design.now.app) (λ planned. planned.plan) result }
    ensures groups { IfOk result (λ planned. planned.groups ≡ groups_of design.now.app) }
    ensures design { IfOk result
        (λ planned. IsDesign design.now.chip design.now.app planned.plan) }
{
    // The calls tell what holds of every chip and every application, and of a plan without refusals.
    let _chip_slots = design.chip.slots();
    let _app_slots = design.app.slots();
    aeth_alloc::laws::plans();
    let groups = Groups::of(alloc, &design.app)?;
    let outcome = allocate(alloc, &design.chip, &design.app, &groups)?;
    without_refusals(alloc, &design.app, groups, outcome)
}

/// The plan of an outcome, where no unit is refused.
fn without_refusals(
    alloc: Global,
    app: &App,
    groups: Groups,
    outcome: Outcome,
) -> Result<Planned, Stop>
    ensures judges { (now : Files) → Judges now now
        (on_refusals app.now outcome.plan outcome.refused) (λ planned. planned.plan) result }
    ensures none { IfOk result (λ _. outcome.refused ≡ []) }
    ensures groups { IfOk result (λ planned. planned.groups ≡ groups) }
    ensures plan { IfOk result (λ planned. planned.plan ≡ outcome.plan) }
{
    if outcome.refused.is_empty() {
        let plan = outcome.plan;
        Ok(Planned { groups, plan })
    } else {
        let lines = refusals(alloc, app, &outcome.refused)?;
        Err(Stop::Ends(Answer::not_granted(lines)))
    }
}

/// The traces of the texts, for an accepted plan. With them the inputs of the run are accepted.
fn traces_in(
    alloc: Global,
    texts: &DemoTexts,
    design: &Design,
    planned: &Planned,
) -> Result<Traces, Stop>
    requires of_chip { IsAppOf design.now.chip design.now.app }
    requires groups { planned.now.groups ≡ groups_of design.now.app }
    requires design { IsDesign design.now.chip design.now.app planned.now.plan }
    ensures judges { (now : Files) → Judges now now (traces_texts texts.now design.now.app
        (spans_of design.now.chip design.now.app (groups_of design.now.app) planned.now.plan))
        (λ traces. traces) result }
    ensures accepted { (cycles : ℕ) → cycles ≤ max_cycles → IfOk result
        (λ traces. AreAccepted (inputs_of design.now planned.now.plan traces cycles)) }
{
    let words = words_in(alloc, &design.app, &texts.words)?;
    let receivers = receivers_in(alloc, &design.app, &texts.receivers)?;
    let switches = switches_in(alloc, design, planned, &texts.switches)?;
    Ok(Traces {
        words,
        receivers,
        switches,
    })
}

/// What the run of accepted inputs comes to.
fn summed_up<M: Machine>(
    alloc: Global,
    n: u32,
    design: &Design,
    planned: &Planned,
    traces: Traces,
) -> Result<Answer, NoMemory>
    requires groups { planned.now.groups ≡ groups_of design.now.app }
    requires accepted { AreAccepted
        (inputs_of design.now planned.now.plan traces demo_cycles) }
    ensures { IfOk result (λ answer. answer ≡ summary_job M.outcome n
        (inputs_of design.now planned.now.plan traces demo_cycles)) }
{
    let log = played::<M>(alloc, design, planned, traces, DEMO_CYCLES, TURN)?;
    Ok(Answer::done(summary_line(alloc, n, &planned.plan, &log)?))
}

/// The line of a log whose sums fit 32 bits.
fn summary_line(alloc: Global, n: u32, plan: &Plan, log: &SimLog) -> Result<Vec<u8>, NoMemory>
    requires offered { sum_by offered_in log.now.channels ≤ max_total }
    requires outside { sum_by (λ one. one.outside) log.now.channels ≤ max_total }
    requires landings { sum_by landings_in log.now.channels ≤ max_total }
    requires flits { sum log.now.flits ≤ max_total }
    ensures { IfOk result (λ text. text.items ≡ summary_text n plan.now log.now) }
{
    let mut text = Vec::new(alloc);
    push_total(&mut text, "demo ", u64::from(n))?;
    push_total(&mut text, " granted ", plan.grants().len() as u64)?;
    push_total(&mut text, " offered ", offered(&log.channels))?;
    push_total(&mut text, " outside ", outside(&log.channels))?;
    push_total(&mut text, " landed ", landings(&log.channels))?;
    push_total(&mut text, " late ", late(&log.channels))?;
    push_total(&mut text, " flits ", flits(&log.flits))?;
    text.push(b'\n')?;
    Ok(text)
}

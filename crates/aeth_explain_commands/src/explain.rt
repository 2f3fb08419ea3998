// `explain CHIP APP`: why channels were refused, by certificates.
ghost use Rattle.aeth_answers.specs.Job.{done};
ghost use Rattle.aeth_answers.specs.Places.{files_of};
ghost use Rattle.aeth_answers.specs.Stop.{Answers};
ghost use Rattle.aeth_app.specs.App.{IsAppOf};
ghost use Rattle.aeth_explain.specs.Certificate.{cuts_of};
ghost use Rattle.aeth_explain.specs.CutsText.{block_lines, line_of};
ghost use Rattle.aeth_explain_commands.specs.Explain.{AreBehind, AreRefusals, explain_task};
ghost use Rattle.aeth_explain_commands.specs.Explain.{explanation};
ghost use Rattle.aeth_group.specs.Members.{groups_of};
ghost use Rattle.aeth_text.specs.Spelling.{text_of_lines};
ghost use Rattle.aeth_explain.specs.SlotTables.{AreTables};
ghost use Rattle.aeth_paths.specs.Trials.{IsTrialOf};
ghost use Rattle.aeth_alloc.specs.Trials.{earlier_count};
ghost use Rattle.std.specs.Prelude.{◌≡◌, ◌<◌, ◌+◌, ◌++◌, Contains, IfOk, OnOk, Some, length, slice_get};

use aeth_alloc::Tries;
use aeth_answers::{Answer, FileName, Stop, ended};
use aeth_base::{NoMemory, Side};
use aeth_chip::Distances;
use aeth_explain::{SlotTables, TryJudge, TryLine, certify_with, push_block, push_end, push_head};
use aeth_files::read_design;
use aeth_group::Groups;
use aeth_io::Shelf;
use aeth_paths::Trial;
use aeth_plan::Design;
use std::alloc::Global;

/// The tries of the channels for which the allocation refuses units, and what they are judged by.
#[derive(Drop)]
pub struct Refusals {
    pub groups: Groups,
    pub far: Distances,
    pub tries: Tries,
}

/// The refusals of a design.
pub fn refusals_of(alloc: Global, design: &Design) -> Result<Refusals, NoMemory>
    requires { IsAppOf design.now.chip design.now.app }
    ensures { IfOk result (AreRefusals design.now) }
{
    // The calls tell what holds of every chip and every application.
    let _chip_slots = design.chip.slots();
    let _app_slots = design.app.slots();
    let Design { chip, app } = design;
    let groups = Groups::of(alloc, app)?;
    let far = Distances::of(alloc, chip)?;
    let tries = Tries::of(alloc, chip, &far, app, &groups)?;
    Ok(Refusals { groups, far, tries })
}

/// The certificates of all refusals.
pub fn answer<H: Shelf>(
    alloc: Global,
    chip: &FileName,
    app: &FileName,
    shelf: &mut H,
) -> Result<Answer, Stop>
    ensures { Answers (files_of H.Shelf shelf.old) (files_of H.Shelf shelf.new)
        (explain_task chip.now app.now) result }
{
    let design = read_design(alloc, chip, app, shelf)?;
    ended(explained(alloc, &design))
}

/// The answer on a design.
fn explained(alloc: Global, design: &Design) -> Result<Answer, NoMemory>
    requires { IsAppOf design.now.chip design.now.app }
    ensures { IfOk result (λ answer. answer ≡ done (explanation design.now)) }
{
    let refusals = refusals_of(alloc, design)?;
    Ok(Answer::done(explanation(alloc, design, &refusals)?))
}

/// The text of the certificates of refusals.
fn explanation(alloc: Global, design: &Design, refusals: &Refusals) -> Result<Vec<u8>, NoMemory>
    requires { AreRefusals design.now refusals.now }
    ensures { IfOk result (λ text. text.items ≡ explanation design.now) }
{
    let mut text = Vec::new(alloc);
    push_head(&mut text)?;
    let mut tables = SlotTables::new(alloc, &design.chip, &refusals.groups)?;
    for i in 0..refusals.tries.len() {
        let trial = next_trial(alloc, design, refusals, i, &mut tables)?;
        push_certificate(alloc, design, refusals, &tables, &trial, &mut text)?;
    }
    push_end(&mut text)?;
    Ok(text)
}

/// The try at a place, and its grants before its unit's turn in slot tables that had those of the tries before it.
pub(crate) fn next_trial(
    alloc: Global,
    design: &Design,
    refusals: &Refusals,
    i: usize,
    tables: &mut SlotTables,
) -> Result<Trial, NoMemory>
    requires refusals { AreRefusals design.now refusals.now }
    requires within { i < length refusals.now.tries }
    requires tables { AreBehind design.now refusals.now.tries i tables.old }
    ensures trial { IfOk result (λ trial. slice_get refusals.now.tries i ≡ Some trial) }
    ensures fits { IfOk result (IsTrialOf design.now.chip) }
    ensures tables { IfOk result (λ trial.
        AreTables design.now.chip (groups_of design.now.app) trial.grants tables.new) }
    ensures behind { OnOk result (AreBehind design.now refusals.now.tries (i + 1) tables.new) }
{
    let trial = refusals.tries.trial(alloc, i)?;
    let count = earlier_count(&trial);
    tables.put_up_to(&design.chip, &refusals.groups, trial.grants(), count);
    Ok(trial)
}

/// How many grants of a try were made before its unit's turn: all but the `fwd` grant of the unit, where its `back` channel is
/// tried.
fn earlier_count(trial: &Trial) -> usize
    ensures { result ≡ earlier_count trial.now }
{
    let count = trial.grants().len();
    match trial.ask().side {
        Side::Fwd => count,
        Side::Back => count.saturating_sub(1),
    }
}

/// Appends the line of a try that was refused and those of its shortest cuts.
fn push_certificate(
    alloc: Global,
    design: &Design,
    refusals: &Refusals,
    tables: &SlotTables,
    trial: &Trial,
    text: &mut Vec<u8>,
) -> Result<(), NoMemory>
    requires refusals { AreRefusals design.now refusals.now }
    requires trial { Contains refusals.now.tries trial.now }
    requires fits { IsTrialOf design.now.chip trial.now }
    requires tables { AreTables design.now.chip (groups_of design.now.app) trial.now.grants tables.now }
    ensures { OnOk result (text.new.items
        ≡ text.old.items ++ text_of_lines (block_lines design.now.app (line_of trial.now)
        (cuts_of design.now.chip (groups_of design.now.app) trial.now))) }
{
    let judge = TryJudge::beside(alloc, tables, &design.chip, &refusals.groups, trial)?;
    let line = TryLine::of(trial);
    let made = certify_with(alloc, &refusals.far, &judge)?;
    match made {
        Some(cuts) => push_block(text, &design.app, &line, &cuts),
        // Nothing is a candidate for a try that was refused.
        None => Ok(()),
    }
}

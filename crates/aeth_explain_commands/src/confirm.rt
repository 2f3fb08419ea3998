// `explain CHIP APP CERT`: whether the certificates of a text are complete.
ghost use Rattle.aeth_answers.specs.Files.{judgement};
ghost use Rattle.aeth_answers.specs.Job.{not_granted};
ghost use Rattle.aeth_answers.specs.Places.{Files, files_of};
ghost use Rattle.aeth_answers.specs.Stop.{Answers, Judges};
ghost use Rattle.aeth_app.specs.App.{IsAppOf};
ghost use Rattle.aeth_explain.specs.CutsText.{AreLinksOf, cuts_of_text, line_of};
ghost use Rattle.aeth_explain.specs.Verdict.{verdict_of};
ghost use Rattle.aeth_explain_commands.specs.Explain.{AreRefusals, cert_file, cert_task, confirm_task};
ghost use Rattle.aeth_explain_commands.specs.Explain.{flaw_of, not_dead_text, open_text, refused_tries};
ghost use Rattle.aeth_explain_commands.specs.Explain.{verdicts_job};
ghost use Rattle.aeth_group.specs.Members.{groups_of};
ghost use Rattle.aeth_explain.specs.SlotTables.{AreTables};
ghost use Rattle.aeth_paths.specs.Trials.{IsTrialOf, TrialData};
ghost use Rattle.std.specs.Prelude.{◌≡◌, ◌<◌, All, IfOk, codes, length, map};

use crate::explain::{Refusals, next_trial, refusals_of};
use aeth_alloc::{Refused, Tries};
use aeth_answers::{Answer, FileName, Stop, ended, judged, read_file};
use aeth_app::App;
use aeth_base::{NoMemory, Path};
use aeth_explain::{CutVerdict, Cuts, SlotTables, TryJudge, TryLine, read_blocks, verify_with};
use aeth_files::{push_side_of, read_design};
use aeth_io::Shelf;
use aeth_paths::Trial;
use aeth_plan::Design;
use aeth_text::{line_after, push_links};
use std::alloc::Global;

/// How a text of certificates is called in texts.
const CERT: &str = "cert";

/// Whether the certificates of a text are complete.
pub fn answer<H: Shelf>(
    alloc: Global,
    chip: &FileName,
    app: &FileName,
    cert: &FileName,
    shelf: &mut H,
) -> Result<Answer, Stop>
    ensures { Answers (files_of H.Shelf shelf.old) (files_of H.Shelf shelf.new)
        (confirm_task chip.now app.now cert.now) result }
{
    let design = read_design(alloc, chip, app, shelf)?;
    cert_answer(alloc, &design, cert, shelf)
}

/// The same for a chip and an application.
fn cert_answer<H: Shelf>(
    alloc: Global,
    design: &Design,
    cert: &FileName,
    shelf: &mut H,
) -> Result<Answer, Stop>
    requires { IsAppOf design.now.chip design.now.app }
    ensures { Answers (files_of H.Shelf shelf.old) (files_of H.Shelf shelf.new)
        (cert_task design.now cert.now) result }
{
    let refusals = refusals_of(alloc, design)?;
    judged_answer(alloc, design, &refusals, cert, shelf)
}

/// The same with the refusals.
fn judged_answer<H: Shelf>(
    alloc: Global,
    design: &Design,
    refusals: &Refusals,
    cert: &FileName,
    shelf: &mut H,
) -> Result<Answer, Stop>
    requires { AreRefusals design.now refusals.now }
    ensures { Answers (files_of H.Shelf shelf.old) (files_of H.Shelf shelf.new)
        (cert_task design.now cert.now) result }
{
    let blocks = read_cert_file(alloc, design, refusals, cert, shelf)?;
    ended(verdicts(alloc, design, refusals, &blocks))
}

/// The lists that a text has for each refusal.
fn read_cert_file<H: Shelf>(
    alloc: Global,
    design: &Design,
    refusals: &Refusals,
    name: &FileName,
    shelf: &mut H,
) -> Result<Vec<Cuts>, Stop>
    requires { AreRefusals design.now refusals.now }
    ensures judges { Judges (files_of H.Shelf shelf.old) (files_of H.Shelf shelf.new)
        (cert_file design.now name.now) (λ blocks. blocks.items) result }
    ensures links { IfOk result (λ blocks. All (AreLinksOf design.now.chip) blocks.items) }
    ensures count { IfOk result (λ blocks. length blocks.items ≡ length refusals.now.tries) }
{
    let bytes = read_file(alloc, CERT, name, shelf)?;
    cert_in(alloc, design, refusals, &bytes)
}

/// The same of the bytes of the text.
fn cert_in(
    alloc: Global,
    design: &Design,
    refusals: &Refusals,
    bytes: &[u8],
) -> Result<Vec<Cuts>, Stop>
    requires { AreRefusals design.now refusals.now }
    ensures judges { (now : Files) → Judges now now (judgement (codes "cert")
        (cuts_of_text design.now.chip design.now.app (groups_of design.now.app)
        (map line_of (refused_tries design.now)) bytes.now)) (λ blocks. blocks.items) result }
    ensures links { IfOk result (λ blocks. All (AreLinksOf design.now.chip) blocks.items) }
    ensures count { IfOk result (λ blocks. length blocks.items ≡ length refusals.now.tries) }
{
    let lines = lines_of(alloc, &refusals.tries)?;
    let Design { chip, app } = design;
    judged(
        alloc,
        CERT,
        read_blocks(alloc, bytes, chip, app, &refusals.groups, &lines),
    )
}

/// What the `try` lines tell of tries.
fn lines_of(alloc: Global, tries: &Tries) -> Result<Vec<TryLine>, NoMemory>
    ensures { IfOk result (λ lines. lines.items ≡ map line_of tries.now) }
{
    let mut lines = Vec::new(alloc);
    for i in 0..tries.len() {
        let Refused { unit, side, turn } = tries.refusal(i);
        lines.push(TryLine { unit, side, turn })?;
    }
    Ok(lines)
}

/// What the lists of all tries come to.
fn verdicts(
    alloc: Global,
    design: &Design,
    refusals: &Refusals,
    blocks: &[Cuts],
) -> Result<Answer, NoMemory>
    requires refusals { AreRefusals design.now refusals.now }
    requires links { All (AreLinksOf design.now.chip) blocks.now }
    requires count { length blocks.now ≡ length refusals.now.tries }
    ensures { IfOk result (λ answer. answer
        ≡ verdicts_job design.now 2 refusals.now.tries blocks.now) }
{
    let mut line = 2;
    let mut tables = SlotTables::new(alloc, &design.chip, &refusals.groups)?;
    for i in 0..blocks.len() {
        let cuts = &blocks[i];
        let trial = next_trial(alloc, design, refusals, i, &mut tables)?;
        let verdict = verdict(alloc, design, refusals, &tables, &trial, cuts)?;
        let tried = TryLine::of(&trial);
        if let Some(answer) = flaw(alloc, &design.app, line, &tried, &verdict)? {
            return Ok(answer);
        }
        line = line_after(line, 1 + cuts.len() as usize);
    }
    Ok(Answer::done(Vec::from_slice(alloc, b"complete\n")?))
}

/// What is found of the lists of a try.
fn verdict(
    alloc: Global,
    design: &Design,
    refusals: &Refusals,
    tables: &SlotTables,
    trial: &Trial,
    cuts: &Cuts,
) -> Result<CutVerdict, NoMemory>
    requires refusals { AreRefusals design.now refusals.now }
    requires fits { IsTrialOf design.now.chip trial.now }
    requires tables { AreTables design.now.chip (groups_of design.now.app) trial.now.grants tables.now }
    requires links { AreLinksOf design.now.chip cuts.now }
    ensures { IfOk result (λ verdict. verdict
        ≡ verdict_of design.now.chip (groups_of design.now.app) trial.now cuts.now) }
{
    let Refusals { groups, far, .. } = refusals;
    let judge = TryJudge::beside(alloc, tables, &design.chip, groups, trial)?;
    verify_with(alloc, far, &judge, cuts)
}

/// The answer to a verdict on the lists of a try, whose `try` line has this number, where they are no certificate.
fn flaw(
    alloc: Global,
    app: &App,
    line: u32,
    tried: &TryLine,
    verdict: &CutVerdict,
) -> Result<Option<Answer>, NoMemory>
    ensures { IfOk result (λ found. (trial : TrialData) → line_of trial ≡ tried.now
        → found ≡ flaw_of app.now line trial verdict.now) }
{
    match verdict {
        CutVerdict::Complete => Ok(None),
        CutVerdict::NotDead { cut } => {
            let answer = not_dead(alloc, line_after(line, *cut as usize))?;
            Ok(Some(answer))
        }
        CutVerdict::Open { path } => {
            let answer = open(alloc, app, tried, path)?;
            Ok(Some(answer))
        }
    }
}

/// The answer that the list of a line is no cut.
fn not_dead(alloc: Global, line: u32) -> Result<Answer, NoMemory>
    ensures { IfOk result (λ answer. answer ≡ not_granted (not_dead_text line)) }
{
    let line = format!(in alloc; "not dead {line}\n")?;
    Ok(Answer::not_granted(line.into_bytes()))
}

/// The answer that a path begins with none of the lists of a try.
fn open(alloc: Global, app: &App, tried: &TryLine, path: &Path) -> Result<Answer, NoMemory>
    ensures { IfOk result (λ answer. answer ≡ not_granted (open_text app.now tried.now path.now)) }
{
    let mut text = Vec::from_slice(alloc, b"open ")?;
    push_side_of(&mut text, app, &tried.unit, tried.side)?;
    text.push(b' ')?;
    push_links(&mut text, path)?;
    text.push(b'\n')?;
    Ok(Answer::not_granted(text))
}

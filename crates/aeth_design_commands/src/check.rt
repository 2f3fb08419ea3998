// `check CHIP APP PLAN`: whether a plan is accepted, or the first rule that it breaks.
ghost use Rattle.aeth_answers.specs.Job.{done};
ghost use Rattle.aeth_answers.specs.Places.{files_of};
ghost use Rattle.aeth_answers.specs.Stop.{Answers};
ghost use Rattle.aeth_design_commands.specs.Commands.{HasRanges};
ghost use Rattle.aeth_design_commands.specs.Check.{check_command, check_task, plan_task};
ghost use Rattle.std.specs.Prelude.{◌≡◌, IfOk, IfSome, codes, map, string_bytes};

use crate::command::DesignCommand;
use aeth_answers::{Answer, FileName, Stop, ended};
use aeth_base::NoMemory;
use aeth_files::{read_accepted, read_design};
use aeth_io::Shelf;
use aeth_plan::Design;
use std::alloc::Global;

/// The command of the words CHIP APP PLAN.
pub fn command<'a>(words: &'a [String]) -> Option<DesignCommand<'a>>
    ensures command { result ≡ check_command (map string_bytes words.now) }
    ensures ranges { IfSome result HasRanges }
{
    let [chip, app, plan] = words else {
        return None;
    };
    let chip = FileName::new(chip.as_str())?;
    let app = FileName::new(app.as_str())?;
    let plan = FileName::new(plan.as_str())?;
    Some(DesignCommand::Check { chip, app, plan })
}

/// Whether the plan is accepted.
pub fn answer<H: Shelf>(
    alloc: Global,
    chip: &FileName,
    app: &FileName,
    plan: &FileName,
    shelf: &mut H,
) -> Result<Answer, Stop>
    ensures { Answers (files_of H.Shelf shelf.old) (files_of H.Shelf shelf.new)
        (check_task chip.now app.now plan.now) result }
{
    let design = read_design(alloc, chip, app, shelf)?;
    plan_answer(alloc, &design, plan, shelf)
}

/// Whether the plan is accepted, for a chip and an application.
fn plan_answer<H: Shelf>(
    alloc: Global,
    design: &Design,
    plan: &FileName,
    shelf: &mut H,
) -> Result<Answer, Stop>
    ensures { Answers (files_of H.Shelf shelf.old) (files_of H.Shelf shelf.new)
        (plan_task design.now plan.now) result }
{
    let _planned = read_accepted(alloc, design, plan, shelf)?;
    ended(accepted(alloc))
}

/// The answer that a plan is accepted.
fn accepted(alloc: Global) -> Result<Answer, NoMemory>
    ensures { IfOk result (λ answer. answer ≡ done (codes "accepted\n")) }
{
    Ok(Answer::done(Vec::from_slice(alloc, b"accepted\n")?))
}

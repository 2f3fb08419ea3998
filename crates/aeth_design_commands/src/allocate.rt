// `allocate CHIP APP`: the plan of the allocation, or the units that are refused.
ghost use Rattle.aeth_answers.specs.Places.{files_of};
ghost use Rattle.aeth_answers.specs.Stop.{Answers};
ghost use Rattle.aeth_app.specs.App.{IsAppOf};
ghost use Rattle.aeth_design_commands.specs.Commands.{HasRanges};
ghost use Rattle.aeth_design_commands.specs.Allocate.{allocate_command, allocate_job, allocate_task};
ghost use Rattle.aeth_design_commands.specs.Allocate.{refusal_text, refusals_text};
ghost use Rattle.std.specs.Prelude.{◌≡◌, ◌++◌, IfOk, IfSome, OnOk, map, string_bytes};

use crate::command::DesignCommand;
use aeth_alloc::{Refused, allocate};
use aeth_answers::{Answer, FileName, Stop, ended, push_count};
use aeth_app::App;
use aeth_base::NoMemory;
use aeth_chip::Chip;
use aeth_files::{push_side_of, read_design};
use aeth_group::Groups;
use aeth_io::Shelf;
use aeth_plan::print;
use std::alloc::Global;

/// The command of the words CHIP APP.
pub fn command<'a>(words: &'a [String]) -> Option<DesignCommand<'a>>
    ensures command { result ≡ allocate_command (map string_bytes words.now) }
    ensures ranges { IfSome result HasRanges }
{
    let [chip, app] = words else {
        return None;
    };
    let chip = FileName::new(chip.as_str())?;
    let app = FileName::new(app.as_str())?;
    Some(DesignCommand::Allocate { chip, app })
}

/// The plan of the allocation, or the units that are refused.
pub fn answer<H: Shelf>(
    alloc: Global,
    chip: &FileName,
    app: &FileName,
    shelf: &mut H,
) -> Result<Answer, Stop>
    ensures { Answers (files_of H.Shelf shelf.old) (files_of H.Shelf shelf.new)
        (allocate_task chip.now app.now) result }
{
    let design = read_design(alloc, chip, app, shelf)?;
    ended(allocated(alloc, &design.chip, &design.app))
}

/// The answer for an application on a chip.
fn allocated(alloc: Global, chip: &Chip, app: &App) -> Result<Answer, NoMemory>
    requires { IsAppOf chip.now app.now }
    ensures { IfOk result (λ answer. answer ≡ allocate_job chip.now app.now) }
{
    let groups = Groups::of(alloc, app)?;
    let outcome = allocate(alloc, chip, app, &groups)?;
    if outcome.refused.is_empty() {
        Ok(Answer::done(print(alloc, &outcome.plan, chip, app)?))
    } else {
        Ok(Answer::not_granted(refusals(alloc, app, &outcome.refused)?))
    }
}

/// A line for each refused unit.
pub fn refusals(alloc: Global, app: &App, refused: &[Refused]) -> Result<Vec<u8>, NoMemory>
    ensures { IfOk result (λ text. text.items ≡ refusals_text app.now refused.now) }
{
    let mut text = Vec::new(alloc);
    for unit in refused {
        push_refusal(&mut text, app, unit)?;
    }
    Ok(text)
}

/// Appends the line of a refused unit.
fn push_refusal(text: &mut Vec<u8>, app: &App, refused: &Refused) -> Result<(), NoMemory>
    ensures { OnOk result (text.new.items
        ≡ text.old.items ++ refusal_text app.now refused.now) }
{
    text.extend_from_slice(b"refused unit ")?;
    push_side_of(text, app, &refused.unit, refused.side)?;
    push_count(text, " ", refused.turn)?;
    text.push(b'\n')?;
    Ok(())
}

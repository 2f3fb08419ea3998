// `chip CHIP`: a summary of a chip file.
ghost use Rattle.aeth_answers.specs.Job.{done};
ghost use Rattle.aeth_answers.specs.Places.{files_of};
ghost use Rattle.aeth_answers.specs.Stop.{Answers};
ghost use Rattle.aeth_design_commands.specs.Commands.{HasRanges};
ghost use Rattle.aeth_design_commands.specs.Chip.{chip_command, chip_task, chip_text};
ghost use Rattle.std.specs.Prelude.{◌≡◌, IfOk, IfSome, map, string_bytes};

use crate::command::DesignCommand;
use aeth_answers::{Answer, FileName, Stop, ended, push_count};
use aeth_base::NoMemory;
use aeth_chip::{Chip, Summary};
use aeth_files::read_chip_file;
use aeth_io::Shelf;
use std::alloc::Global;

/// The command of the word CHIP.
pub fn command<'a>(words: &'a [String]) -> Option<DesignCommand<'a>>
    ensures command { result ≡ chip_command (map string_bytes words.now) }
    ensures ranges { IfSome result HasRanges }
{
    let [chip] = words else {
        return None;
    };
    let chip = FileName::new(chip.as_str())?;
    Some(DesignCommand::Chip { chip })
}

/// The summary of a chip file.
pub fn answer<H: Shelf>(alloc: Global, chip: &FileName, shelf: &mut H) -> Result<Answer, Stop>
    ensures { Answers (files_of H.Shelf shelf.old) (files_of H.Shelf shelf.new)
        (chip_task chip.now) result }
{
    let chip = read_chip_file(alloc, chip, shelf)?;
    ended(summed_up(alloc, &chip))
}

/// The line of a chip as an answer.
fn summed_up(alloc: Global, chip: &Chip) -> Result<Answer, NoMemory>
    ensures { IfOk result (λ answer. answer ≡ done (chip_text chip.now)) }
{
    Ok(Answer::done(chip_line(alloc, chip)?))
}

fn chip_line(alloc: Global, chip: &Chip) -> Result<Vec<u8>, NoMemory>
    ensures { IfOk result (λ text. text.items ≡ chip_text chip.now) }
{
    let summary = Summary::of(chip);
    let mut text = Vec::new(alloc);
    push_count(&mut text, "chip slots ", chip.slots())?;
    push_count(&mut text, " routers ", chip.routers())?;
    push_count(&mut text, " nis ", chip.nis())?;
    push_count(&mut text, " links ", chip.links())?;
    push_count(&mut text, " far ", summary.far)?;
    push_count(&mut text, " unreached ", summary.unreached)?;
    text.push(b'\n')?;
    Ok(text)
}

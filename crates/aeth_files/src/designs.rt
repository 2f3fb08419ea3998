// Designs: a chip, and an application for it.
ghost use Rattle.aeth_answers.specs.Places.{files_of};
ghost use Rattle.aeth_answers.specs.Stop.{Judges};
ghost use Rattle.aeth_app.specs.App.{IsAppOf};
ghost use Rattle.aeth_files.specs.Files.{design_file};
ghost use Rattle.std.specs.Prelude.{IfOk};

use crate::files::{read_app_file, read_chip_file};
use aeth_answers::{FileName, Stop};
use aeth_io::Shelf;
use aeth_plan::Design;
use std::alloc::Global;

/// The chip of a file, and the application of another for it.
pub fn read_design<H: Shelf>(
    alloc: Global,
    chip: &FileName,
    app: &FileName,
    shelf: &mut H,
) -> Result<Design, Stop>
    ensures judges { Judges (files_of H.Shelf shelf.old) (files_of H.Shelf shelf.new)
        (design_file chip.now app.now) (λ design. design) result }
    ensures app { IfOk result (λ design. IsAppOf design.chip design.app) }
{
    let chip = read_chip_file(alloc, chip, shelf)?;
    let app = read_app_file(alloc, &chip, app, shelf)?;
    Ok(Design { chip, app })
}

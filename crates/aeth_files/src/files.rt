// Files of designs and plans that a command reads and judges.
ghost use Rattle.aeth_app.specs.App.{IsAppOf};
ghost use Rattle.aeth_app.specs.AppFile.{app_of};
ghost use Rattle.aeth_chip.specs.ChipFile.{chip_of};
ghost use Rattle.aeth_answers.specs.Files.{judgement};
ghost use Rattle.aeth_answers.specs.Places.{Files, files_of};
ghost use Rattle.aeth_answers.specs.Stop.{Judges};
ghost use Rattle.aeth_files.specs.Files.{app_file, chip_file, plan_file};
ghost use Rattle.aeth_group.specs.Members.{groups_of};
ghost use Rattle.aeth_plan.specs.Plan.{IsPlanOf};
ghost use Rattle.aeth_plan.specs.PlanText.{plan_of};
ghost use Rattle.std.specs.Prelude.{◌≡◌, IfOk, codes};

use aeth_answers::{FileName, Stop, judged, read_file};
use aeth_app::{App, read_app};
use aeth_chip::{Chip, read_chip};
use aeth_group::Groups;
use aeth_io::Shelf;
use aeth_plan::{Plan, read_plan};
use std::alloc::Global;

/// How a chip file is called in texts.
const CHIP: &str = "chip";

/// How an application file is called in texts.
const APP: &str = "app";

/// How a plan text is called in texts.
const PLAN: &str = "plan";

/// The chip of a chip file's bytes.
pub fn chip_in(alloc: Global, bytes: &[u8]) -> Result<Chip, Stop>
    ensures { (now : Files) → Judges now now (judgement (codes "chip") (chip_of bytes.now))
        (λ chip. chip) result }
{
    judged(alloc, CHIP, read_chip(alloc, bytes))
}

/// The application of an application file's bytes, for a chip.
pub fn app_in(alloc: Global, chip: &Chip, bytes: &[u8]) -> Result<App, Stop>
    ensures judges { (now : Files) → Judges now now
        (judgement (codes "app") (app_of chip.now bytes.now)) (λ app. app) result }
    ensures app { IfOk result (IsAppOf chip.now) }
{
    judged(alloc, APP, read_app(alloc, bytes, chip))
}

/// The plan of a plan text's bytes, for a chip and an application with its groups.
fn plan_in(
    alloc: Global,
    chip: &Chip,
    app: &App,
    groups: &Groups,
    bytes: &[u8],
) -> Result<Plan, Stop>
    requires { groups.now ≡ groups_of app.now }
    ensures judges { (now : Files) → Judges now now
        (judgement (codes "plan") (plan_of chip.now app.now (groups_of app.now) bytes.now))
        (λ plan. plan) result }
    ensures plan { IfOk result (IsPlanOf chip.now app.now groups.now) }
{
    judged(alloc, PLAN, read_plan(alloc, bytes, chip, app, groups))
}

/// The chip of a file.
pub fn read_chip_file<H: Shelf>(alloc: Global, name: &FileName, shelf: &mut H) -> Result<Chip, Stop>
    ensures { Judges (files_of H.Shelf shelf.old) (files_of H.Shelf shelf.new)
        (chip_file name.now) (λ chip. chip) result }
{
    let bytes = read_file(alloc, CHIP, name, shelf)?;
    chip_in(alloc, &bytes)
}

/// The application of a file, for a chip.
pub fn read_app_file<H: Shelf>(
    alloc: Global,
    chip: &Chip,
    name: &FileName,
    shelf: &mut H,
) -> Result<App, Stop>
    ensures judges { Judges (files_of H.Shelf shelf.old) (files_of H.Shelf shelf.new)
        (app_file chip.now name.now) (λ app. app) result }
    ensures app { IfOk result (IsAppOf chip.now) }
{
    let bytes = read_file(alloc, APP, name, shelf)?;
    app_in(alloc, chip, &bytes)
}

/// The plan of a text, for a chip and an application with its groups.
pub fn read_plan_file<H: Shelf>(
    alloc: Global,
    chip: &Chip,
    app: &App,
    groups: &Groups,
    name: &FileName,
    shelf: &mut H,
) -> Result<Plan, Stop>
    requires { groups.now ≡ groups_of app.now }
    ensures judges { Judges (files_of H.Shelf shelf.old) (files_of H.Shelf shelf.new)
        (plan_file chip.now app.now name.now) (λ plan. plan) result }
    ensures plan { IfOk result (IsPlanOf chip.now app.now groups.now) }
{
    let bytes = read_file(alloc, PLAN, name, shelf)?;
    plan_in(alloc, chip, app, groups, &bytes)
}

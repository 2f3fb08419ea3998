// Use cases with an accepted plan, which commands read together.
ghost use Rattle.aeth_answers.specs.Places.{files_of};
ghost use Rattle.aeth_answers.specs.Stop.{Judges};
ghost use Rattle.aeth_plan_commands.specs.PlannedUses.{plan_for, planned_use, seen_use};
ghost use Rattle.aeth_plan_commands.specs.PlannedUses.{use_files_of, use_for};
ghost use Rattle.aeth_group.specs.Members.{groups_of};
ghost use Rattle.aeth_plan.specs.Design.{IsDesign};
ghost use Rattle.std.specs.Prelude.{◌≡◌, ◌<◌, IfOk, length, map, string_bytes};

use aeth_answers::{FileName, Stop};
use aeth_base::{Name, UseId};
use aeth_files::{named_use, read_accepted, read_design};
use aeth_io::Shelf;
use aeth_plan::{Design, Planned};
use std::alloc::Global;

/// The files of a use case with its plan, and the name of the use case.
#[derive(Drop)]
pub struct UseFiles<'a> {
    pub chip: FileName<'a>,
    pub app: FileName<'a>,
    pub plan: FileName<'a>,
    pub name: Name,
}

impl<'a> UseFiles<'a> {
    /// The words CHIP APP PLAN USE, where they are three names of files and a name.
    pub fn of(words: &'a [String]) -> Option<UseFiles<'a>>
        ensures { result ≡ use_files_of (map string_bytes words.now) }
    {
        let [chip, app, plan, name] = words else {
            return None;
        };
        Some(UseFiles {
            chip: FileName::new(chip.as_str())?,
            app: FileName::new(app.as_str())?,
            plan: FileName::new(plan.as_str())?,
            name: Name::new(name.as_bytes())?,
        })
    }
}

/// A chip and an application, an accepted plan for these, and a use case of the application.
#[derive(Drop)]
pub struct PlannedUse {
    pub design: Design,
    pub planned: Planned,
    pub use_case: UseId,
}

/// The use case of the name, with the chip, the application and the plan of the files.
pub fn read_planned_use<H: Shelf>(
    alloc: Global,
    files: &UseFiles,
    shelf: &mut H,
) -> Result<PlannedUse, Stop>
    ensures judges { Judges (files_of H.Shelf shelf.old) (files_of H.Shelf shelf.new)
        (planned_use files.now) seen_use result }
    ensures groups { IfOk result (λ one. one.planned.groups ≡ groups_of one.design.app) }
    ensures design { IfOk result (λ one. IsDesign one.design.chip one.design.app one.planned.plan) }
    ensures use_case { IfOk result (λ one. one.use_case.0 < length one.design.app.uses) }
{
    let design = read_design(alloc, &files.chip, &files.app, shelf)?;
    with_use(alloc, design, files, shelf)
}

/// The same with the chip and the application.
fn with_use<H: Shelf>(
    alloc: Global,
    design: Design,
    files: &UseFiles,
    shelf: &mut H,
) -> Result<PlannedUse, Stop>
    ensures judges { Judges (files_of H.Shelf shelf.old) (files_of H.Shelf shelf.new)
        (use_for files.now design) seen_use result }
    ensures groups { IfOk result (λ one. one.planned.groups ≡ groups_of one.design.app) }
    ensures design { IfOk result (λ one. IsDesign one.design.chip one.design.app one.planned.plan) }
    ensures use_case { IfOk result (λ one. one.use_case.0 < length one.design.app.uses) }
{
    let u = named_use(alloc, &design.app, &files.name)?;
    with_plan(alloc, design, u, files, shelf)
}

/// The same with the use case.
fn with_plan<H: Shelf>(
    alloc: Global,
    design: Design,
    u: UseId,
    files: &UseFiles,
    shelf: &mut H,
) -> Result<PlannedUse, Stop>
    requires { u.0 < length design.app.uses }
    ensures judges { Judges (files_of H.Shelf shelf.old) (files_of H.Shelf shelf.new)
        (plan_for files.now design u) seen_use result }
    ensures groups { IfOk result (λ one. one.planned.groups ≡ groups_of one.design.app) }
    ensures design { IfOk result (λ one. IsDesign one.design.chip one.design.app one.planned.plan) }
    ensures use_case { IfOk result (λ one. one.use_case.0 < length one.design.app.uses) }
{
    let planned = read_accepted(alloc, &design, &files.plan, shelf)?;
    Ok(PlannedUse {
        design,
        planned,
        use_case: u,
    })
}

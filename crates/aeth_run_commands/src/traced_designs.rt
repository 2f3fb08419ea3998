// Chips and applications with an accepted plan and traces, which commands on runs read together.
ghost use Rattle.aeth_accepted.specs.Inputs.{AreAccepted};
ghost use Rattle.aeth_answers.specs.Places.{files_of};
ghost use Rattle.aeth_answers.specs.Stop.{Judges};
ghost use Rattle.aeth_app.specs.App.{IsAppOf};
ghost use Rattle.aeth_base.specs.Limits.{max_cycles};
ghost use Rattle.aeth_group.specs.Members.{groups_of};
ghost use Rattle.aeth_run_commands.specs.TracedDesigns.{files_named, seen_traced, traced_design};
ghost use Rattle.aeth_run_commands.specs.TracedDesigns.{traced_for, traced_inputs};
ghost use Rattle.std.specs.Prelude.{◌≡◌, ◌≤◌, ℕ, IfOk};

use aeth_answers::{FileName, Stop};
use aeth_files::read_design;
use aeth_io::Shelf;
use aeth_plan::Design;
use aeth_run_files::{Run, RunFiles, read_run};
use std::alloc::Global;

/// The files of a run with these names: a chip file, an application file, a plan text, and traces,
/// which are words, receivers' rows and switches. There are none where a name is empty.
pub fn files_named<'a>(
    chip: &'a str,
    app: &'a str,
    plan: &'a str,
    words: &'a str,
    receivers: &'a str,
    switches: &'a str,
) -> Option<RunFiles<'a>>
    ensures { result ≡ files_named chip.now app.now plan.now words.now receivers.now switches.now }
{
    Some(RunFiles {
        chip: FileName::new(chip)?,
        app: FileName::new(app)?,
        plan: FileName::new(plan)?,
        words: FileName::new(words)?,
        receivers: FileName::new(receivers)?,
        switches: FileName::new(switches)?,
    })
}

/// A chip and an application, with an accepted plan and traces for these.
#[derive(Drop)]
pub struct TracedDesign {
    pub design: Design,
    pub run: Run,
}

/// The chip and the application of the files, and the plan and the traces for these. With them the
/// inputs of the run are accepted, for each number of its cycles.
pub fn read_traced<H: Shelf>(
    alloc: Global,
    files: &RunFiles,
    shelf: &mut H,
) -> Result<TracedDesign, Stop>
    ensures judges { Judges (files_of H.Shelf shelf.old) (files_of H.Shelf shelf.new)
        (traced_design files.now) seen_traced result }
    ensures groups { IfOk result (λ one. one.run.planned.groups ≡ groups_of one.design.app) }
    ensures accepted { (cycles : ℕ) → cycles ≤ max_cycles → IfOk result
        (λ one. AreAccepted (traced_inputs (seen_traced one) cycles)) }
{
    let design = read_design(alloc, &files.chip, &files.app, shelf)?;
    with_run(alloc, design, files, shelf)
}

/// The same with the chip and the application.
fn with_run<H: Shelf>(
    alloc: Global,
    design: Design,
    files: &RunFiles,
    shelf: &mut H,
) -> Result<TracedDesign, Stop>
    requires { IsAppOf design.chip design.app }
    ensures judges { Judges (files_of H.Shelf shelf.old) (files_of H.Shelf shelf.new)
        (traced_for files.now design) seen_traced result }
    ensures groups { IfOk result (λ one. one.run.planned.groups ≡ groups_of one.design.app) }
    ensures accepted { (cycles : ℕ) → cycles ≤ max_cycles → IfOk result
        (λ one. AreAccepted (traced_inputs (seen_traced one) cycles)) }
{
    let run = read_run(alloc, &design, files, shelf)?;
    Ok(TracedDesign { design, run })
}

// Runs: an accepted plan, and then the traces for it.
ghost use Rattle.aeth_accepted.specs.Inputs.{AreAccepted};
ghost use Rattle.aeth_answers.specs.Places.{files_of};
ghost use Rattle.aeth_answers.specs.Stop.{Judges};
ghost use Rattle.aeth_app.specs.App.{IsAppOf};
ghost use Rattle.aeth_base.specs.Limits.{max_cycles};
ghost use Rattle.aeth_run_files.specs.Runs.{data_of, run_files, traced_files};
ghost use Rattle.aeth_group.specs.Members.{groups_of};
ghost use Rattle.aeth_machine.specs.RunInputs.{inputs_of};
ghost use Rattle.aeth_plan.specs.Design.{IsDesign};
ghost use Rattle.std.specs.Prelude.{◌≡◌, ◌≤◌, ℕ, IfOk};

use crate::traces::read_traces;
use aeth_answers::{FileName, Stop};
use aeth_files::read_accepted;
use aeth_io::Shelf;
use aeth_machine::Traces;
use aeth_plan::{Design, Planned};
use std::alloc::Global;

/// The files of a run.
#[derive(Drop)]
pub struct RunFiles<'a> {
    pub chip: FileName<'a>,
    pub app: FileName<'a>,
    pub plan: FileName<'a>,
    pub words: FileName<'a>,
    pub receivers: FileName<'a>,
    pub switches: FileName<'a>,
}

/// What a design is run with: a plan with the groups of its application, and traces.
#[derive(Drop)]
pub struct Run {
    pub planned: Planned,
    pub traces: Traces,
}

/// The plan of the files of a run, where it is accepted, and then their traces for it. With them the
/// inputs of the run are accepted, for each number of its cycles.
pub fn read_run<H: Shelf>(
    alloc: Global,
    design: &Design,
    files: &RunFiles,
    shelf: &mut H,
) -> Result<Run, Stop>
    requires { IsAppOf design.now.chip design.now.app }
    ensures judges { Judges (files_of H.Shelf shelf.old) (files_of H.Shelf shelf.new)
        (run_files design.now files.now) data_of result }
    ensures groups { IfOk result (λ run. run.planned.groups ≡ groups_of design.now.app) }
    ensures accepted { (cycles : ℕ) → cycles ≤ max_cycles → IfOk result
        (λ run. AreAccepted (inputs_of design.now run.planned.plan run.traces cycles)) }
{
    let planned = read_accepted(alloc, design, &files.plan, shelf)?;
    with_traces(alloc, design, planned, files, shelf)
}

/// The same with the plan.
fn with_traces<H: Shelf>(
    alloc: Global,
    design: &Design,
    planned: Planned,
    files: &RunFiles,
    shelf: &mut H,
) -> Result<Run, Stop>
    requires of_chip { IsAppOf design.now.chip design.now.app }
    requires groups { planned.groups ≡ groups_of design.now.app }
    requires design { IsDesign design.now.chip design.now.app planned.plan }
    ensures judges { Judges (files_of H.Shelf shelf.old) (files_of H.Shelf shelf.new)
        (traced_files design.now files.now planned.plan) data_of result }
    ensures groups { IfOk result (λ run. run.planned.groups ≡ groups_of design.now.app) }
    ensures accepted { (cycles : ℕ) → cycles ≤ max_cycles → IfOk result
        (λ run. AreAccepted (inputs_of design.now run.planned.plan run.traces cycles)) }
{
    let traces = read_traces(alloc, design, &planned, files, shelf)?;
    Ok(Run { planned, traces })
}

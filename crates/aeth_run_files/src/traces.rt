// Traces: the words that are offered in a run, what its receivers take, and its switches.
ghost use Rattle.aeth_accepted.specs.Inputs.{AreAccepted};
ghost use Rattle.aeth_answers.specs.Places.{files_of};
ghost use Rattle.aeth_answers.specs.Stop.{Judges};
ghost use Rattle.aeth_app.specs.App.{IsAppOf};
ghost use Rattle.aeth_base.specs.Limits.{max_cycles};
ghost use Rattle.aeth_run_files.specs.TraceFiles.{traces_files};
ghost use Rattle.aeth_group.specs.Members.{groups_of};
ghost use Rattle.aeth_machine.specs.RunInputs.{inputs_of};
ghost use Rattle.aeth_plan.specs.Design.{IsDesign};
ghost use Rattle.aeth_tables.specs.Switching.{spans_of};
ghost use Rattle.std.specs.Prelude.{◌≡◌, ◌≤◌, ℕ, IfOk};

use crate::files::{read_receivers_file, read_switches_file, read_words_file};
use crate::runs::RunFiles;
use aeth_answers::Stop;
use aeth_io::Shelf;
use aeth_machine::Traces;
use aeth_plan::{Design, Planned};
use std::alloc::Global;

/// The traces of the files of a run, for an accepted plan. With them its inputs are accepted, for each
/// number of cycles of a run.
pub fn read_traces<H: Shelf>(
    alloc: Global,
    design: &Design,
    planned: &Planned,
    files: &RunFiles,
    shelf: &mut H,
) -> Result<Traces, Stop>
    requires of_chip { IsAppOf design.now.chip design.now.app }
    requires groups { planned.now.groups ≡ groups_of design.now.app }
    requires design { IsDesign design.now.chip design.now.app planned.now.plan }
    ensures judges { Judges (files_of H.Shelf shelf.old) (files_of H.Shelf shelf.new)
        (traces_files design.now.app (spans_of design.now.chip design.now.app
        (groups_of design.now.app) planned.now.plan) files.now) (λ traces. traces) result }
    ensures accepted { (cycles : ℕ) → cycles ≤ max_cycles → IfOk result
        (λ traces. AreAccepted (inputs_of design.now planned.now.plan traces cycles)) }
{
    let words = read_words_file(alloc, &design.app, &files.words, shelf)?;
    let receivers = read_receivers_file(alloc, &design.app, &files.receivers, shelf)?;
    let switches = read_switches_file(alloc, design, planned, &files.switches, shelf)?;
    Ok(Traces {
        words,
        receivers,
        switches,
    })
}

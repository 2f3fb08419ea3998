//! What holds of the logs of links, over the definitions alone.
ghost use Rattle.std.specs.Prelude.{◌≡◌, ◌≤◌, ℕ};
ghost use Rattle.aeth_accepted.specs.Inputs.{AreAccepted, Inputs, run_of};
ghost use Rattle.aeth_audit.specs.Audit.{audit_of};
ghost use Rattle.aeth_audit.specs.declared.verdict.Audit.TheVariants.{Clean};
ghost use Rattle.aeth_links.specs.Carried.{carried_rows};
ghost use Rattle.aeth_reconf.specs.Timeline.{timeline_of};

/// What the links carry in the run of accepted inputs is a clean log for each number of cycles up to
/// that of the run.
pub fn carried_logs_are_clean()
    ensures { (inputs : Inputs) → AreAccepted inputs → (cycles : ℕ) → cycles ≤ inputs.cycles
        → (let run = run_of inputs in
        audit_of run.design (timeline_of run.design.groups run.spans run.switches)
        (carried_rows run) cycles ≡ Clean) }
{
    aeth_accepted::laws::runs_are_sound();
    aeth_reconf::laws::timelines_have_sessions();
}

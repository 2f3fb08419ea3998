//! What holds of the jobs of commands, by the files that they read.
ghost use Rattle.std.specs.Prelude.{◌≡◌, ◌≢◌, ◌≤◌, ℕ, List, Option, Some};
ghost use Rattle.aeth_accepted.specs.Inputs.{Inputs};
ghost use Rattle.aeth_answers.specs.Job.{Job};
ghost use Rattle.aeth_answers.specs.Status.{done_status, refused_status};
ghost use Rattle.aeth_answers.specs.Task.{Task, ends, job_with};
ghost use Rattle.aeth_base.specs.Limits.{max_cycles};
ghost use Rattle.aeth_chain.specs.ItemNames.{AreItemNames};
ghost use Rattle.aeth_chain.specs.declared.names.ItemName.{ItemName};
ghost use Rattle.aeth_command_laws.specs.Chained.{IsChained};
ghost use Rattle.aeth_command_laws.specs.Explained.{IsConfirmed, IsExplained};
ghost use Rattle.aeth_command_laws.specs.Logged.{IsAudited};
ghost use Rattle.aeth_command_laws.specs.Tabled.{AreTablesTold};
ghost use Rattle.aeth_command_laws.specs.Told.{AreInputsTold, IsAllocated, IsSimulated};
ghost use Rattle.aeth_command_laws.specs.Versions.{AreDesignVersions, AreFileVersions};
ghost use Rattle.aeth_command_laws.specs.Versions.{ArePlanVersions, AreRefusalVersions};
ghost use Rattle.aeth_design_commands.specs.Allocate.{allocate_task};
ghost use Rattle.aeth_design_commands.specs.Commands.{design_task};
ghost use Rattle.aeth_design_commands.specs.declared.command.DesignCommand.{DesignCommand};
ghost use Rattle.aeth_explain_commands.specs.Commands.{refusals_task};
ghost use Rattle.aeth_explain_commands.specs.Explain.{confirm_task, explain_task};
ghost use Rattle.aeth_explain_commands.specs.declared.command.ExplainCommand.{ExplainCommand};
ghost use Rattle.aeth_run_files.specs.declared.runs.RunFiles.{RunFiles};
ghost use Rattle.aeth_plan_commands.specs.Audit.{audit_task};
ghost use Rattle.aeth_plan_commands.specs.Chain.{chain_task};
ghost use Rattle.aeth_plan_commands.specs.Commands.{plan_task};
ghost use Rattle.aeth_plan_commands.specs.Tables.{tables_task};
ghost use Rattle.aeth_plan_commands.specs.declared.audit.AuditFiles.{AuditFiles};
ghost use Rattle.aeth_plan_commands.specs.declared.chain.ChainFiles.{ChainFiles};
ghost use Rattle.aeth_plan_commands.specs.declared.command.PlanCommand.{PlanCommand};
ghost use Rattle.aeth_plan_commands.specs.declared.planned_uses.UseFiles.{UseFiles};
ghost use Rattle.aeth_report.specs.Log.{LogData};
ghost use Rattle.aeth_run_commands.specs.Simulate.{simulate_task};
ghost use Rattle.aeth_run_commands.specs.TracedDesigns.{TracedData, traced_design, traced_inputs};

/// Where a job that reads the files of a run is done, they told accepted inputs, and what comes next of
/// these is the job.
pub fn traced_runs()
    ensures { (content : List ℕ → Option (List ℕ)) (files : RunFiles) (cycles : ℕ)
        (next : TracedData → Task) (asked : Job) → cycles ≤ max_cycles
        → job_with content (traced_design files next) ≡ Some asked → asked.status ≡ done_status
        → (one : TracedData) × AreInputsTold content files cycles (traced_inputs one cycles)
        × (job_with content (next one) ≡ Some asked) }
{
    aeth_chip::laws::files();
    aeth_app::laws::files();
    aeth_check::laws::verdicts();
    aeth_trace::laws::files();
}

/// Where a job of `simulate` or `simulate-tables` is done, its files told accepted inputs, and it prints
/// the log that these give.
pub fn simulated_runs()
    ensures { (outcome : Inputs → LogData) (content : List ℕ → Option (List ℕ)) (files : RunFiles)
        (cycles : ℕ) (asked : Job) → cycles ≤ max_cycles
        → job_with content (simulate_task outcome files cycles) ≡ Some asked
        → asked.status ≡ done_status → IsSimulated outcome content files cycles asked }
{
    traced_runs();
}

/// Where a job of `allocate` refuses no file, its files told a chip and an application for it, and it is
/// the allocation of these: the plan, or the units that are refused.
pub fn allocated_designs()
    ensures { (content : List ℕ → Option (List ℕ)) (chip_name app_name : List ℕ) (asked : Job)
        → job_with content (allocate_task chip_name app_name) ≡ Some asked
        → asked.status ≢ refused_status → IsAllocated content chip_name app_name asked }
{
    aeth_chip::laws::files();
    aeth_app::laws::files();
}

/// Where a job of `explain` refuses no file, its files told a chip and an application for it, and it prints a
/// certificate for each unit that the allocation of these refuses. With a text of certificates, the file
/// told lists of links for each, and the job is that they are complete exactly where the lists of each are
/// a certificate.
pub fn refusals_are_explained()
    ensures explained { (content : List ℕ → Option (List ℕ)) (chip_name app_name : List ℕ)
        (asked : Job) → job_with content (explain_task chip_name app_name) ≡ Some asked
        → asked.status ≢ refused_status → IsExplained content chip_name app_name asked }
    ensures confirmed { (content : List ℕ → Option (List ℕ)) (chip_name app_name cert_name : List ℕ)
        (asked : Job) → job_with content (confirm_task chip_name app_name cert_name) ≡ Some asked
        → asked.status ≢ refused_status
        → IsConfirmed content chip_name app_name cert_name asked }
{
    aeth_chip::laws::files();
    aeth_app::laws::files();
}

/// Where a job of `tables` is done, its files told a plan that is accepted, and it prints the tables of
/// the use case. Each run of this plan is bound by what was printed.
pub fn tables_bind()
    ensures { (content : List ℕ → Option (List ℕ)) (files : UseFiles) (asked : Job)
        → job_with content (tables_task files) ≡ Some asked → asked.status ≡ done_status
        → AreTablesTold content files asked }
{
    aeth_chip::laws::files();
    aeth_app::laws::files();
    aeth_check::laws::verdicts();
    aeth_trace::laws::files();
    aeth_tables::laws::promises();
    aeth_accepted::laws::sessions_run_by_tables();
}

/// Where a job of `chain` is done, its files told a plan that is accepted, words and receivers, and it
/// prints the log of a run of the chain, whose words have landed when they are due.
pub fn chains_meet_bounds()
    ensures { (content : List ℕ → Option (List ℕ)) (files : ChainFiles) (name : List ℕ)
        (names : List ItemName) (cycles : ℕ) (asked : Job) → AreItemNames names
        → job_with content (chain_task files name names cycles) ≡ Some asked
        → asked.status ≡ done_status → IsChained content files name names cycles asked }
{
    aeth_chip::laws::files();
    aeth_app::laws::files();
    aeth_check::laws::verdicts();
    aeth_trace::laws::files();
    aeth_chain::laws::items_are_chains();
    aeth_chain::laws::chains_land();
}

/// A job of `audit` says that the log is clean exactly where its files told a log of which no row breaks a
/// rule, by a plan that is accepted.
pub fn audits_are_exact()
    ensures { (content : List ℕ → Option (List ℕ)) (files : AuditFiles) (cycles : ℕ) (asked : Job)
        → job_with content (audit_task files cycles) ≡ Some asked
        → IsAudited content files cycles asked }
{
    aeth_chip::laws::files();
    aeth_app::laws::files();
    aeth_check::laws::verdicts();
    aeth_trace::laws::files();
    aeth_accepted::laws::runs_are_sound();
    aeth_audit::laws::audits();
}

/// The job of a command is the same for a chip in version 1 and for the same document with version 2, where
/// the command reads no other file by the name of the chip's.
pub fn jobs_are_of_either_version()
    ensures designs { (old new : List ℕ → Option (List ℕ)) (one : DesignCommand)
        → AreDesignVersions old new one
        → job_with old (design_task one) ≡ job_with new (design_task one) }
    ensures refusals { (old new : List ℕ → Option (List ℕ)) (one : ExplainCommand)
        → AreRefusalVersions old new one
        → job_with old (refusals_task one) ≡ job_with new (refusals_task one) }
    ensures plans { (old new : List ℕ → Option (List ℕ)) (one : PlanCommand)
        → ArePlanVersions old new one
        → job_with old (plan_task one) ≡ job_with new (plan_task one) }
    ensures traced { (old new : List ℕ → Option (List ℕ)) (files : RunFiles)
        → AreFileVersions old new files → (next : TracedData → Job)
        → job_with old (traced_design files (λ one. ends (next one)))
        ≡ job_with new (traced_design files (λ one. ends (next one))) }
{
    aeth_chip::laws::versions();
}

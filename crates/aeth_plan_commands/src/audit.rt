// `audit CHIP APP PLAN SWITCHES LOG CYCLES`: whether each flit of a log of links is one that the
// network of an accepted plan may carry there.
ghost use Rattle.aeth_answers.specs.Files.{judgement};
ghost use Rattle.aeth_answers.specs.Job.{not_granted};
ghost use Rattle.aeth_answers.specs.Places.{Files, files_of};
ghost use Rattle.aeth_answers.specs.Stop.{Answers, Judges};
ghost use Rattle.aeth_app.specs.App.{IsAppOf};
ghost use Rattle.aeth_audit.specs.LinkLog.{AreLinkRowsOf, link_log_of};
ghost use Rattle.aeth_plan_commands.specs.Commands.{HasRanges};
ghost use Rattle.aeth_plan_commands.specs.Audit.{audit_command, audit_job, audit_task, audited};
ghost use Rattle.aeth_plan_commands.specs.Audit.{fault_text, log_file, log_task, planned_task};
ghost use Rattle.aeth_plan_commands.specs.Audit.{switched_task};
ghost use Rattle.aeth_group.specs.Members.{groups_of};
ghost use Rattle.aeth_plan.specs.Design.{IsDesign};
ghost use Rattle.aeth_tables.specs.Switching.{spans_of};
ghost use Rattle.aeth_trace.specs.Switches.{AreSwitchesOf};
ghost use Rattle.std.specs.Prelude.{◌≡◌, IfOk, IfSome, codes, length, map, string_bytes};

use crate::accepted::AcceptedDesign;
use crate::command::PlanCommand;
use aeth_answers::{Answer, FileName, Stop, ended, judged, number_in, read_file};
use aeth_audit::{Audit, LinkLog, audit, read_log};
use aeth_base::{MAX_CYCLES, NoMemory};
use aeth_chip::Chip;
use aeth_files::{read_accepted, read_design};
use aeth_io::Shelf;
use aeth_plan::{Design, Planned};
use aeth_reconf::Timeline;
use aeth_run_files::read_switches_file;
use aeth_tables::spans;
use aeth_trace::Switches;
use std::alloc::Global;

/// How a log of links is called in texts.
const LOG: &str = "log";

/// The files of an audit.
#[derive(Drop)]
pub struct AuditFiles<'a> {
    pub chip: FileName<'a>,
    pub app: FileName<'a>,
    pub plan: FileName<'a>,
    pub switches: FileName<'a>,
    pub log: FileName<'a>,
}

/// The command of the words CHIP APP PLAN SWITCHES LOG CYCLES.
pub fn command<'a>(words: &'a [String]) -> Option<PlanCommand<'a>>
    ensures command { result ≡ audit_command (map string_bytes words.now) }
    ensures ranges { IfSome result HasRanges }
{
    let [chip, app, plan, switches, log, cycles] = words else {
        return None;
    };
    let files = AuditFiles {
        chip: FileName::new(chip.as_str())?,
        app: FileName::new(app.as_str())?,
        plan: FileName::new(plan.as_str())?,
        switches: FileName::new(switches.as_str())?,
        log: FileName::new(log.as_str())?,
    };
    let cycles = number_in(1, MAX_CYCLES, cycles.as_str())?;
    Some(PlanCommand::Audit { files, cycles })
}

/// The audit of a log.
pub fn answer<H: Shelf>(
    alloc: Global,
    files: &AuditFiles,
    cycles: u32,
    shelf: &mut H,
) -> Result<Answer, Stop>
    ensures { Answers (files_of H.Shelf shelf.old) (files_of H.Shelf shelf.new)
        (audit_task files.now cycles) result }
{
    let design = read_design(alloc, &files.chip, &files.app, shelf)?;
    planned_answer(alloc, &design, files, cycles, shelf)
}

/// The same for a chip and an application.
fn planned_answer<H: Shelf>(
    alloc: Global,
    design: &Design,
    files: &AuditFiles,
    cycles: u32,
    shelf: &mut H,
) -> Result<Answer, Stop>
    requires { IsAppOf design.now.chip design.now.app }
    ensures { Answers (files_of H.Shelf shelf.old) (files_of H.Shelf shelf.new)
        (planned_task design.now files.now cycles) result }
{
    let planned = read_accepted(alloc, design, &files.plan, shelf)?;
    let accepted = AcceptedDesign {
        design,
        planned: &planned,
    };
    switched_answer(alloc, &accepted, files, cycles, shelf)
}

/// The same for an accepted plan.
fn switched_answer<H: Shelf>(
    alloc: Global,
    accepted: &AcceptedDesign,
    files: &AuditFiles,
    cycles: u32,
    shelf: &mut H,
) -> Result<Answer, Stop>
    requires of_chip { IsAppOf accepted.now.design.now.chip accepted.now.design.now.app }
    requires groups { accepted.now.planned.now.groups ≡ groups_of accepted.now.design.now.app }
    requires design { IsDesign accepted.now.design.now.chip accepted.now.design.now.app
        accepted.now.planned.now.plan }
    ensures { Answers (files_of H.Shelf shelf.old) (files_of H.Shelf shelf.new)
        (switched_task accepted.now.design.now accepted.now.planned.now.plan files.now cycles)
        result }
{
    let AcceptedDesign { design, planned } = *accepted;
    let switches = read_switches_file(alloc, design, planned, &files.switches, shelf)?;
    log_answer(alloc, accepted, &switches, files, cycles, shelf)
}

/// The same for an accepted plan and switches.
fn log_answer<H: Shelf>(
    alloc: Global,
    accepted: &AcceptedDesign,
    switches: &Switches,
    files: &AuditFiles,
    cycles: u32,
    shelf: &mut H,
) -> Result<Answer, Stop>
    requires of_chip { IsAppOf accepted.now.design.now.chip accepted.now.design.now.app }
    requires groups { accepted.now.planned.now.groups ≡ groups_of accepted.now.design.now.app }
    requires design { IsDesign accepted.now.design.now.chip accepted.now.design.now.app
        accepted.now.planned.now.plan }
    requires switches { AreSwitchesOf accepted.now.design.now.app
        (spans_of accepted.now.design.now.chip accepted.now.design.now.app
        (groups_of accepted.now.design.now.app) accepted.now.planned.now.plan) switches.now }
    ensures { Answers (files_of H.Shelf shelf.old) (files_of H.Shelf shelf.new)
        (log_task accepted.now.design.now accepted.now.planned.now.plan switches.now files.now
        cycles) result }
{
    let AcceptedDesign { design, planned } = *accepted;
    let log = read_log_file(alloc, &design.chip, &files.log, shelf)?;
    ended(audited(alloc, design, planned, switches, &log, cycles))
}

/// The log of a file, for a chip.
fn read_log_file<H: Shelf>(
    alloc: Global,
    chip: &Chip,
    name: &FileName,
    shelf: &mut H,
) -> Result<LinkLog, Stop>
    ensures judges { Judges (files_of H.Shelf shelf.old) (files_of H.Shelf shelf.new)
        (log_file (length chip.now.links) name.now) (λ log. log) result }
    ensures log { IfOk result (AreLinkRowsOf (length chip.now.links)) }
{
    let bytes = read_file(alloc, LOG, name, shelf)?;
    log_in(alloc, chip, &bytes)
}

/// The log of a file's bytes, for a chip.
fn log_in(alloc: Global, chip: &Chip, bytes: &[u8]) -> Result<LinkLog, Stop>
    ensures judges { (now : Files) → Judges now now
        (judgement (codes "log") (link_log_of (length chip.now.links) bytes.now)) (λ log. log)
        result }
    ensures log { IfOk result (AreLinkRowsOf (length chip.now.links)) }
{
    judged(alloc, LOG, read_log(alloc, bytes, chip))
}

/// The answer on the rows of a log.
fn audited(
    alloc: Global,
    design: &Design,
    planned: &Planned,
    switches: &Switches,
    log: &LinkLog,
    cycles: u32,
) -> Result<Answer, NoMemory>
    requires of_chip { IsAppOf design.now.chip design.now.app }
    requires groups { planned.now.groups ≡ groups_of design.now.app }
    requires design { IsDesign design.now.chip design.now.app planned.now.plan }
    requires switches { AreSwitchesOf design.now.app (spans_of design.now.chip design.now.app
        (groups_of design.now.app) planned.now.plan) switches.now }
    requires log { AreLinkRowsOf (length design.now.chip.links) log.now }
    ensures { IfOk result (λ answer. answer
        ≡ audit_job (audited design.now planned.now.plan switches.now log.now cycles)) }
{
    let Design { chip, app } = design;
    let Planned { groups, plan } = planned;
    let spans = spans(alloc, chip, app, groups, plan)?;
    let timeline = Timeline::of(alloc, app, groups, switches, &spans)?;
    told(
        alloc,
        audit(
            alloc, chip, app, groups, plan, switches, &timeline, log, cycles,
        )?,
    )
}

/// The answer that tells an audit.
fn told(alloc: Global, audit: Audit) -> Result<Answer, NoMemory>
    ensures { IfOk result (λ answer. answer ≡ audit_job audit) }
{
    match audit {
        Audit::Clean => Ok(Answer::done(Vec::from_slice(alloc, b"clean\n")?)),
        Audit::Fault { rule, row } => fault(alloc, rule, row),
    }
}

/// The answer that a row breaks a rule.
fn fault(alloc: Global, rule: u8, row: u32) -> Result<Answer, NoMemory>
    ensures { IfOk result (λ answer. answer ≡ not_granted (fault_text rule row)) }
{
    let line = format!(in alloc; "fault {rule} {row}\n")?;
    Ok(Answer::not_granted(line.into_bytes()))
}

// Plans that a command judges once it has read them.
ghost use Rattle.aeth_answers.specs.Job.{not_granted};
ghost use Rattle.aeth_answers.specs.Places.{Files, files_of};
ghost use Rattle.aeth_answers.specs.Stop.{Judges};
ghost use Rattle.aeth_files.specs.Plans.{accepted_file, accepted_plan, broken_text, connection_name};
ghost use Rattle.aeth_files.specs.Plans.{missing_text, side_text};
ghost use Rattle.aeth_group.specs.Members.{groups_of};
ghost use Rattle.aeth_plan.specs.Plan.{IsPlanOf};
ghost use Rattle.aeth_plan.specs.Design.{IsDesign};
ghost use Rattle.std.specs.Prelude.{◌≡◌, ◌++◌, IfOk, OnErr, OnOk, length, take};

use crate::files::read_plan_file;
use aeth_answers::{Answer, FileName, Stop, push_count};
use aeth_app::App;
use aeth_base::{ConnId, NoMemory, Side, Unit};
use aeth_check::{Verdict, check};
use aeth_group::Groups;
use aeth_io::Shelf;
use aeth_plan::{Design, Planned};
use aeth_text::push_side;
use std::alloc::Global;

/// The groups of an application and the plan of a text, where it is accepted.
pub fn read_accepted<H: Shelf>(
    alloc: Global,
    design: &Design,
    name: &FileName,
    shelf: &mut H,
) -> Result<Planned, Stop>
    ensures judges { Judges (files_of H.Shelf shelf.old) (files_of H.Shelf shelf.new)
        (accepted_file design.now.chip design.now.app name.now) (λ planned. planned.plan) result }
    ensures groups { IfOk result (λ planned. planned.groups ≡ groups_of design.now.app) }
    ensures design { IfOk result
        (λ planned. IsDesign design.now.chip design.now.app planned.plan) }
{
    let groups = Groups::of(alloc, &design.app)?;
    with_plan(alloc, design, groups, name, shelf)
}

/// The same with the groups.
fn with_plan<H: Shelf>(
    alloc: Global,
    design: &Design,
    groups: Groups,
    name: &FileName,
    shelf: &mut H,
) -> Result<Planned, Stop>
    requires { groups ≡ groups_of design.now.app }
    ensures judges { Judges (files_of H.Shelf shelf.old) (files_of H.Shelf shelf.new)
        (accepted_file design.now.chip design.now.app name.now) (λ planned. planned.plan) result }
    ensures groups { IfOk result (λ planned. planned.groups ≡ groups_of design.now.app) }
    ensures design { IfOk result
        (λ planned. IsDesign design.now.chip design.now.app planned.plan) }
{
    let plan = read_plan_file(alloc, &design.chip, &design.app, &groups, name, shelf)?;
    let planned = Planned { groups, plan };
    accept_plan(alloc, design, &planned)?;
    Ok(planned)
}

/// Goes on where the plan is accepted, and else ends the command by the first rule that fails.
fn accept_plan(alloc: Global, design: &Design, planned: &Planned) -> Result<(), Stop>
    requires groups { planned.now.groups ≡ groups_of design.now.app }
    requires plan { IsPlanOf design.now.chip design.now.app planned.now.groups planned.now.plan }
    ensures judges { (now : Files) → Judges now now
        (accepted_plan design.now.chip design.now.app planned.now.plan) (λ done. done) result }
    ensures design { IfOk result
        (λ _. IsDesign design.now.chip design.now.app planned.now.plan) }
{
    // The calls tell what holds of every chip and every application.
    let _chip_slots = design.chip.slots();
    let _app_slots = design.app.slots();
    let app = &design.app;
    match check(alloc, &design.chip, app, &planned.groups, &planned.plan)? {
        Verdict::Accepted => Ok(()),
        Verdict::Missing { unit, side } => Err(Stop::Ends(missing(alloc, app, &unit, side)?)),
        Verdict::Broken { rule, line, other } => {
            Err(Stop::Ends(broken(alloc, rule, line, other)?))
        }
    }
}

/// The answer that a unit lacks a grant for a side.
fn missing(alloc: Global, app: &App, unit: &Unit, side: Side) -> Result<Answer, NoMemory>
    ensures { IfOk result (λ answer. answer ≡ not_granted (missing_text app.now unit.now side)) }
{
    let mut text = Vec::from_slice(alloc, b"missing ")?;
    push_side_of(&mut text, app, unit, side)?;
    text.push(b'\n')?;
    Ok(Answer::not_granted(text))
}

/// Appends a side of a unit. Where memory is wanting, all that stood there still does, at the front.
pub fn push_side_of(text: &mut Vec<u8>, app: &App, unit: &Unit, side: Side) -> Result<(), NoMemory>
    ensures ok { OnOk result (text.new.items
        ≡ text.old.items ++ side_text app.now unit.now side) }
    ensures err { OnErr result (take (length text.old.items) text.new.items ≡ text.old.items) }
{
    push_connection(text, app, unit.conn)?;
    push_count(text, " ", unit.group.0)?;
    text.push(b' ')?;
    push_side(text, side)
}

/// Appends the name of a connection; no bytes where there is none of that number.
fn push_connection(text: &mut Vec<u8>, app: &App, conn: ConnId) -> Result<(), NoMemory>
    ensures ok { OnOk result (text.new.items ≡ text.old.items ++ connection_name app.now conn) }
    ensures err { OnErr result (text.new.items ≡ text.old.items) }
{
    if conn.0 < app.connections() {
        let connection = app.connection(conn);
        text.extend_from_slice(connection.name.as_bytes())?;
    }
    Ok(())
}

/// The answer that a plan breaks a rule in its lines.
fn broken(alloc: Global, rule: u8, line: u32, other: u32) -> Result<Answer, NoMemory>
    ensures { IfOk result (λ answer. answer ≡ not_granted (broken_text rule line other)) }
{
    let line = format!(in alloc; "broken {rule} {line} {other}\n")?;
    Ok(Answer::not_granted(line.into_bytes()))
}

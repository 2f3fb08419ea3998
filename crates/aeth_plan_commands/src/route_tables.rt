// `route-tables CHIP APP PLAN USE`: the tables of routers that look a table up, in a use case.
ghost use Rattle.aeth_answers.specs.Places.{files_of};
ghost use Rattle.aeth_answers.specs.Stop.{Answers};
ghost use Rattle.aeth_plan_commands.specs.Commands.{HasRanges};
ghost use Rattle.aeth_plan_commands.specs.RouteTables.{route_tables_command, route_tables_job};
ghost use Rattle.aeth_plan_commands.specs.RouteTables.{route_tables_task};
ghost use Rattle.aeth_plan_commands.specs.PlannedUses.{seen_use};
ghost use Rattle.aeth_group.specs.Members.{groups_of};
ghost use Rattle.aeth_plan.specs.Design.{IsDesign};
ghost use Rattle.std.specs.Prelude.{◌≡◌, ◌<◌, IfOk, IfSome, length, map, string_bytes};

use crate::command::PlanCommand;
use crate::planned_uses::{PlannedUse, UseFiles, read_planned_use};
use aeth_answers::{Answer, Stop, ended};
use aeth_base::NoMemory;
use aeth_io::Shelf;
use aeth_rtable::{route_text, router_rows};
use std::alloc::Global;

/// The command of the words CHIP APP PLAN USE.
pub fn command<'a>(words: &'a [String]) -> Option<PlanCommand<'a>>
    ensures command { result ≡ route_tables_command (map string_bytes words.now) }
    ensures ranges { IfSome result HasRanges }
{
    let files = UseFiles::of(words)?;
    Some(PlanCommand::RouteTables(files))
}

/// The router tables of the use case of this name.
pub fn answer<H: Shelf>(alloc: Global, files: &UseFiles, shelf: &mut H) -> Result<Answer, Stop>
    ensures { Answers (files_of H.Shelf shelf.old) (files_of H.Shelf shelf.new)
        (route_tables_task files.now) result }
{
    let one = read_planned_use(alloc, files, shelf)?;
    ended(printed(alloc, &one))
}

/// The text of the router tables of a use case by an accepted plan.
fn printed(alloc: Global, one: &PlannedUse) -> Result<Answer, NoMemory>
    requires groups { one.now.planned.groups ≡ groups_of one.now.design.app }
    requires design { IsDesign one.now.design.chip one.now.design.app one.now.planned.plan }
    requires use_case { one.now.use_case.0 < length one.now.design.app.uses }
    ensures { IfOk result (λ answer. answer ≡ route_tables_job (seen_use one.now)) }
{
    let PlannedUse {
        design,
        planned,
        use_case,
    } = one;
    let u = *use_case;
    let rows = router_rows(
        alloc,
        &design.chip,
        &design.app,
        &planned.groups,
        &planned.plan,
        u,
    )?;
    Ok(Answer::done(route_text(alloc, &rows, &design.app, u)?))
}

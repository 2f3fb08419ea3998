// The plan of a text, where it is accepted.
ghost use Rattle.std.specs.Prelude.{◌≡◌, IfOk, IfSome};
ghost use Rattle.aeth_group.specs.Members.{groups_of};
ghost use Rattle.aeth_plan.specs.PlanText.{plan_text};
ghost use Rattle.aeth_plan.specs.Accepted.{IsAccepted};

use aeth_app::App;
use aeth_check::{Verdict, check};
use aeth_chip::Chip;
use aeth_group::Groups;
use aeth_plan::{Plan, PlanFault, read_plan};
use std::alloc::Global;

/// The plan of a text, where it is one for the chip and the application and breaks no rule.
pub fn accepted_plan(
    alloc: Global,
    bytes: &[u8],
    chip: &Chip,
    app: &App,
) -> Result<Option<Plan>, PlanFault>
    ensures accepted { IfOk result (λ found.
        IfSome found (IsAccepted chip.now app.now (groups_of app.now))) }
    ensures text { IfOk result (λ found.
        IfSome found (λ plan. plan_text chip.now app.now plan ≡ bytes.now)) }
{
    let groups = Groups::of(alloc, app)?;
    let plan = read_plan(alloc, bytes, chip, app, &groups)?;
    match check(alloc, chip, app, &groups, &plan)? {
        Verdict::Accepted => Ok(Some(plan)),
        _ => Ok(None),
    }
}

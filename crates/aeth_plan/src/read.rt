// Reading a plan text: its rules one after the other.
ghost use Rattle.std.specs.Prelude.{◌≡◌, IfOk};
ghost use Rattle.aeth_base.specs.Faults.{Reads};
ghost use Rattle.aeth_plan.specs.Plan.{IsPlanOf};
ghost use Rattle.aeth_plan.specs.PlanText.{plan_in, plan_of, plan_text};
ghost use Rattle.aeth_plan.specs.Refusals.{rule_of};

use crate::fault::PlanFault;
use crate::known::{holds, known_grants, known_seats};
use crate::layout::{FIRST_SEAT_LINE, first_grant_line};
use crate::ordered::{grants_in_order, seats_in_order};
use crate::plan::Plan;
use crate::reading::text_of;
use crate::text::PlanText;
use aeth_app::App;
use aeth_chip::Chip;
use aeth_group::Groups;
use std::alloc::Global;

/// The plan of what the lines of a text say.
#[tactic(auto, unfolding(crate::specs::PlanText::plan_in))]
fn plan_in(
    alloc: Global,
    chip: &Chip,
    app: &App,
    groups: &Groups,
    text: &PlanText,
) -> Result<Plan, PlanFault>
    ensures { Reads rule_of (λ plan. plan) result
        (plan_in chip.now app.now groups.now text.now) }
{
    holds(1, 3, text.slots == chip.slots())?;
    let seats = known_seats(alloc, chip, app, &text.seats)?;
    let first = first_grant_line(&text.seats);
    let grants = known_grants(alloc, chip, app, groups, first, &text.grants)?;
    seats_in_order(FIRST_SEAT_LINE, &seats)?;
    grants_in_order(first, &grants)?;
    Ok(Plan::new(text.slots, seats, grants))
}

/// The plan of a text.
#[tactic(auto, unfolding(crate::specs::PlanText::plan_of))]
fn plan_of(
    alloc: Global,
    bytes: &[u8],
    chip: &Chip,
    app: &App,
    groups: &Groups,
) -> Result<Plan, PlanFault>
    ensures { Reads rule_of (λ plan. plan) result
        (plan_of chip.now app.now groups.now bytes.now) }
{
    let text = text_of(alloc, bytes)?;
    plan_in(alloc, chip, app, groups, &text)
}

/// The plan of a text, or the first rule that the text breaks; or memory ran out.
pub fn read_plan(
    alloc: Global,
    bytes: &[u8],
    chip: &Chip,
    app: &App,
    groups: &Groups,
) -> Result<Plan, PlanFault>
    ensures reads { Reads rule_of (λ plan. plan) result
        (plan_of chip.now app.now groups.now bytes.now) }
    ensures plan { IfOk result (IsPlanOf chip.now app.now groups.now) }
    ensures printed { IfOk result (λ plan. plan_text chip.now app.now plan ≡ bytes.now) }
{
    plan_of(alloc, bytes, chip, app, groups)
}

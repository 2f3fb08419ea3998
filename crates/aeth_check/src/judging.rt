// The check of a plan: its rules one after the other.
ghost use Rattle.aeth_check.specs.Calls.{IsPlaced, IsWithin};
ghost use Rattle.aeth_check.specs.Verdict.{conflict, lacking, misseated, stranger, invalid_path};
ghost use Rattle.aeth_check.specs.Verdict.{unfit_slots, verdict_of};
ghost use Rattle.aeth_chip.specs.Chip.{IsChip};
ghost use Rattle.aeth_group.specs.Members.{groups_of};
ghost use Rattle.aeth_plan.specs.Plan.{IsPlanOf, grant_before};
ghost use Rattle.aeth_plan.specs.Accepted.{IsAccepted};
ghost use Rattle.aeth_text.specs.Order.{Rises};
ghost use Rattle.std.specs.Option.{option_or};
ghost use Rattle.std.specs.Prelude.{◌≡◌, ◌↔◌, All, IfOk, length, unwrap_or};

use crate::channels::{lacking, stranger};
use crate::conflicts::conflict;
use crate::grants::{invalid_path, unfit_slots};
use crate::seating::Seating;
use crate::seats::{misseated, shared_seat};
use crate::verdict::Verdict;
use aeth_app::App;
use aeth_base::NoMemory;
use aeth_chip::{Chip, Distances};
use aeth_group::Groups;
use aeth_plan::Plan;
use std::alloc::Global;

/// The first rule that a plan breaks, or that it is accepted.
fn judge(
    alloc: Global,
    chip: &Chip,
    app: &App,
    groups: &Groups,
    plan: &Plan,
) -> Result<Verdict, NoMemory>
    requires chip { IsChip chip.now }
    requires connections { groups.now.connections ≡ length app.now.connections }
    requires order { Rises grant_before plan.now.grants }
    requires within { All (IsWithin chip.now app.now) plan.now.grants }
    requires placed { All (IsPlaced chip.now) plan.now.grants }
    ensures { IfOk result (λ verdict.
        verdict ≡ verdict_of chip.now app.now groups.now plan.now) }
{
    if let Some(verdict) = shared_seat(alloc, chip, plan)? {
        return Ok(verdict);
    }
    let seating = Seating::of(alloc, plan.seats(), app.cores())?;
    judge_seated(alloc, chip, app, groups, &seating, plan)
}

/// The first rule from 2 on that a plan breaks, or that it is accepted.
fn judge_seated(
    alloc: Global,
    chip: &Chip,
    app: &App,
    groups: &Groups,
    seating: &Seating,
    plan: &Plan,
) -> Result<Verdict, NoMemory>
    requires chip { IsChip chip.now }
    requires connections { groups.now.connections ≡ length app.now.connections }
    requires order { Rises grant_before plan.now.grants }
    requires within { All (IsWithin chip.now app.now) plan.now.grants }
    requires placed { All (IsPlaced chip.now) plan.now.grants }
    requires seating { seating.now ≡ plan.now.seats }
    ensures { IfOk result (λ verdict. verdict
        ≡ unwrap_or (option_or (misseated app.now plan.now)
        (option_or (stranger groups.now plan.now)
        (option_or (lacking groups.now plan.now)
        (option_or (invalid_path chip.now app.now plan.now)
        (option_or (unfit_slots chip.now app.now plan.now)
        (conflict chip.now groups.now plan.now)))))) Verdict.Accepted) }
{
    if let Some(verdict) = misseated(app, seating, plan) {
        return Ok(verdict);
    }
    if let Some(verdict) = stranger(groups, plan) {
        return Ok(verdict);
    }
    if let Some(verdict) = lacking(groups, app.connections(), plan) {
        return Ok(verdict);
    }
    let distances = Distances::of(alloc, chip)?;
    if let Some(verdict) = invalid_path(chip, app, &distances, seating, plan) {
        return Ok(verdict);
    }
    judge_slots(alloc, chip, app, groups, plan)
}

/// The first rule from 6 on that a plan breaks, or that it is accepted.
fn judge_slots(
    alloc: Global,
    chip: &Chip,
    app: &App,
    groups: &Groups,
    plan: &Plan,
) -> Result<Verdict, NoMemory>
    requires chip { IsChip chip.now }
    requires within { All (IsWithin chip.now app.now) plan.now.grants }
    requires placed { All (IsPlaced chip.now) plan.now.grants }
    ensures { IfOk result (λ verdict. verdict
        ≡ unwrap_or (option_or (unfit_slots chip.now app.now plan.now)
        (conflict chip.now groups.now plan.now)) Verdict.Accepted) }
{
    if let Some(verdict) = unfit_slots(chip, app, plan) {
        return Ok(verdict);
    }
    match conflict(alloc, chip, groups, plan)? {
        Some(verdict) => Ok(verdict),
        None => Ok(Verdict::Accepted),
    }
}

/// Whether a plan is accepted, or the first rule that it breaks. `Err` where there was no memory.
///
/// The seven rules are judged on the finished plan, in their order, each over the whole plan.
pub fn check(
    alloc: Global,
    chip: &Chip,
    app: &App,
    groups: &Groups,
    plan: &Plan,
) -> Result<Verdict, NoMemory>
    requires groups { groups.now ≡ groups_of app.now }
    requires plan { IsPlanOf chip.now app.now groups.now plan.now }
    ensures verdict { IfOk result (λ verdict.
        verdict ≡ verdict_of chip.now app.now groups.now plan.now) }
    ensures accepted { IfOk result (λ verdict.
        (verdict ≡ Verdict.Accepted) ↔ IsAccepted chip.now app.now groups.now plan.now) }
{
    // The call tells what holds of every chip.
    let _slots = chip.slots();
    judge(alloc, chip, app, groups, plan)
}

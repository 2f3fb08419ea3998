// Plans that are read from texts, and what is asked of them.
ghost use Rattle.aeth_app.specs.App.{IsAppOf};
ghost use Rattle.aeth_group.specs.Members.{groups_of};
ghost use Rattle.aeth_plan.specs.Making.{AreApart};
ghost use Rattle.aeth_plan.specs.Plan.{IsPlanOf};
ghost use Rattle.std.specs.Prelude.{◌≡◌, AllPairs};

use crate::spans::are_spans;
use aeth_app::App;
use aeth_chip::Chip;
use aeth_group::{Grant, Groups};
use aeth_plan::{Plan, print, read_plan};
use aeth_seats::Seats;
use std::alloc::Global;

/// What is asked of a plan, with the answer.
#[derive(Clone, Copy)]
pub(crate) enum AskedOfPlan {
    /// Whether it is printed as its text.
    Text,
    /// The table size, the seats and the grants of the plan that the first seats and its grants make.
    Made(u32, usize, usize),
    /// The lag and the writes of all switches, in the order of the use case that is left, and then of the one that is entered.
    Spans(&'static [(u32, u32)]),
}

/// The text of a plan, and what is asked of it.
#[derive(Clone, Copy)]
struct PlanCase<'a> {
    text: &'a [u8],
    asked: &'a AskedOfPlan,
}

/// Whether the answer is right.
pub(crate) fn is_plan_right(
    alloc: Global,
    chip: &Chip,
    app: &App,
    groups: &Groups,
    text: &str,
    asked: &AskedOfPlan,
) -> Option<bool>
    requires app { IsAppOf chip.now app.now }
    requires groups { groups.now ≡ groups_of app.now }
{
    let case = PlanCase {
        text: text.as_bytes(),
        asked,
    };
    match read_plan(alloc, case.text, chip, app, groups) {
        Ok(plan) => is_right_of(alloc, chip, app, groups, &plan, &case),
        Err(_) => None,
    }
}

/// Whether the answer is right of the plan that was read.
#[tactic(auto, using(aeth_plan::proofs::MadePlans::grants_apart))]
fn is_right_of(
    alloc: Global,
    chip: &Chip,
    app: &App,
    groups: &Groups,
    plan: &Plan,
    case: &PlanCase,
) -> Option<bool>
    requires app { IsAppOf chip.now app.now }
    requires groups { groups.now ≡ groups_of app.now }
    requires plan { IsPlanOf chip.now app.now groups.now plan.now }
{
    match case.asked {
        AskedOfPlan::Text => is_text(alloc, chip, app, groups, plan, case.text),
        AskedOfPlan::Made(slots, seats, grants) => {
            is_made(alloc, chip, app, plan.grants(), (*slots, *seats, *grants))
        }
        AskedOfPlan::Spans(wanted) => are_spans(alloc, chip, app, groups, plan, wanted),
    }
}

/// Whether a plan is printed so.
#[tactic(auto, using(aeth_plan::proofs::PlanLaws::seats_named, aeth_plan::proofs::PlanLaws::grants_named))]
pub(crate) fn is_text(
    alloc: Global,
    chip: &Chip,
    app: &App,
    groups: &Groups,
    plan: &Plan,
    text: &[u8],
) -> Option<bool>
    requires { IsPlanOf chip.now app.now groups.now plan.now }
{
    match print(alloc, plan, chip, app) {
        Ok(printed) => Some(printed.as_slice() == text),
        Err(_) => None,
    }
}

/// Whether the plan that the first seats and these grants make has this size and so many of each.
fn is_made(
    alloc: Global,
    chip: &Chip,
    app: &App,
    grants: &[Grant],
    has: (u32, usize, usize),
) -> Option<bool>
    requires app { IsAppOf chip.now app.now }
    requires apart { AllPairs AreApart grants.now }
{
    match Seats::new(alloc, chip, app) {
        Ok(seats) => is_made_of(alloc, chip, &seats, grants, has),
        Err(_) => None,
    }
}

/// Whether the plan that these seats and grants make has this size and so many of each.
fn is_made_of(
    alloc: Global,
    chip: &Chip,
    seats: &Seats,
    grants: &[Grant],
    has: (u32, usize, usize),
) -> Option<bool>
    requires { AllPairs AreApart grants.now }
{
    match Plan::of(alloc, chip, seats, grants) {
        Ok(made) => Some((made.slots(), made.seats().len(), made.grants().len()) == has),
        Err(_) => None,
    }
}

// Allocations, and what is asked of them.
ghost use Rattle.aeth_app.specs.App.{IsAppOf};
ghost use Rattle.aeth_group.specs.Members.{groups_of};
ghost use Rattle.aeth_plan.specs.Plan.{IsPlanOf};
ghost use Rattle.std.specs.Prelude.{◌≡◌, IfSome};

use crate::texts::is_text;
use aeth_alloc::{Outcome, Refused, allocate, allocate_with};
use aeth_app::App;
use aeth_chip::Chip;
use aeth_group::Groups;
use aeth_paths::Cost;
use std::alloc::Global;

/// What links cost.
#[derive(Clone, Copy)]
pub(crate) enum Price {
    /// What the application says.
    OfApplication,
    /// A link costs its delay.
    Delay,
}

/// What an allocation must come to: the plan's text, and the refused units.
#[derive(Clone, Copy)]
pub(crate) struct AskedOfAllocation {
    pub price: Price,
    pub plan: &'static str,
    pub refused: &'static [Refused],
}

/// Whether the allocation comes to that.
pub(crate) fn is_allocation_right(
    alloc: Global,
    chip: &Chip,
    app: &App,
    groups: &Groups,
    asked: &AskedOfAllocation,
) -> Option<bool>
    requires app { IsAppOf chip.now app.now }
    requires groups { groups.now ≡ groups_of app.now }
{
    match outcome_by(alloc, chip, app, groups, asked.price) {
        Some(outcome) => is_outcome(alloc, chip, app, groups, &outcome, asked),
        None => None,
    }
}

/// What the allocation comes to where links have this price.
fn outcome_by(
    alloc: Global,
    chip: &Chip,
    app: &App,
    groups: &Groups,
    price: Price,
) -> Option<Outcome>
    requires app { IsAppOf chip.now app.now }
    requires groups { groups.now ≡ groups_of app.now }
    ensures { IfSome result (λ outcome. IsPlanOf chip.now app.now groups.now outcome.plan) }
{
    match price {
        Price::OfApplication => by_application(alloc, chip, app, groups),
        Price::Delay => by_delay(alloc, chip, app, groups),
    }
}

fn by_application(alloc: Global, chip: &Chip, app: &App, groups: &Groups) -> Option<Outcome>
    requires app { IsAppOf chip.now app.now }
    requires groups { groups.now ≡ groups_of app.now }
    ensures { IfSome result (λ outcome. IsPlanOf chip.now app.now groups.now outcome.plan) }
{
    allocate(alloc, chip, app, groups).ok()
}

fn by_delay(alloc: Global, chip: &Chip, app: &App, groups: &Groups) -> Option<Outcome>
    requires app { IsAppOf chip.now app.now }
    requires groups { groups.now ≡ groups_of app.now }
    ensures { IfSome result (λ outcome. IsPlanOf chip.now app.now groups.now outcome.plan) }
{
    let cost = Cost::new(
        |delay: u32, _used: u32| -> u32
            ensures { result ≡ delay }
        { delay },
    );
    allocate_with(alloc, chip, app, groups, &cost).ok()
}

/// Whether this is what the allocation must come to.
fn is_outcome(
    alloc: Global,
    chip: &Chip,
    app: &App,
    groups: &Groups,
    outcome: &Outcome,
    asked: &AskedOfAllocation,
) -> Option<bool>
    requires { IsPlanOf chip.now app.now groups.now outcome.now.plan }
{
    let plan = asked.plan.as_bytes();
    let is_planned = is_text(alloc, chip, app, groups, &outcome.plan, plan)?;
    Some(is_planned && outcome.refused.as_slice() == asked.refused)
}

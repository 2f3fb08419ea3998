// The allocation.
ghost use Rattle.std.specs.Prelude.{◌≡◌, [], IfOk};
ghost use Rattle.aeth_app.specs.App.{IsAppOf};
ghost use Rattle.aeth_group.specs.Members.{groups_of};
ghost use Rattle.aeth_plan.specs.Plan.{IsPlanOf};
ghost use Rattle.aeth_plan.specs.Accepted.{IsAccepted};
ghost use Rattle.aeth_alloc.specs.Allocation.{allocation, last_state};
ghost use Rattle.aeth_alloc.specs.Prices.{prices_of};
ghost use Rattle.aeth_alloc.specs.Refusals.{LacksOnlyRefused, RefusesExactly};

use crate::channels::Design;
use crate::outcome::Outcome;
use crate::prices::{cost_by, priced};
use crate::turns::State;
use aeth_app::App;
use aeth_base::NoMemory;
use aeth_chip::{Chip, Distances};
use aeth_group::Groups;
use aeth_paths::Cost;
use std::alloc::Global;

/// The allocation of an application on a chip, where links cost what the application's price says: by
/// `hops` 1 for each link, by `pressure` 1 and one more for each of the link's slots that is used.
///
/// Units take turns. In its turn a unit has its two channels granted, or it is refused and nothing of
/// it is left behind. Cores are seated as the consequence of the paths of their channels, after UMARS
/// (2005). `Err` where there was no memory.
pub fn allocate(alloc: Global, chip: &Chip, app: &App, groups: &Groups) -> Result<Outcome, NoMemory>
    requires app { IsAppOf chip.now app.now }
    requires groups { groups.now ≡ groups_of app.now }
    ensures gives { IfOk result (λ outcome.
        outcome ≡ allocation chip.now app.now groups.now (prices_of app.now.price)) }
    ensures plan { IfOk result (λ outcome. IsPlanOf chip.now app.now groups.now outcome.plan) }
    // The plan breaks no rule of the check but that refused units lack sides.
    ensures lacks { IfOk result (λ outcome. LacksOnlyRefused chip.now app.now groups.now outcome) }
    // A unit is refused exactly where a channel of it has no candidate in its turn.
    ensures refused { IfOk result (λ outcome. RefusesExactly (record {
      chip = chip.now;
      app = app.now;
      prices = prices_of app.now.price;
    }) groups.now outcome.refused) }
    ensures accepted { IfOk result (λ outcome. outcome.refused ≡ []
        → IsAccepted chip.now app.now groups.now outcome.plan) }
{
    let price = app.price();
    let cost = priced(price, move |delay, used| cost_by(price, delay, used));
    allocate_with(alloc, chip, app, groups, &cost)
}

/// The same where links cost what a function of their delay and their used slots says.
pub fn allocate_with<F: Fn(u32, u32) -> u32>(
    alloc: Global,
    chip: &Chip,
    app: &App,
    groups: &Groups,
    cost: &Cost<F>,
) -> Result<Outcome, NoMemory>
    requires app { IsAppOf chip.now app.now }
    requires groups { groups.now ≡ groups_of app.now }
    ensures gives { IfOk result (λ outcome.
        outcome ≡ allocation chip.now app.now groups.now cost.now) }
    ensures plan { IfOk result (λ outcome. IsPlanOf chip.now app.now groups.now outcome.plan) }
    // The plan breaks no rule of the check but that refused units lack sides.
    ensures lacks { IfOk result (λ outcome. LacksOnlyRefused chip.now app.now groups.now outcome) }
    // A unit is refused exactly where a channel of it has no candidate in its turn.
    ensures refused { IfOk result (λ outcome. RefusesExactly (record {
      chip = chip.now;
      app = app.now;
      prices = cost.now;
    }) groups.now outcome.refused) }
    ensures accepted { IfOk result (λ outcome. outcome.refused ≡ []
        → IsAccepted chip.now app.now groups.now outcome.plan) }
{
    let _slots = chip.slots();
    let _app_slots = app.slots();
    let far = Distances::of(alloc, chip)?;
    let design = Design {
        chip,
        far: &far,
        app,
        cost,
    };
    let state = last_state(alloc, &design, groups)?;
    state.outcome(alloc, chip)
}

// The state after the last turn.
fn last_state<F: Fn(u32, u32) -> u32>(
    alloc: Global,
    design: &Design<F>,
    groups: &Groups,
) -> Result<State, NoMemory>
    requires { groups.now ≡ groups_of design.now.app }
    ensures { IfOk result (λ state. state ≡ last_state design.now groups.now) }
{
    let mut state = State::new(alloc, design.chip, design.app, groups)?;
    for turn in 0..groups.units() {
        state.turn(alloc, design, turn + 1)?;
    }
    Ok(state)
}

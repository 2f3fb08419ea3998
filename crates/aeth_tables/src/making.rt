// The tables of a use case by a plan.
ghost use Rattle.aeth_group.specs.Members.{groups_of};
ghost use Rattle.aeth_plan.specs.Plan.{IsPlanOf};
ghost use Rattle.aeth_plan.specs.Accepted.{IsAccepted};
ghost use Rattle.aeth_tables.specs.TableText.{IsPrintable};
ghost use Rattle.aeth_tables.specs.Tables.{tables_of};
ghost use Rattle.std.specs.Prelude.{◌≡◌, ◌<◌, IfOk, length};

use crate::granted::granted_in;
use crate::rows::tables_with;
use crate::table::Tables;
use aeth_app::App;
use aeth_base::{NoMemory, UseId};
use aeth_chip::Chip;
use aeth_group::Groups;
use aeth_plan::Plan;
use std::alloc::Global;

/// The tables of a use case by an accepted plan. `Err` where there was no memory.
pub fn tables(
    alloc: Global,
    chip: &Chip,
    app: &App,
    groups: &Groups,
    plan: &Plan,
    u: UseId,
) -> Result<Tables, NoMemory>
    requires groups { groups.now ≡ groups_of app.now }
    requires plan { IsPlanOf chip.now app.now groups.now plan.now }
    requires accepted { IsAccepted chip.now app.now groups.now plan.now }
    requires use_case { u.0 < length app.now.uses }
    ensures gives { IfOk result (λ tables. tables
        ≡ tables_of chip.now app.now groups.now plan.now u) }
    ensures printable { IfOk result (IsPrintable chip.now app.now) }
{
    // The calls tell what holds of every chip and every application.
    let _chip_slots = chip.slots();
    let _app_slots = app.slots();
    let connections = granted_in(alloc, app, groups, plan, u)?;
    tables_with(alloc, chip, app, u, &connections)
}

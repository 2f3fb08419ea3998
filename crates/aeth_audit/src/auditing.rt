// The audit of a log of links.
ghost use Rattle.std.specs.Prelude.{◌≡◌, ◌≤◌, IfOk, filter, length, nat_lt};
ghost use Rattle.aeth_app.specs.App.{IsAppOf};
ghost use Rattle.aeth_group.specs.Members.{groups_of};
ghost use Rattle.aeth_trace.specs.Switches.{AreSwitchesOf};
ghost use Rattle.aeth_reconf.specs.Timeline.{timeline_of};
ghost use Rattle.aeth_plan.specs.Design.{IsDesign};
ghost use Rattle.aeth_tables.specs.Switching.{spans_of};
ghost use Rattle.aeth_accepted.specs.Inputs.{design_on};
ghost use Rattle.aeth_audit.specs.Audit.{audit_of};
ghost use Rattle.aeth_audit.specs.LinkLog.{AreLinkRowsOf, is_later};
ghost use Rattle.aeth_text.specs.Order.{Rises};

use crate::judge::Judge;
use crate::log::LinkLog;
use crate::row::LinkRow;
use crate::starts::starts_of;
use crate::table::Table;
use crate::verdict::Audit;
use aeth_app::App;
use aeth_base::NoMemory;
use aeth_chip::Chip;
use aeth_group::Groups;
use aeth_plan::Plan;
use aeth_reconf::Timeline;
use aeth_trace::Switches;
use std::alloc::Global;

// The rows that take part in an audit up to a cycle: the first ones.
fn rows_until(log: &LinkLog, cycles: u32) -> &[LinkRow]
    requires { Rises is_later log.now }
    ensures until { result.now ≡ filter (λ row. nat_lt row.cycle cycles) log.now }
    ensures rises { Rises is_later result.now }
    ensures few { length result.now ≤ length log.now }
{
    let rows = log.rows();
    &rows[..rows.partition_point(|row| row.cycle < cycles)]
}

/// The audit of a log, by an accepted plan for a chip and an application with these groups, through
/// switches that were read with the plan's spans, whose timeline this is. Rows whose cycle isn't
/// below `cycles` take no part. `Err` where there was no memory.
pub fn audit(
    alloc: Global,
    chip: &Chip,
    app: &App,
    groups: &Groups,
    plan: &Plan,
    switches: &Switches,
    timeline: &Timeline,
    log: &LinkLog,
    cycles: u32,
) -> Result<Audit, NoMemory>
    requires groups { groups.now ≡ groups_of app.now }
    requires design { IsDesign chip.now app.now plan.now }
    requires of_chip { IsAppOf chip.now app.now }
    requires switches { AreSwitchesOf app.now
        (spans_of chip.now app.now groups.now plan.now) switches.now }
    requires timeline { timeline.now
        ≡ timeline_of groups.now (spans_of chip.now app.now groups.now plan.now) switches.now }
    requires log { AreLinkRowsOf (length chip.now.links) log.now }
    ensures { IfOk result (λ audit. audit
        ≡ audit_of (design_on chip.now app.now plan.now) timeline.now log.now cycles) }
{
    // The laws tell that the run of these switches is sound, and which sessions it has.
    aeth_accepted::laws::runs_are_sound();
    aeth_reconf::laws::timelines_have_sessions();
    let rows = rows_until(log, cycles);
    let starts = starts_of(alloc, rows)?;
    let table = Table::of(alloc, chip, app, plan)?;
    let judge = Judge {
        chip,
        plan,
        table: &table,
        timeline,
        rows,
        starts: &starts,
        cycles,
    };
    Ok(judge.first_fault())
}

// The lag and the writes of switches by a plan.
ghost use Rattle.aeth_group.specs.Members.{groups_of};
ghost use Rattle.aeth_plan.specs.Plan.{IsPlanOf};
ghost use Rattle.std.specs.Prelude.{◌≡◌, ◌<◌, ◌≤◌, length};

use aeth_app::App;
use aeth_base::UseId;
use aeth_chip::Chip;
use aeth_group::Groups;
use aeth_plan::Plan;
use aeth_tables::spans;
use aeth_trace::Spans;
use std::alloc::Global;

/// Whether these are the lag and the writes of all switches by a plan, in the order of the use case that is left, and then of
/// the one that is entered; `None` where memory runs out.
#[tactic(auto, unfolding(aeth_tables::specs::Switching::spans_of))]
pub(crate) fn are_spans(
    alloc: Global,
    chip: &Chip,
    app: &App,
    groups: &Groups,
    plan: &Plan,
    wanted: &[(u32, u32)],
) -> Option<bool>
    requires groups { groups.now ≡ groups_of app.now }
    requires plan { IsPlanOf chip.now app.now groups.now plan.now }
{
    match spans(alloc, chip, app, groups, plan) {
        Ok(spans) => are_pairs(alloc, &spans, groups.uses(), wanted),
        Err(_) => None,
    }
}

/// Whether these are those of the switches between so many use cases.
fn are_pairs(alloc: Global, spans: &Spans, uses: u32, wanted: &[(u32, u32)]) -> Option<bool>
    requires { spans.now.uses ≡ uses }
{
    let mut told = Vec::new(alloc);
    for u in 0..uses {
        for v in 0..uses {
            let lag = spans.lag(UseId(u), UseId(v));
            let writes = spans.writes(UseId(u), UseId(v));
            told.push((lag, writes)).ok()?;
        }
    }
    Some(told.as_slice() == wanted)
}

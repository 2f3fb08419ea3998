// Lines of grants.
ghost use Rattle.aeth_plan.specs.Layout.{first_grant_line};
ghost use Rattle.std.specs.Prelude.{◌≡◌};

use aeth_plan::{Plan, first_grant_line};

/// The line of a plan's first grant.
pub(crate) fn grants_begin(plan: &Plan) -> u32
    ensures { result ≡ first_grant_line plan.now.seats }
{
    first_grant_line(plan.seats())
}

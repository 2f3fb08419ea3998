// Printing router tables.
ghost use Rattle.aeth_plan.specs.Plan.{name_at};
ghost use Rattle.aeth_rtable.specs.RouteText.{head_line, hop_line, route_text};
ghost use Rattle.aeth_text.specs.Spelling.{ended_line, text_of_lines};
ghost use Rattle.aeth_trace.specs.Switches.{use_names};
ghost use Rattle.std.specs.Prelude.{◌≡◌, ◌<◌, ◌++◌, IfOk, OnOk, length, map};

use crate::lines::{push_head, push_hop};
use aeth_app::App;
use aeth_base::{NoMemory, UseId};
use aeth_router::RouterRow;
use std::alloc::Global;

/// Appends the first line of the tables of a use case.
fn push_use(out: &mut Vec<u8>, app: &App, u: UseId) -> Result<(), NoMemory>
    requires { u.0 < length app.now.uses }
    ensures { OnOk result (out.new.items
        ≡ out.old.items ++ ended_line (head_line (name_at (use_names app.now) u.0))) }
{
    let name = app.use_name(u);
    push_head(out, name.as_bytes())
}

/// Appends the lines of rows.
fn push_hops(out: &mut Vec<u8>, rows: &[RouterRow]) -> Result<(), NoMemory>
    ensures { OnOk result (out.new.items
        ≡ out.old.items ++ text_of_lines (map hop_line rows.now)) }
{
    for row in rows {
        push_hop(out, row)?;
    }
    Ok(())
}

/// The text of the router tables of a use case: a `hop` line for each row. `Err` where there was no
/// memory.
#[tactic(auto, unfolding(crate::specs::RouteText::route_text))]
pub fn route_text(
    alloc: Global,
    rows: &[RouterRow],
    app: &App,
    u: UseId,
) -> Result<Vec<u8>, NoMemory>
    requires { u.0 < length app.now.uses }
    ensures { IfOk result (λ text. text.items ≡ route_text app.now u.0 rows.now) }
{
    let mut out = Vec::new(alloc);
    push_use(&mut out, app, u)?;
    push_hops(&mut out, rows)?;
    out.extend_from_slice(b"end\n")?;
    Ok(out)
}

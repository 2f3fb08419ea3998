// The cycles of switches.

ghost use Rattle.std.specs.Prelude.{◌≡◌, ◌++◌, ◌<◌, All, IfOk, OnOk, length, map};
ghost use Rattle.aeth_schedule.specs.Switching.{switches_from};
ghost use Rattle.aeth_schedule.specs.Windows.{window_by, windows_over};

use crate::task::Task;
use aeth_base::{NoMemory, UseId};
use aeth_reconf::{close_by, go_by};
use aeth_schedule::Window;
use aeth_trace::{Spans, SwitchRow};
use std::alloc::Global;

// The windows of all switches behind the first row.
pub(crate) fn windows_of(
    alloc: Global,
    task: &Task,
    rows: &[SwitchRow],
) -> Result<Vec<Window>, NoMemory>
    requires { All (λ row. row.to.0 < length task.now.groups.now.uses) rows.now }
    ensures { IfOk result (λ windows. windows.items ≡ windows_over task.now.spans.now rows.now) }
{
    let mut windows = Vec::new(alloc);
    if let [first, later @ ..] = rows {
        push_windows(&mut windows, task, first.to, later)?;
    }
    Ok(windows)
}

// Appends the windows of switches, the first of which leaves this use case.
fn push_windows(
    windows: &mut Vec<Window>,
    task: &Task,
    first: UseId,
    rows: &[SwitchRow],
) -> Result<(), NoMemory>
    requires first { first.0 < length task.now.groups.now.uses }
    requires known { All (λ row. row.to.0 < length task.now.groups.now.uses) rows.now }
    ensures { OnOk result (windows.new.items ≡ windows.old.items
        ++ map (window_by task.now.spans.now) (switches_from first.0 rows.now)) }
{
    let mut from = first;
    for row in rows {
        windows.push(window_by(task.spans, from, row))?;
        from = row.to;
    }
    Ok(())
}

// The window of a switch that leaves this use case.
fn window_by(spans: &Spans, from: UseId, row: &SwitchRow) -> Window
    requires from { from.0 < spans.now.uses }
    requires to { row.now.to.0 < spans.now.uses }
    ensures { result ≡ window_by spans.now (record { leaves = from.0; row = row.now }) }
{
    let close = close_by(spans, from, row);
    Window {
        until: close.until,
        stop: close.stop,
        fin: close.fin,
        go: go_by(spans, from, row),
    }
}

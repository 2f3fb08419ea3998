// What switches between two use cases change. It is the same whenever such a switch comes, so it is found once for
// each pair of use cases.

ghost use Rattle.std.specs.Prelude.{◌≡◌, ◌<◌, All, IfOk, IfSome, length, map};
ghost use Rattle.std.specs.List.{slice_index_or};
ghost use Rattle.aeth_ni.specs.Program.{program_of};
ghost use Rattle.aeth_schedule.specs.ByLine.{no_line};
ghost use Rattle.aeth_schedule.specs.Lines.{changed_lines, lines_at};
ghost use Rattle.aeth_scheduling.specs.Changes.{AreChanges, IsChange};
ghost use Rattle.aeth_scheduling.specs.Made.{changed_rows};

use crate::task::Task;
use aeth_base::{NoMemory, UseId};
use aeth_group::Groups;
use aeth_ni::{ChannelRow, Write};
use aeth_reconf::program;
use aeth_schedule::{Line, lines_in};
use std::alloc::Global;

// What a switch from one use case to another changes: the rows of the channels that it closes, its
// writes, and the places of the lines of the channels that it opens.
#[derive(Drop)]
pub(crate) struct Change {
    pub from: UseId,
    pub to: UseId,
    pub closing: Vec<ChannelRow>,
    pub writes: Vec<Write>,
    pub opening: Vec<usize>,
}

// What a switch of a task from one use case to another changes, if it is among these.
pub(crate) fn change_among<'a>(
    task: &Task,
    changes: &'a [Change],
    from: UseId,
    to: UseId,
) -> Option<&'a Change>
    requires { AreChanges task.now.groups.now task.now.all.now changes.now }
    ensures { IfSome result (λ change. IsChange task.now.groups.now task.now.all.now
        from.0 to.0 change.now) }
{
    for change in changes {
        if change.from.0 == from.0 && change.to.0 == to.0 {
            return Some(change);
        }
    }
    None
}

// What it changes, found anew.
pub(crate) fn change_of(
    alloc: Global,
    task: &Task,
    from: UseId,
    to: UseId,
) -> Result<Change, NoMemory>
    requires from { from.0 < length task.now.groups.now.uses }
    requires to { to.0 < length task.now.groups.now.uses }
    ensures change { IfOk result (IsChange task.now.groups.now task.now.all.now from.0 to.0) }
    ensures own { IfOk result (λ change. IsChange task.now.groups.now task.now.all.now
        change.from.0 change.to.0 change) }
{
    let closing = rows_changed(alloc, task.groups, from, to, lines_in(task.all, from))?;
    let writes = program_by(alloc, task, from, to, &closing)?;
    let opening = places_changed(alloc, task.groups, from, to, lines_in(task.all, to))?;
    Ok(Change {
        from,
        to,
        closing,
        writes,
        opening,
    })
}

// The writes of a switch that closes these channels.
fn program_by(
    alloc: Global,
    task: &Task,
    from: UseId,
    to: UseId,
    closing: &[ChannelRow],
) -> Result<Vec<Write>, NoMemory>
    requires from { from.0 < length task.now.groups.now.uses }
    requires to { to.0 < length task.now.groups.now.uses }
    ensures { IfOk result (λ writes. writes.items ≡ program_of closing.now
        (changed_rows task.now.groups.now from.0 to.0 (lines_at task.now.all.now to.0))) }
{
    let entered = lines_in(task.all, to);
    let opening = rows_changed(alloc, task.groups, from, to, entered)?;
    program(alloc, closing, &opening)
}

// The rows of those lines which a switch doesn't keep.
fn rows_changed(
    alloc: Global,
    groups: &Groups,
    from: UseId,
    to: UseId,
    lines: &[Line],
) -> Result<Vec<ChannelRow>, NoMemory>
    requires from { from.0 < length groups.now.uses }
    requires to { to.0 < length groups.now.uses }
    ensures { IfOk result (λ rows. rows.items
        ≡ changed_rows groups.now from.0 to.0 lines.now) }
{
    let mut rows = Vec::with_capacity(alloc, lines.len())?;
    for line in lines {
        if !groups.kept(from, to, line.row.channel.conn) {
            rows.push(line.row)?;
        }
    }
    Ok(rows)
}

// The places of those lines.
fn places_changed(
    alloc: Global,
    groups: &Groups,
    from: UseId,
    to: UseId,
    lines: &[Line],
) -> Result<Vec<usize>, NoMemory>
    requires from { from.0 < length groups.now.uses }
    requires to { to.0 < length groups.now.uses }
    ensures within { IfOk result (λ places. All (λ place. place < length lines.now) places.items) }
    ensures lines { IfOk result (λ places. map (λ place. slice_index_or lines.now place no_line)
        places.items ≡ changed_lines groups.now from.0 to.0 lines.now) }
{
    let mut places = Vec::new(alloc);
    for place in 0..lines.len() {
        if !groups.kept(from, to, lines[place].row.channel.conn) {
            places.push(place)?;
        }
    }
    Ok(places)
}

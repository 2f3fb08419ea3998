// The sessions of all channels, in the order in which they go.

ghost use Rattle.std.specs.Prelude.{◌≡◌, ◌<◌, ◌++◌, ◌∷◌, [], None, Some, All, OnOk, IfOk, length};
ghost use Rattle.std.specs.Prelude.{map};
ghost use Rattle.aeth_schedule.specs.ByLine.{session_starts_at, line_at};
ghost use Rattle.aeth_schedule.specs.SessionStarts.{session_start_by, session_start_in};
ghost use Rattle.aeth_schedule.specs.SessionStarts.{session_start_within, session_starts_behind};
ghost use Rattle.aeth_schedule.specs.SessionStarts.{session_starts_from};
ghost use Rattle.aeth_schedule.specs.Lines.{changed_lines, lines_at};
ghost use Rattle.aeth_scheduling.specs.Changes.{AreChanges};
ghost use Rattle.aeth_scheduling.specs.Made.{AreRows};
ghost use Rattle.aeth_scheduling.specs.Staying.{AreEntered};

use crate::changes::{Change, change_among, change_of};
use crate::closing::close_in;
use crate::entering::{Entering, uses_of};
use crate::placing::{before, start};
use crate::task::Task;
use aeth_base::{NoMemory, UseId};
use aeth_reconf::go_by;
use aeth_schedule::{Line, SessionStartByLine, lines_in};
use aeth_trace::SwitchRow;
use std::alloc::Global;

// The sessions that go within the run, in the order in which they go, and those that go in one cycle
// in channel order.
pub(crate) fn session_starts_of(
    alloc: Global,
    task: &Task,
    found: &mut Vec<Change>,
    rows: &[SwitchRow],
) -> Result<Vec<SessionStartByLine>, NoMemory>
    requires rows { AreRows (length task.now.groups.now.uses) rows.now }
    requires found { AreChanges task.now.groups.now task.now.all.now found.old.items }
    ensures { IfOk result
        (λ list. session_starts_at task.now.all.now list.items
        ≡ session_start_within task.now.cycles (session_starts_from
        task.now.groups.now task.now.spans.now task.now.all.now
        task.now.words.now task.now.cycles rows.now)) }
{
    let mut list = Vec::new(alloc);
    if let [row, later @ ..] = rows {
        let entered = uses_of(alloc, rows)?;
        let first = Entering {
            row,
            later,
            entered: &entered,
        };
        push_first(&mut list, task, &first)?;
        push_later(alloc, &mut list, task, found, &first)?;
    }
    Ok(list)
}

// Appends the sessions of a use case that is loaded before the first cycle, if there is one.
fn push_first(
    list: &mut Vec<SessionStartByLine>,
    task: &Task,
    first: &Entering,
) -> Result<(), NoMemory>
    requires { AreEntered (length task.now.groups.now.uses) first.now.entered.now
        (first.now.row.now ∷ first.now.later.now) }
    ensures { OnOk result (session_starts_at task.now.all.now list.new.items
        ≡ session_starts_at task.now.all.now list.old.items ++ session_start_within task.now.cycles
        (map (session_start_by task.now.groups.now task.now.spans.now
        task.now.all.now task.now.words.now task.now.cycles None first.now.row.now.to.0
        first.now.later.now) (lines_at task.now.all.now first.now.row.now.to.0))) }
{
    if task.cycles == 0 {
        return Ok(());
    }
    push_each(list, task, lines_in(task.all, first.row.to), 0, first)
}

// Appends the sessions of channels that go in a cycle with a row's use case.
fn push_each(
    list: &mut Vec<SessionStartByLine>,
    task: &Task,
    lines: &[Line],
    go: u32,
    entering: &Entering,
) -> Result<(), NoMemory>
    requires lines { lines.now ≡ lines_at task.now.all.now entering.now.row.now.to.0 }
    requires known { All (λ line. line.row.channel.conn.0 < length task.now.starts.now) lines.now }
    requires rows { AreEntered (length task.now.groups.now.uses) entering.now.entered.now
        (entering.now.row.now ∷ entering.now.later.now) }
    ensures { OnOk result (session_starts_at task.now.all.now list.new.items
        ≡ session_starts_at task.now.all.now list.old.items ++ map
        (session_start_in task.now.groups.now task.now.spans.now task.now.words.now
        task.now.cycles go entering.now.row.now.to.0 entering.now.later.now) lines.now) }
{
    for place in 0..lines.len() {
        push_session_start(list, task, &lines[place], place, go, entering)?;
    }
    Ok(())
}

// Appends the sessions that the switches behind the first row open.
fn push_later(
    alloc: Global,
    list: &mut Vec<SessionStartByLine>,
    task: &Task,
    found: &mut Vec<Change>,
    first: &Entering,
) -> Result<(), NoMemory>
    requires rows { AreEntered (length task.now.groups.now.uses) first.now.entered.now
        (first.now.row.now ∷ first.now.later.now) }
    requires found { AreChanges task.now.groups.now task.now.all.now found.old.items }
    ensures { OnOk result (session_starts_at task.now.all.now list.new.items
        ≡ session_starts_at task.now.all.now list.old.items ++ session_start_within task.now.cycles
        (session_starts_behind task.now.groups.now task.now.spans.now
        task.now.all.now task.now.words.now task.now.cycles first.now.row.now.to.0
        first.now.later.now)) }
{
    let mut from = first.row.to;
    for place in 0..first.later.len() {
        let row = &first.later[place];
        let entering = Entering {
            row,
            later: &first.later[place + 1..],
            entered: first.entered,
        };
        push_opened(alloc, list, task, found, from, &entering)?;
        from = row.to;
    }
    Ok(())
}

// Appends the sessions that a switch opens, where they go within the run.
fn push_opened(
    alloc: Global,
    list: &mut Vec<SessionStartByLine>,
    task: &Task,
    found: &mut Vec<Change>,
    from: UseId,
    entering: &Entering,
) -> Result<(), NoMemory>
    requires from { from.0 < length task.now.groups.now.uses }
    requires rows { AreEntered (length task.now.groups.now.uses) entering.now.entered.now
        (entering.now.row.now ∷ entering.now.later.now) }
    requires found { AreChanges task.now.groups.now task.now.all.now found.old.items }
    ensures session_starts { OnOk result (session_starts_at task.now.all.now list.new.items
        ≡ session_starts_at task.now.all.now list.old.items ++ session_start_within task.now.cycles
        (map (session_start_by task.now.groups.now task.now.spans.now
        task.now.all.now task.now.words.now task.now.cycles
        (Some (record { leaves = from.0; row = entering.now.row.now })) entering.now.row.now.to.0
        entering.now.later.now)
        (changed_lines task.now.groups.now from.0 entering.now.row.now.to.0
        (lines_at task.now.all.now entering.now.row.now.to.0)))) }
    ensures found { OnOk result (AreChanges task.now.groups.now task.now.all.now
        found.new.items) }
{
    let go = go_by(task.spans, from, entering.row);
    if go >= u64::from(task.cycles) {
        return Ok(());
    }
    if let Some(change) = change_among(task, found, from, entering.row.to) {
        return push_changed(list, task, &change.opening, go as u32, entering);
    }
    let change = change_of(alloc, task, from, entering.row.to)?;
    push_changed(list, task, &change.opening, go as u32, entering)?;
    found.push(change)?;
    Ok(())
}

// Appends the sessions of the channels of the lines at these places, which go in a cycle with a row's use case.
fn push_changed(
    list: &mut Vec<SessionStartByLine>,
    task: &Task,
    places: &[usize],
    go: u32,
    entering: &Entering,
) -> Result<(), NoMemory>
    requires places { All (λ place. place
        < length (lines_at task.now.all.now entering.now.row.now.to.0)) places.now }
    requires rows { AreEntered (length task.now.groups.now.uses) entering.now.entered.now
        (entering.now.row.now ∷ entering.now.later.now) }
    ensures { OnOk result (session_starts_at task.now.all.now list.new.items
        ≡ session_starts_at task.now.all.now list.old.items ++ map
        (session_start_in task.now.groups.now task.now.spans.now task.now.words.now
        task.now.cycles go entering.now.row.now.to.0 entering.now.later.now)
        (map (line_at task.now.all.now entering.now.row.now.to.0) places.now)) }
{
    let lines = lines_in(task.all, entering.row.to);
    for place in places {
        push_session_start(list, task, &lines[*place], *place, go, entering)?;
    }
    Ok(())
}

// Appends the session of the channel of the line at a place, which goes in a cycle with a row's use case.
fn push_session_start(
    list: &mut Vec<SessionStartByLine>,
    task: &Task,
    line: &Line,
    place: usize,
    go: u32,
    entering: &Entering,
) -> Result<(), NoMemory>
    requires line { line.now ≡ line_at task.now.all.now entering.now.row.now.to.0 place }
    requires known { line.now.row.channel.conn.0 < length task.now.starts.now }
    requires rows { AreEntered (length task.now.groups.now.uses) entering.now.entered.now
        (entering.now.row.now ∷ entering.now.later.now) }
    ensures { OnOk result (session_starts_at task.now.all.now list.new.items
        ≡ session_starts_at task.now.all.now list.old.items ++ session_start_in task.now.groups.now
        task.now.spans.now task.now.words.now task.now.cycles go entering.now.row.now.to.0
        entering.now.later.now line.now ∷ []) }
{
    let close = close_in(task, line.row.channel.conn, entering);
    let channel = line.row.channel;
    let until = close.until as u32;
    let before_it = before(task.words, channel, go);
    let behind = before(task.words, channel, until.min(task.cycles));
    list.push(SessionStartByLine {
        use_case: entering.row.to,
        place,
        go,
        fin: close.fin as u32,
        until,
        before: before_it,
        count: behind.saturating_sub(before_it),
        first: start(task.words, task.starts, channel) + before_it,
    })?;
    Ok(())
}

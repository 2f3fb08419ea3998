// What the switches of a run do to tables and queues.

ghost use Rattle.std.specs.Prelude.{◌≡◌, ◌++◌, ◌<◌, All, IfOk, OnOk, [], flat_map, length, map};
ghost use Rattle.aeth_scheduling.specs.Changes.{AreChanges};
ghost use Rattle.aeth_scheduling.specs.Made.{events_over, loaded_over, timed_over};
ghost use Rattle.aeth_ni.specs.Program.{program_of};
ghost use Rattle.aeth_schedule.specs.Switching.{changes, switches_from};
ghost use Rattle.aeth_schedule.specs.Timed.{switching_events, within};

use crate::changes::{Change, change_among, change_of};
use crate::task::Task;
use crate::timed::{TimedEvents, push_switching};
use aeth_base::{NoMemory, UseId};
use aeth_components::Event;
use aeth_ni::{ChannelRow, Write};
use aeth_reconf::{Close, close_by, program};
use aeth_schedule::{Line, Lines};
use aeth_trace::SwitchRow;
use std::alloc::Global;

// The events of all switches behind the first row, below the end of the run. What a switch between two use
// cases changes is looked up among what was found of others, and joins it.
pub(crate) fn timed_events(
    alloc: Global,
    task: &Task,
    found: &mut Vec<Change>,
    rows: &[SwitchRow],
) -> Result<TimedEvents, NoMemory>
    requires rows { All (λ row. row.to.0 < length task.now.groups.now.uses) rows.now }
    requires found { AreChanges task.now.groups.now task.now.all.now found.old.items }
    ensures events { IfOk result (λ list. list
        ≡ timed_over task.now.groups.now task.now.spans.now task.now.all.now rows.now
        task.now.cycles) }
    ensures found { OnOk result (AreChanges task.now.groups.now task.now.all.now
        found.new.items) }
{
    let mut list = TimedEvents::new(alloc);
    if let [first, later @ ..] = rows {
        push_events(alloc, &mut list, task, found, first.to, later)?;
    }
    Ok(list)
}

// Appends the events of switches, the first of which leaves this use case.
fn push_events(
    alloc: Global,
    list: &mut TimedEvents,
    task: &Task,
    found: &mut Vec<Change>,
    first: UseId,
    rows: &[SwitchRow],
) -> Result<(), NoMemory>
    requires first { first.0 < length task.now.groups.now.uses }
    requires known { All (λ row. row.to.0 < length task.now.groups.now.uses) rows.now }
    requires found { AreChanges task.now.groups.now task.now.all.now found.old.items }
    ensures events { OnOk result (list.new ≡ list.old ++ within task.now.cycles (flat_map
        (events_over task.now.groups.now task.now.spans.now task.now.all.now)
        (switches_from first.0 rows.now))) }
    ensures found { OnOk result (AreChanges task.now.groups.now task.now.all.now
        found.new.items) }
{
    let mut from = first;
    for row in rows {
        push_switch(alloc, list, task, found, from, row)?;
        from = row.to;
    }
    Ok(())
}

// Appends the events of a switch: the halts, the finishes, and the writes.
fn push_switch(
    alloc: Global,
    list: &mut TimedEvents,
    task: &Task,
    found: &mut Vec<Change>,
    from: UseId,
    row: &SwitchRow,
) -> Result<(), NoMemory>
    requires from { from.0 < length task.now.groups.now.uses }
    requires to { row.now.to.0 < length task.now.groups.now.uses }
    requires found { AreChanges task.now.groups.now task.now.all.now found.old.items }
    ensures events { OnOk result (list.new ≡ list.old ++ within task.now.cycles
        (events_over task.now.groups.now task.now.spans.now task.now.all.now
        (record { leaves = from.0; row = row.now }))) }
    ensures found { OnOk result (AreChanges task.now.groups.now task.now.all.now
        found.new.items) }
{
    let close = close_by(task.spans, from, row);
    if close.stop >= u64::from(task.cycles) {
        return Ok(());
    }
    if let Some(change) = change_among(task, found, from, row.to) {
        return push_change(list, &close, change, task.cycles);
    }
    let change = change_of(alloc, task, from, row.to)?;
    push_change(list, &close, &change, task.cycles)?;
    found.push(change)?;
    Ok(())
}

// Appends the events of a switch that so closes channels, and changes this.
fn push_change(
    list: &mut TimedEvents,
    close: &Close,
    change: &Change,
    end: u32,
) -> Result<(), NoMemory>
    ensures { OnOk result (list.new ≡ list.old ++ within end
        (switching_events close.now change.now.closing.items change.now.writes.items)) }
{
    push_switching(list, close, &change.closing, &change.writes, end)
}

// The writes that load the first use case.
pub(crate) fn loaded_of(
    alloc: Global,
    all: &[Lines],
    rows: &[SwitchRow],
) -> Result<Vec<Event>, NoMemory>
    requires { All (λ row. row.to.0 < length all.now) rows.now }
    ensures { IfOk result (λ loaded. loaded.items ≡ loaded_over all.now rows.now) }
{
    match rows {
        [] => Ok(Vec::new(alloc)),
        [first, ..] => loaded_by(alloc, all[first.to.0 as usize].list()),
    }
}

// The writes that load the channels of a use case.
fn loaded_by(alloc: Global, lines: &[Line]) -> Result<Vec<Event>, NoMemory>
    ensures { IfOk result (λ loaded. loaded.items ≡ changes (program_of []
        (map (λ line. line.row) lines.now))) }
{
    let rows = all_rows(alloc, lines)?;
    let writes = program(alloc, &[], &rows)?;
    changes_of(alloc, &writes)
}

// The rows of lines.
fn all_rows(alloc: Global, lines: &[Line]) -> Result<Vec<ChannelRow>, NoMemory>
    ensures { IfOk result (λ rows. rows.items ≡ map (λ line. line.row) lines.now) }
{
    let mut rows = Vec::with_capacity(alloc, lines.len())?;
    for line in lines {
        rows.push(line.row)?;
    }
    Ok(rows)
}

// Writes as events.
fn changes_of(alloc: Global, writes: &[Write]) -> Result<Vec<Event>, NoMemory>
    ensures { IfOk result (λ events. events.items ≡ changes writes.now) }
{
    let mut events = Vec::with_capacity(alloc, writes.len())?;
    for write in writes {
        events.push(Event::Change(*write))?;
    }
    Ok(events)
}

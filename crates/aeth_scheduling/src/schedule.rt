// The schedule of a run.

ghost use Rattle.std.specs.Prelude.{◌≡◌, ◌<◌, IfOk, length};
ghost use Rattle.aeth_schedule.specs.Lines.{lines_of};
ghost use Rattle.aeth_schedule.specs.Schedule.{schedule_of};
ghost use Rattle.aeth_scheduling.specs.Entered.{entered_lines, is_entered, lines_if_entered};
ghost use Rattle.aeth_scheduling.specs.Parts.{schedule_with};
ghost use Rattle.aeth_scheduling.specs.Tasks.{IsTaskOf};

use crate::durations::spans_for;
use crate::lines::lines_with;
use crate::placing::starts;
use crate::rooms::rooms_of;
use crate::session_start::session_starts_of;
use crate::switching::{loaded_of, timed_events};
use crate::task::Task;
use crate::timed::TimedEvents;
use crate::windows::windows_of;
use aeth_accepted::RunInputs;
use aeth_base::{NoMemory, UseId};
use aeth_components::Event;
use aeth_schedule::{Lines, Schedule, SessionStartByLine, SessionStartList, Window};
use aeth_tables::tables;
use aeth_trace::SwitchRow;
use std::alloc::Global;

// What a schedule has beside the lines of use cases.
#[derive(Drop)]
pub(crate) struct Parts {
    pub loaded: Vec<Event>,
    pub timed: TimedEvents,
    pub session_starts: Vec<SessionStartByLine>,
    pub windows: Vec<Window>,
    pub rooms: Vec<u32>,
}

/// The schedule of accepted inputs: what their run does to tables and queues, cycle by cycle, and its
/// sessions in the order in which they go. `Err` where there was no memory.
pub fn schedule_of(alloc: Global, inputs: &RunInputs) -> Result<Schedule, NoMemory>
    ensures { IfOk result (λ schedule. schedule ≡ schedule_of inputs.now) }
{
    inputs.are_accepted();
    let all = entered_lines(alloc, inputs)?;
    let spans = spans_for(alloc, inputs)?;
    let starts = starts(alloc, inputs.app(), inputs.words())?;
    let task = Task {
        groups: inputs.groups(),
        spans: &spans,
        all: &all,
        words: inputs.words(),
        starts: &starts,
        cycles: inputs.cycles(),
    };
    let parts = parts_of(alloc, inputs, &task)?;
    Ok(made(parts, all))
}

// A schedule of these parts, with the lines among which its sessions are.
fn made(parts: Parts, lines: Vec<Lines>) -> Schedule
    ensures { result ≡ schedule_with lines.items parts }
{
    let (events, cycles) = parts.timed.apart();
    Schedule::new(
        parts.loaded,
        events,
        cycles,
        SessionStartList::of(lines, parts.session_starts),
        parts.windows,
        parts.rooms,
    )
}

// The parts of the schedule of accepted inputs, of which this is the task.
fn parts_of(alloc: Global, inputs: &RunInputs, task: &Task) -> Result<Parts, NoMemory>
    requires { IsTaskOf inputs.now task.now }
    ensures { IfOk result (λ parts. schedule_with task.now.all.now parts
        ≡ schedule_of inputs.now) }
{
    inputs.are_accepted();
    let rows = inputs.switches().rows();
    let loaded = loaded_of(alloc, task.all, rows)?;
    let mut found = Vec::new(alloc);
    let timed = timed_events(alloc, task, &mut found, rows)?;
    let session_starts = session_starts_of(alloc, task, &mut found, rows)?;
    let windows = windows_of(alloc, task, rows)?;
    let rooms = rooms_of(alloc, inputs)?;
    Ok(Parts {
        loaded,
        timed,
        session_starts,
        windows,
        rooms,
    })
}

// The channels of all use cases that rows of switches enter. Of the others none are made.
fn entered_lines(alloc: Global, inputs: &RunInputs) -> Result<Vec<Lines>, NoMemory>
    ensures { IfOk result (λ all. all.items ≡ entered_lines inputs.now) }
{
    let mut all = Vec::new(alloc);
    for u in 0..inputs.app().uses() {
        all.push(lines_if_entered(alloc, inputs, UseId(u))?)?;
    }
    Ok(all)
}

// The channels of a use case, where a row enters it.
fn lines_if_entered(alloc: Global, inputs: &RunInputs, u: UseId) -> Result<Lines, NoMemory>
    requires { u.0 < length inputs.now.app.uses }
    ensures { IfOk result (λ lines. lines ≡ lines_if_entered inputs.now u.0) }
{
    if is_entered(inputs.switches().rows(), u) {
        lines_of_use(alloc, inputs, u)
    } else {
        Ok(Lines::of(Vec::new(alloc)))
    }
}

/// Whether a row of switches enters a use case.
pub fn is_entered(rows: &[SwitchRow], u: UseId) -> bool
    ensures { result ≡ is_entered rows.now u.0 }
{
    rows.iter().any(|row| row.to.0 == u.0)
}

// The channels of a use case.
fn lines_of_use(alloc: Global, inputs: &RunInputs, u: UseId) -> Result<Lines, NoMemory>
    requires { u.0 < length inputs.now.app.uses }
    ensures { IfOk result (λ lines. lines ≡ lines_of inputs.now u.0) }
{
    inputs.are_accepted();
    let tables = tables(
        alloc,
        inputs.chip(),
        inputs.app(),
        inputs.groups(),
        inputs.plan(),
        u,
    )?;
    lines_with(alloc, &tables)
}

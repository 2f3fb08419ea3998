// Events, each in its cycle.

ghost use Rattle.std.specs.Prelude.{◌≡◌, ◌++◌, ◌∷◌, [], OnOk, map};
ghost use Rattle.aeth_schedule.specs.Timed.{closing_at, event_by, switching_events, within};
ghost use Rattle.aeth_schedule.specs.Timed.{writes_from};

use aeth_base::NoMemory;
use aeth_components::{ChannelEnd, Event};
use aeth_ni::{ChannelRow, Write};
use aeth_reconf::Close;
use aeth_schedule::{Closing, end_of};
use std::alloc::Global;
use std::marker::Model;

// Events with their cycles: the events in one list, and the cycle of each at its place in another.
#[derive(Drop)]
pub(crate) struct TimedEvents {
    events: Vec<Event>,
    cycles: Vec<u32>,
}

impl Model for TimedEvents {
    ghost use Rattle.std.specs.Prelude.{List, ◌≡◌, length};
    ghost use Rattle.aeth_schedule.specs.declared.timed.Timed.{Timed};
    ghost use Rattle.aeth_scheduling.specs.Beside.{timed_beside};

    ghost Value = { List Timed };

    ghost view = { λ all. timed_beside all.events.items all.cycles.items };

    ghost invariant = { λ all. length all.events.items ≡ length all.cycles.items };
}

impl TimedEvents {
    // None yet.
    pub(crate) fn new(alloc: Global) -> TimedEvents
        ensures { result ≡ [] }
    {
        TimedEvents {
            events: Vec::new(alloc),
            cycles: Vec::new(alloc),
        }
    }

    // Appends an event of a cycle.
    pub(crate) fn push(&mut self, cycle: u32, event: Event) -> Result<(), NoMemory>
        ensures { OnOk result (self.new
            ≡ self.old ++ record { cycle = cycle; event = event } ∷ []) }
    {
        self.events.push(event)?;
        if self.cycles.push(cycle).is_err() {
            self.events.pop();
            return Err(NoMemory);
        }
        Ok(())
    }

    // The events, and their cycles.
    pub(crate) fn apart(self) -> (Vec<Event>, Vec<u32>)
        ensures events { result.0.items ≡ map (λ one. one.event) self }
        ensures cycles { result.1.items ≡ map (λ one. one.cycle) self }
    {
        (self.events, self.cycles)
    }
}

// Appends the events of a switch that so closes these channels and makes these writes, as far as their
// cycles are below the end.
pub(crate) fn push_switching(
    list: &mut TimedEvents,
    close: &Close,
    closing: &[ChannelRow],
    writes: &[Write],
    end: u32,
) -> Result<(), NoMemory>
    ensures { OnOk result (list.new
        ≡ list.old ++ within end (switching_events close.now closing.now writes.now)) }
{
    push_closing(list, Closing::Halts, close.stop, closing, end)?;
    push_closing(list, Closing::Finishes, close.fin, closing, end)?;
    push_writes(list, close.fin, writes, end)
}

// Appends such an event of each of these channels, where the cycle is below the end.
fn push_closing(
    list: &mut TimedEvents,
    closing: Closing,
    cycle: u64,
    rows: &[ChannelRow],
    end: u32,
) -> Result<(), NoMemory>
    ensures { OnOk result (list.new
        ≡ list.old ++ within end (closing_at closing cycle rows.now)) }
{
    if cycle >= u64::from(end) {
        return Ok(());
    }
    push_all_closing(list, closing, cycle as u32, rows)
}

// Appends one of each.
fn push_all_closing(
    list: &mut TimedEvents,
    closing: Closing,
    cycle: u32,
    rows: &[ChannelRow],
) -> Result<(), NoMemory>
    ensures { OnOk result (list.new
        ≡ list.old ++ closing_at closing cycle rows.now) }
{
    for row in rows {
        list.push(cycle, event_by(closing, end_of(row)))?;
    }
    Ok(())
}

// Such an event of a channel that is sent from this queue.
fn event_by(closing: Closing, end: ChannelEnd) -> Event
    ensures { result ≡ event_by closing end }
{
    match closing {
        Closing::Halts => Event::Halt(end),
        Closing::Finishes => Event::Finish(end),
    }
}

// Appends writes, one in each cycle from this one on, as far as cycles are below the end.
fn push_writes(
    list: &mut TimedEvents,
    first: u64,
    writes: &[Write],
    end: u32,
) -> Result<(), NoMemory>
    ensures { OnOk result (list.new
        ≡ list.old ++ within end (writes_from first writes.now)) }
{
    let mut cycle = first;
    let mut rest = writes;
    'writes: while let [write, more @ ..] = rest {
        if cycle >= u64::from(end) {
            return Ok(());
        }
        list.push(cycle as u32, Event::Change(*write))?;
        cycle += 1;
        rest = more;
    }
    Ok(())
}

// The tables of routers, which change with the use case.

ghost use Rattle.std.specs.Prelude.{◌≡◌, ◌≤◌, ◌<◌, ◌++◌, All, IfOk, OnOk, fold, length};
ghost use Rattle.std.specs.Prelude.{slice_range};
ghost use Rattle.std.specs.List.Sorted.{IsNonDecreasingBy};
ghost use Rattle.aeth_accepted.specs.Inputs.{run_of};
ghost use Rattle.aeth_components.specs.Entering.{TakesRows};
ghost use Rattle.aeth_running.specs.Routing.{entered_first, entered_with, first_rows, kind_of};
ghost use Rattle.aeth_running.specs.Routing.{later_rows};
ghost use Rattle.aeth_schedule.specs.Schedule.{schedule_of};
ghost use Rattle.aeth_network.specs.Behind.{IsBehind, passed};
ghost use Rattle.aeth_network.specs.Routes.{entered_in, entered_use, first_use, later_uses};
ghost use Rattle.aeth_network.specs.Routes.{routing_by, rows_in};

use crate::places::{behind, quiet_until};
use aeth_accepted::RunInputs;
use aeth_base::{NoMemory, UseId};
use aeth_components::{Components, RouterKind};
use aeth_router::RouterRow;
use aeth_schedule::{Schedule, Window};
use aeth_trace::SwitchRow;
use std::alloc::Global;
use std::marker::Model;

/// The rows of the tables of all routers in a use case.
#[derive(Drop)]
pub struct UseRows {
    rows: Vec<RouterRow>,
}

impl Model for UseRows {
    ghost use Rattle.std.specs.Prelude.{List};
    ghost use Rattle.aeth_router.specs.declared.router_row.RouterRow.{RouterRow};

    ghost Value = { List RouterRow };

    ghost view = { λ all. all.rows.items };
}

impl UseRows {
    /// These rows.
    pub fn of(rows: Vec<RouterRow>) -> UseRows
        ensures { result ≡ rows.items }
    {
        UseRows { rows }
    }

    // The rows.
    fn rows(&self) -> &[RouterRow]
        ensures { result.now ≡ self.now }
    {
        &self.rows
    }
}

// A use case is entered in a cycle.
#[derive(Clone, Copy)]
pub(crate) struct EnteredUse {
    pub cycle: u64,
    pub entered: UseId,
}

/// The tables of routers in a run: the rows of each use case, the use case that they have first, and those
/// that are entered later.
#[derive(Drop)]
pub struct UseTables {
    tables: Vec<UseRows>,
    first: UseId,
    later: Vec<EnteredUse>,
}

impl Model for UseTables {
    ghost use Rattle.std.specs.Prelude.{◌<◌, All, length};
    ghost use Rattle.aeth_running.specs.Routing.{Routing};
    ghost use Rattle.aeth_network.specs.Routes.{rows_in, tables_as};

    ghost Value = { Routing };

    ghost view = { λ all. tables_as (rows_in all.tables.items) all.first.0 all.later.items };

    ghost invariant = { λ all. (all.first.0 < length all.tables.items)
        × All (λ one. one.entered.0 < length all.tables.items) all.later.items };
}

impl UseTables {
    /// The tables of accepted inputs by their schedule, where these are the rows of each of their use cases. They
    /// have those of the first row of switches first. Each later row enters its use case in the cycle in which all has
    /// landed that it closes. `Err` where there was no memory.
    pub fn of(
        alloc: Global,
        inputs: &RunInputs,
        schedule: &Schedule,
        tables: Vec<UseRows>,
    ) -> Result<UseTables, NoMemory>
        requires schedule { schedule.now ≡ schedule_of inputs.now }
        requires tables { length tables.items ≡ length inputs.now.app.uses }
        ensures { IfOk result (λ made. made
            ≡ routing_by (run_of inputs.now).spans (rows_in tables.items) inputs.now.switches) }
    {
        inputs.are_accepted();
        let rows = inputs.switches().rows();
        Ok(UseTables {
            tables,
            first: first_use(rows),
            later: later_uses(alloc, schedule.windows(), rows)?,
        })
    }

    // Routers have tables.
    pub(crate) fn kind(&self) -> RouterKind
        ensures { result ≡ kind_of self.now }
    {
        let _first = self.first;
        RouterKind::ByTable
    }

    // The place behind the rows that enter in a cycle.
    pub(crate) fn behind(&self, from: usize, time: u32) -> usize
        requires order { IsNonDecreasingBy (λ one. one.cycle) (later_rows self.now) }
        requires from { from ≡ passed (λ one. one.cycle) time (later_rows self.now) }
        ensures { IsBehind (λ one. one.cycle) time (later_rows self.now) from result }
    {
        behind(&self.later, from, time)
    }

    // A cycle, at most a limit, before which none of the rows from a place on enters.
    pub(crate) fn quiet_until(&self, place: usize, limit: u32) -> u32
        requires { IsNonDecreasingBy (λ one. one.cycle) (later_rows self.now) }
        ensures most { result ≤ limit }
        ensures quiet { passed (λ one. one.cycle) result (later_rows self.now) ≤ place }
    {
        quiet_until(&self.later, place, limit)
    }

    // The first rows enter the tables of components.
    pub(crate) fn enter_first(&self, components: &mut Components)
        requires { All (TakesRows (first_rows self.now)) components.old.parts }
        ensures { components.new ≡ record components.old {
          parts = entered_first self.now components.old.parts;
        } }
    {
        components.enter(rows_of(&self.tables, self.first));
    }

    // The later rows between two places do.
    pub(crate) fn enter(&self, components: &mut Components, from: usize, to: usize)
        requires from { from ≤ to }
        requires to { to ≤ length (later_rows self.now) }
        requires takes { All (λ entering. All (TakesRows entering.rows) components.old.parts)
            (later_rows self.now) }
        ensures { components.new ≡ record components.old {
          parts = fold entered_with components.old.parts (slice_range (later_rows self.now) from to);
        } }
    {
        enter_uses(components, &self.tables, &self.later[from..to]);
    }
}

// The rows of a use case, out of those of all.
fn rows_of(tables: &[UseRows], u: UseId) -> &[RouterRow]
    requires { u.0 < length tables.now }
    ensures { result.now ≡ rows_in tables.now u.0 }
{
    tables[u.0 as usize].rows()
}

// The rows of use cases enter the tables of components, one use case after the other.
fn enter_uses(components: &mut Components, tables: &[UseRows], uses: &[EnteredUse])
    requires known { All (λ one. one.entered.0 < length tables.now) uses.now }
    requires takes { All (λ one. All (TakesRows (rows_in tables.now one.entered.0))
        components.old.parts) uses.now }
    ensures { components.new ≡ record components.old {
      parts = fold (entered_use (rows_in tables.now)) components.old.parts uses.now;
    } }
{
    for one in uses {
        components.enter(rows_of(tables, one.entered));
    }
}

// The use case that the first row loads.
fn first_use(rows: &[SwitchRow]) -> UseId
    ensures { result.0 ≡ first_use rows.now }
{
    if let [first, ..] = rows {
        first.to
    } else {
        UseId(0)
    }
}

// The use cases that the switches behind the first row enter, which have these windows.
fn later_uses(
    alloc: Global,
    windows: &[Window],
    rows: &[SwitchRow],
) -> Result<Vec<EnteredUse>, NoMemory>
    ensures { IfOk result (λ uses. uses.items ≡ later_uses windows.now rows.now) }
{
    let mut uses = Vec::with_capacity(alloc, windows.len())?;
    if let [_, later @ ..] = rows {
        push_uses(&mut uses, windows, later)?;
    }
    Ok(uses)
}

// Appends the use cases that the switches of these windows enter.
fn push_uses(
    uses: &mut Vec<EnteredUse>,
    windows: &[Window],
    rows: &[SwitchRow],
) -> Result<(), NoMemory>
    ensures { OnOk result (uses.new.items ≡ uses.old.items ++ entered_in windows.now rows.now) }
{
    let mut windows_left = windows;
    let mut rows_left = rows;
    'switches: while let [window, windows_behind @ ..] = windows_left {
        let [row, rows_behind @ ..] = rows_left else {
            return Ok(());
        };
        uses.push(EnteredUse {
            cycle: window.fin,
            entered: row.to,
        })?;
        windows_left = windows_behind;
        rows_left = rows_behind;
    }
    Ok(())
}

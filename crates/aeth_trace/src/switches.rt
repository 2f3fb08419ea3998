// The switches between use cases.
ghost use Rattle.std.specs.Prelude.{◌≡◌, ◌<◌, ◌∷◌, length, All, IfErr, IfOk};
ghost use Rattle.aeth_base.specs.Faults.{Reads};
ghost use Rattle.aeth_trace.specs.Fault.{rule_of};
ghost use Rattle.aeth_trace.specs.Switches.{AreSwitchesOf, are_apart, are_apart_from, go_after};
ghost use Rattle.aeth_trace.specs.SwitchFaults.{IsOfRow, switches_told};
ghost use Rattle.aeth_trace.specs.Switches.{is_first_at_zero, switches_of};

use crate::columns::Columns;
use crate::fault::TraceFault;
use crate::fields::{number_to, three_of, use_named};
use crate::found::Found;
use crate::judging::{judge_count, judge_known, judge_order, next_row_number};
use crate::row::Row;
use crate::spans::Spans;
use crate::table::read_table;
use aeth_app::App;
use aeth_base::{MAX_CYCLES, UseId};
use csv::ByteRecord;
use std::alloc::Global;
use std::marker::Model;

/// The most rows of a file of switches.
pub const MAX_SWITCH_ROWS: u32 = 1_024;

/// A switch to a use case: from a cycle on no words are accepted by the channels that it closes,
/// and after so many cycles of drain they inject nothing more.
#[derive(Clone, Copy)]
pub struct SwitchRow {
    pub cycle: u32,
    pub to: UseId,
    pub drain: u32,
}

impl Row for SwitchRow {
    ghost names = { λ row. row.to.0 };

    ghost at = { λ row. row.cycle };

    fn named(&self) -> u32 {
        self.to.0
    }

    fn cycle(&self) -> u32 {
        self.cycle
    }
}

// The columns of a file of switches.
struct SwitchColumns;

impl Columns for SwitchColumns {
    ghost use Rattle.aeth_trace.specs.Switches.{heads_switches, switch_in, use_names};

    type Row = SwitchRow;

    ghost heads = { heads_switches };

    ghost told = { λ app. switch_in (use_names app) };

    fn is_header(fields: &ByteRecord) -> bool {
        match three_of(fields) {
            None => false,
            Some((cycle, one, drain)) => {
                cycle == b"cycle".as_slice()
                    && one == b"use".as_slice()
                    && drain == b"drain".as_slice()
            }
        }
    }

    fn tell(app: &App, _found: &mut [Option<Found>], fields: &ByteRecord) -> Option<SwitchRow> {
        match three_of(fields) {
            None => None,
            Some((cycle, one, drain)) => {
                let to = UseId(use_named(app, one));
                match (number_to(MAX_CYCLES, cycle), number_to(MAX_CYCLES, drain)) {
                    (Some(cycle), Some(drain)) => Some(SwitchRow { cycle, to, drain }),
                    _ => None,
                }
            }
        }
    }
}

/// Switches between use cases, in the order of their cycles. They are seen as the list of these.
#[derive(Drop)]
pub struct Switches {
    rows: Vec<SwitchRow>,
}

impl Model for Switches {
    ghost use Rattle.std.specs.Prelude.{List};
    ghost use Rattle.aeth_trace.specs.declared.switches.SwitchRow.{SwitchRow};

    ghost Value = { List SwitchRow };

    ghost view = { λ switches. switches.rows.items };
}

impl Switches {
    /// The switches, in file order.
    pub fn rows(&self) -> &[SwitchRow]
        ensures { result.now ≡ self.now }
    {
        &self.rows
    }
}

/// The cycle in which the channels begin that a switch opens, where it leaves this use case: after
/// its drain, its lag and its writes.
pub fn go_after(spans: &Spans, from: UseId, row: &SwitchRow) -> u64
    requires from { from.0 < spans.now.uses }
    requires to { row.now.to.0 < spans.now.uses }
    ensures { result ≡ go_after spans.now from.0 row.now }
{
    row.cycle as u64
        + row.drain as u64
        + spans.lag(from, row.to) as u64
        + spans.writes(from, row.to) as u64
}

// Judges that the switches after the first, which enters this use case, are apart.
fn judge_later(spans: &Spans, first: UseId, rows: &[SwitchRow]) -> Result<(), TraceFault>
    requires first { first.0 < spans.now.uses }
    requires rows { All (λ row. row.to.0 < spans.now.uses) rows.now }
    ensures reads { Reads rule_of (λ u. u) result
        (are_apart_from spans.now first.0 0 2 rows.now) }
    ensures of_row { IfErr result (λ fault. (front : SwitchRow)
        → IsOfRow (front ∷ rows.now) fault) }
{
    let mut from = first;
    let mut go = 0;
    let mut number = 2;
    for row in rows {
        if (row.cycle as u64) < go {
            let cycle = row.cycle;
            return Err(TraceFault::Overlap {
                row: number,
                cycle,
                go,
            });
        }
        go = go_after(spans, from, row);
        from = row.to;
        number = next_row_number(number)?;
    }
    Ok(())
}

// Judges that no switch begins before the one before it is done.
fn judge_apart(spans: &Spans, rows: &[SwitchRow]) -> Result<(), TraceFault>
    requires { All (λ row. row.to.0 < spans.now.uses) rows.now }
    ensures reads { Reads rule_of (λ u. u) result (are_apart spans.now rows.now) }
    ensures of_row { IfErr result (IsOfRow rows.now) }
{
    match rows {
        [] => Ok(()),
        [first, later @ ..] => judge_later(spans, first.to, later),
    }
}

// Judges that the first switch has cycle 0 and drain 0.
fn judge_first(rows: &[SwitchRow]) -> Result<(), TraceFault>
    ensures reads { Reads rule_of (λ u. u) result (is_first_at_zero rows.now) }
    ensures of_row { IfErr result (IsOfRow rows.now) }
{
    match rows {
        [] => Err(TraceFault::FirstNotZero {
            row: 0,
            cycle: 0,
            drain: 0,
        }),
        [first, ..] => {
            if first.cycle == 0 && first.drain == 0 {
                return Ok(());
            }
            Err(TraceFault::FirstNotZero {
                row: 1,
                cycle: first.cycle,
                drain: first.drain,
            })
        }
    }
}

/// The switches of a file's bytes, for an application whose switches take so long; or the first
/// rule that the file breaks; or memory ran out. A fault has the cycle and the drain of the row that
/// it names. The columns are `cycle,use,drain`: cycles and drains are 0 to 1,000,000.
#[tactic(auto, unfolding(crate::specs::Switches::switches_of))]
pub fn read_switches(
    alloc: Global,
    bytes: &[u8],
    app: &App,
    spans: &Spans,
) -> Result<Switches, TraceFault>
    requires { spans.now.uses ≡ length app.now.uses }
    ensures reads { Reads rule_of (λ switches. switches) result
        (switches_of app.now spans.now bytes.now) }
    ensures switches { IfOk result (λ switches. AreSwitchesOf app.now spans.now switches) }
    ensures of_row { IfErr result (IsOfRow (switches_told app.now bytes.now)) }
{
    let rows = read_table::<SwitchColumns>(alloc, bytes, app)?;
    judge_known(&rows, 2, app.uses())?;
    judge_order(&rows)?;
    judge_apart(spans, &rows)?;
    judge_count(rows.len(), MAX_SWITCH_ROWS)?;
    judge_first(&rows)?;
    Ok(Switches { rows })
}

// Printing the tables of a use case.
ghost use Rattle.aeth_plan.specs.Plan.{name_at};
ghost use Rattle.aeth_tables.specs.Lines.{head_line};
ghost use Rattle.aeth_tables.specs.TableText.{HasTableOf, IsPrintable, NamesConnection};
ghost use Rattle.aeth_tables.specs.TableText.{lines_with, table_text};
ghost use Rattle.aeth_text.specs.Spelling.{ended_line, text_of_lines};
ghost use Rattle.aeth_trace.specs.Switches.{use_names};
ghost use Rattle.std.specs.Prelude.{◌≡◌, ◌<◌, ◌++◌, All, IfOk, OnOk, length};

use crate::entries::push_entries;
use crate::lines::push_head;
use crate::promised::{PromisedRow, promised_of, rows_by_interface};
use crate::queues::push_queues;
use crate::table::Tables;
use aeth_app::App;
use aeth_base::{NoMemory, UseId};
use aeth_chip::Chip;
use std::alloc::Global;

/// Appends the first line of the tables of a use case.
fn push_use(out: &mut Vec<u8>, app: &App, u: UseId) -> Result<(), NoMemory>
    requires { u.0 < length app.now.uses }
    ensures { OnOk result (out.new.items
        ≡ out.old.items ++ ended_line (head_line (name_at (use_names app.now) u.0))) }
{
    let name = app.use_name(u);
    push_head(out, name.as_bytes())
}

// The text of these rows of a use case.
fn text_of_rows(
    alloc: Global,
    chip: &Chip,
    app: &App,
    u: UseId,
    rows: &[PromisedRow],
) -> Result<Vec<u8>, NoMemory>
    requires use_case { u.0 < length app.now.uses }
    requires sizes { All (HasTableOf chip.now) rows.now }
    requires names { All (NamesConnection app.now) rows.now }
    ensures { IfOk result (λ text. text.items
        ≡ text_of_lines (lines_with chip.now app.now u.0 rows.now)) }
{
    let lists = rows_by_interface(alloc, rows, chip.nis())?;
    let mut out = Vec::new(alloc);
    push_use(&mut out, app, u)?;
    push_entries(&mut out, chip, &lists)?;
    push_queues(&mut out, chip, app, &lists)?;
    out.extend_from_slice(b"end\n")?;
    Ok(out)
}

/// The text of the tables of a use case: an `entry` line for each slot of each channel at its sending
/// interface, and then a `queue` line for each channel, with what it is promised. `Err` where there
/// was no memory.
#[tactic(auto, unfolding(crate::specs::TableText::table_text))]
pub fn table_text(
    alloc: Global,
    tables: &Tables,
    chip: &Chip,
    app: &App,
) -> Result<Vec<u8>, NoMemory>
    requires { IsPrintable chip.now app.now tables.now }
    ensures { IfOk result (λ text. text.items ≡ table_text chip.now app.now tables.now) }
{
    let rows = promised_of(alloc, &tables.rows, &tables.shapes)?;
    text_of_rows(alloc, chip, app, tables.uses, &rows)
}

// The lines of queues, in the order of interfaces and queues.
ghost use Rattle.aeth_plan.specs.Plan.{connection_names, name_at};
ghost use Rattle.aeth_tables.specs.Lines.{queue_line};
ghost use Rattle.aeth_tables.specs.TableText.{NamesConnection, lines_of_queue, list_at};
ghost use Rattle.aeth_tables.specs.TableText.{listed_queues, queues_with};
ghost use Rattle.aeth_text.specs.Spelling.{ended_line, text_of_lines};
ghost use Rattle.std.specs.Prelude.{◌≡◌, ◌<◌, ◌++◌, ℕ, All, OnOk, length};

use crate::lines::push_queue;
use crate::promised::PromisedRow;
use aeth_app::App;
use aeth_base::{NiId, NoMemory};
use aeth_chip::Chip;
use aeth_ni::QUEUES_OF_INTERFACE;

/// Appends the line of a row, of an interface that has this name.
fn push_row(out: &mut Vec<u8>, app: &App, name: &[u8], one: &PromisedRow) -> Result<(), NoMemory>
    requires { NamesConnection app.now one.now }
    ensures { OnOk result (out.new.items ≡ out.old.items ++ ended_line (queue_line name.now
        (name_at (connection_names app.now) one.now.row.channel.conn.0) one.now)) }
{
    let connection = app.connection(one.row.channel.conn);
    push_queue(out, name, connection.name.as_bytes(), one)
}

/// Appends the lines of a queue of an interface that has this name, of its rows.
fn push_queue_of(
    out: &mut Vec<u8>,
    app: &App,
    name: &[u8],
    rows: &[PromisedRow],
    queue: u32,
) -> Result<(), NoMemory>
    requires { All (NamesConnection app.now) rows.now }
    ensures { OnOk result (out.new.items
        ≡ out.old.items ++ text_of_lines (lines_of_queue app.now name.now rows.now queue)) }
{
    for one in rows {
        if one.row.queue as u32 == queue {
            push_row(out, app, name, one)?;
        }
    }
    Ok(())
}

/// Appends the lines of the queues of an interface that has these rows.
fn push_queues_at(
    out: &mut Vec<u8>,
    chip: &Chip,
    app: &App,
    own: &[PromisedRow],
    ni: NiId,
) -> Result<(), NoMemory>
    requires ni { ni.0 < length chip.now.nis }
    requires rows { All (NamesConnection app.now) own.now }
    ensures { OnOk result (out.new.items
        ≡ out.old.items ++ text_of_lines (queues_with chip.now app.now own.now ni.0)) }
{
    let name = chip.ni_name(ni);
    for queue in 0..QUEUES_OF_INTERFACE as u32 {
        push_queue_of(out, app, name.as_bytes(), own, queue)?;
    }
    Ok(())
}

/// Appends the lines of all queues, of interfaces that have these lists of rows.
pub(crate) fn push_queues(
    out: &mut Vec<u8>,
    chip: &Chip,
    app: &App,
    lists: &[Vec<PromisedRow>],
) -> Result<(), NoMemory>
    requires count { length lists.now ≡ length chip.now.nis }
    requires rows { (ni : ℕ) → ni < length chip.now.nis → All (NamesConnection app.now) (list_at lists.now ni) }
    ensures { OnOk result (out.new.items
        ≡ out.old.items ++ text_of_lines (listed_queues chip.now app.now lists.now)) }
{
    for ni in 0..chip.nis() {
        push_queues_at(out, chip, app, &lists[ni as usize], NiId(ni))?;
    }
    Ok(())
}

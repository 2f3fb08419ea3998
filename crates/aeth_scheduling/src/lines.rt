// The channels of a use case out of its tables.

ghost use Rattle.std.specs.Prelude.{◌≡◌, ◌++◌, IfOk, OnOk};
ghost use Rattle.aeth_schedule.specs.Lines.{line_with, lines_with};

use aeth_base::NoMemory;
use aeth_ni::ChannelRow;
use aeth_schedule::{Line, Lines, end_of};
use aeth_server::ChannelShape;
use aeth_tables::Tables;
use std::alloc::Global;

// The lines of tables.
pub(crate) fn lines_with(alloc: Global, tables: &Tables) -> Result<Lines, NoMemory>
    ensures { IfOk result (λ lines. lines ≡ lines_with tables.now.rows tables.now.shapes) }
{
    let mut list = Vec::with_capacity(alloc, tables.rows.len())?;
    push_lines(&mut list, &tables.rows, &tables.shapes)?;
    Ok(Lines::of(list))
}

// Appends the lines of these rows and shapes.
fn push_lines(
    list: &mut Vec<Line>,
    rows: &[ChannelRow],
    shapes: &[ChannelShape],
) -> Result<(), NoMemory>
    ensures { OnOk result (list.new.items ≡ list.old.items ++ lines_with rows.now shapes.now) }
{
    let mut rows_left = rows;
    let mut shapes_left = shapes;
    'pairs: while let [fwd, back, rows_behind @ ..] = rows_left {
        let [fwd_shape, back_shape, shapes_behind @ ..] = shapes_left else {
            return Ok(());
        };
        list.push(paired(fwd, fwd_shape, back))?;
        list.push(paired(back, back_shape, fwd))?;
        rows_left = rows_behind;
        shapes_left = shapes_behind;
    }
    Ok(())
}

// A channel, which lands where the opposite one is sent from.
fn paired(row: &ChannelRow, shape: &ChannelShape, other: &ChannelRow) -> Line
    ensures { result ≡ line_with row.now shape.now other.now }
{
    Line {
        row: *row,
        shape: *shape,
        receiver: end_of(other),
    }
}

// Rows with what their channels are promised.
ghost use Rattle.aeth_server.specs.ChannelShape.{IsShapeInRange};
ghost use Rattle.aeth_tables.specs.TableText.{AreOwn, list_at, promised, promised_of, rows_at};
ghost use Rattle.std.specs.Prelude.{◌≡◌, ◌<◌, ◌++◌, ◌∷◌, [], ℕ, All, IfOk, length};

use aeth_base::NoMemory;
use aeth_ni::ChannelRow;
use aeth_server::ChannelShape;
use std::alloc::Global;

/// A row, with what its channel is promised: the rate in words per table, and the latency, which is
/// by how many cycles at most it is later than a steady server of this rate.
#[derive(Clone, Copy)]
pub(crate) struct PromisedRow {
    pub row: ChannelRow,
    pub rate: u32,
    pub latency: u32,
}

/// A row with what the shape of its channel promises.
fn promised(row: &ChannelRow, shape: &ChannelShape) -> PromisedRow
    requires { IsShapeInRange shape.now }
    ensures { result ≡ promised (row.now, shape.now) }
{
    PromisedRow {
        row: *row,
        rate: shape.rate(),
        latency: shape.latency(),
    }
}

/// The rows, each with what its channel is promised.
pub(crate) fn promised_of(
    alloc: Global,
    rows: &[ChannelRow],
    shapes: &[ChannelShape],
) -> Result<Vec<PromisedRow>, NoMemory>
    requires count { length rows.now ≡ length shapes.now }
    requires shapes { All IsShapeInRange shapes.now }
    ensures { IfOk result (λ all. all.items ≡ promised_of rows.now shapes.now) }
{
    let mut all = Vec::new(alloc);
    for place in 0..rows.len() {
        all.push(promised(&rows[place], &shapes[place]))?;
    }
    Ok(all)
}

/// No rows for each of so many interfaces.
fn no_rows(alloc: Global, nis: u32) -> Result<Vec<Vec<PromisedRow>>, NoMemory>
    ensures size { IfOk result (λ lists. length lists.items ≡ nis) }
    ensures empty { IfOk result (λ lists. (ni : ℕ) → list_at lists.items ni ≡ []) }
{
    let mut lists = Vec::new(alloc);
    for _ni in 0..nis {
        lists.push(Vec::new(alloc))?;
    }
    Ok(lists)
}

/// Puts a row at the end of those of its interface, where there is a list for it.
fn put_row(lists: &mut Vec<Vec<PromisedRow>>, one: &PromisedRow) -> Result<(), NoMemory>
    ensures size { length lists.new.items ≡ length lists.old.items }
    ensures rows { IfOk result (λ _. (ni : ℕ) → ni < length lists.old.items
        → list_at lists.new.items ni ≡ list_at lists.old.items ni ++ rows_at ni (one.now ∷ [])) }
{
    let place = one.row.ni.0 as usize;
    if place < lists.len() {
        lists[place].push(*one)?;
    }
    Ok(())
}

/// The rows of each of so many interfaces.
pub(crate) fn rows_by_interface(
    alloc: Global,
    rows: &[PromisedRow],
    nis: u32,
) -> Result<Vec<Vec<PromisedRow>>, NoMemory>
    ensures size { IfOk result (λ lists. length lists.items ≡ nis) }
    ensures own { IfOk result (λ lists. AreOwn nis rows.now lists.items) }
{
    let mut lists = no_rows(alloc, nis)?;
    for one in rows {
        put_row(&mut lists, one)?;
    }
    Ok(lists)
}

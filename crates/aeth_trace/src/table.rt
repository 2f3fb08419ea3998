// Reading the rows of a file: the rule on their fields.
ghost use Rattle.std.specs.Prelude.{IfErr};
ghost use Rattle.aeth_base.specs.Faults.{Reads};
ghost use Rattle.aeth_trace.specs.Fault.{rule_of};
ghost use Rattle.aeth_trace.specs.Found.{AreFound};
ghost use Rattle.aeth_records.specs.Left.{IsReading, left};
ghost use Rattle.aeth_records.specs.Records.{records_of};
ghost use Rattle.aeth_trace.specs.Rules.{rows_from, table_of};
ghost use Rattle.aeth_trace.specs.SwitchFaults.{IsPlain};
ghost use Rattle.aeth_trace.specs.Words.{connection_names};

use crate::columns::Columns;
use crate::fault::TraceFault;
use crate::found::{Found, none_found};
use crate::words::MAX_ROWS;
use aeth_app::App;
use aeth_records::{next_row, open, room_for};
use csv::{ByteRecord, Reader};
use std::alloc::Global;

// The rows under the header, in a list that begins with so much room. Connections that are found by
// their names are kept.
fn rows_of<C: Columns>(
    alloc: Global,
    app: &App,
    room: usize,
    reader: &mut Reader<&[u8]>,
    fields: &mut ByteRecord,
    found: &mut [Option<Found>],
) -> Result<Vec<C::Row>, TraceFault>
    requires reading { IsReading reader.old }
    requires found { AreFound (connection_names app.now) found.old }
    ensures reads { Reads rule_of (λ rows. rows.items) result
        (rows_from (C.told app.now) 1 (left reader.old)) }
    ensures plain { IfErr result IsPlain }
{
    let mut rows = Vec::with_capacity(alloc, room)?;
    for row in 1..u32::MAX {
        if !next_row(reader, fields)? {
            return Ok(rows);
        }
        match C::tell(app, found, fields) {
            Some(told) => rows.push(told)?,
            None => return Err(TraceFault::BadRow { row }),
        }
    }
    Err(TraceFault::Memory)
}

// The rows of the records that a reader has left, of which the first is the header.
fn table_in<C: Columns>(
    alloc: Global,
    app: &App,
    room: usize,
    reader: &mut Reader<&[u8]>,
) -> Result<Vec<C::Row>, TraceFault>
    requires { IsReading reader.old }
    ensures reads { Reads rule_of (λ rows. rows.items) result
        (table_of C.heads (C.told app.now) (left reader.old)) }
    ensures plain { IfErr result IsPlain }
{
    let mut fields = ByteRecord::new(alloc);
    if !next_row(reader, &mut fields)? {
        return Err(TraceFault::BadRow { row: 0 });
    }
    if !C::is_header(&fields) {
        return Err(TraceFault::BadRow { row: 0 });
    }
    let mut found = none_found(alloc, app)?;
    rows_of::<C>(alloc, app, room, reader, &mut fields, &mut found)
}

// The rows of a file, where it has its header and each row has the fields of its columns.
pub(crate) fn read_table<C: Columns>(
    alloc: Global,
    bytes: &[u8],
    app: &App,
) -> Result<Vec<C::Row>, TraceFault>
    ensures reads { Reads rule_of (λ rows. rows.items) result
        (table_of C.heads (C.told app.now) (records_of bytes.now)) }
    ensures plain { IfErr result IsPlain }
{
    let mut reader = open(alloc, bytes);
    table_in::<C>(alloc, app, room_for(bytes, MAX_ROWS), &mut reader)
}

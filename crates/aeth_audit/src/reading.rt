// Reading the rows of a log of links: the rule on their fields.
ghost use Rattle.std.specs.Prelude.{◌≡◌};
ghost use Rattle.csv.specs.Records.{fields_of};
ghost use Rattle.aeth_base.specs.Faults.{Reads};
ghost use Rattle.aeth_records.specs.Left.{IsReading, left};
ghost use Rattle.aeth_records.specs.Records.{records_of};
ghost use Rattle.aeth_trace.specs.Rules.{rows_from, table_of};
ghost use Rattle.aeth_audit.specs.Fault.{rule_of};
ghost use Rattle.aeth_audit.specs.LinkLog.{heads_links, is_field, link_row_in, number_at, row_with};

use crate::fault::LogFault;
use crate::log::MAX_LINK_ROWS;
use crate::row::LinkRow;
use aeth_base::{LinkId, MAX_CYCLES};
use aeth_clocked::Flit;
use aeth_records::{next_row, open, room_for};
use aeth_trace::{MAX_VALUE, number_to};
use csv::{ByteRecord, Reader};
use std::alloc::Global;

/// The columns of a log of links.
const LINK_COLUMNS: usize = 5;

// Whether the field at a place is this text.
fn is_field(fields: &ByteRecord, place: usize, text: &[u8]) -> bool
    ensures { result ≡ is_field (fields_of fields.now) place text.now }
{
    match fields.get(place) {
        None => false,
        Some(field) => field == text,
    }
}

// Whether a record is the header.
fn is_header(fields: &ByteRecord) -> bool
    ensures { result ≡ heads_links (fields_of fields.now) }
{
    fields.len() == LINK_COLUMNS
        && is_field(fields, 0, b"cycle")
        && is_field(fields, 1, b"link")
        && is_field(fields, 2, b"header")
        && is_field(fields, 3, b"first")
        && is_field(fields, 4, b"second")
}

// The number at a place, at most so great.
fn number_at(fields: &ByteRecord, place: usize, most: u32) -> Option<u32>
    ensures { result ≡ number_at (fields_of fields.now) place most }
{
    match fields.get(place) {
        None => None,
        Some(field) => number_to(most, field),
    }
}

// A row, where each of its numbers is there.
fn row_with(
    cycle: Option<u32>,
    link: Option<u32>,
    header: Option<u32>,
    first: Option<u32>,
    second: Option<u32>,
) -> Option<LinkRow>
    ensures { result ≡ row_with cycle link header first second }
{
    let cycle = cycle?;
    let link = LinkId(link?);
    let header = header?;
    let first = first?;
    let second = second?;
    let flit = Flit {
        header,
        first,
        second,
    };
    Some(LinkRow { cycle, link, flit })
}

// The row that a record tells.
fn row_in(fields: &ByteRecord) -> Option<LinkRow>
    ensures { result ≡ link_row_in (fields_of fields.now) }
{
    if fields.len() != LINK_COLUMNS {
        return None;
    }
    row_with(
        number_at(fields, 0, MAX_CYCLES),
        number_at(fields, 1, MAX_VALUE),
        number_at(fields, 2, MAX_VALUE),
        number_at(fields, 3, MAX_VALUE),
        number_at(fields, 4, MAX_VALUE),
    )
}

// The rows under the header, in a list that begins with so much room.
fn rows_of(
    alloc: Global,
    room: usize,
    reader: &mut Reader<&[u8]>,
    fields: &mut ByteRecord,
) -> Result<Vec<LinkRow>, LogFault>
    requires { IsReading reader.old }
    ensures { Reads rule_of (λ rows. rows.items) result
        (rows_from link_row_in 1 (left reader.old)) }
{
    let mut rows = Vec::with_capacity(alloc, room)?;
    for row in 1..u32::MAX {
        if !next_row(reader, fields)? {
            return Ok(rows);
        }
        match row_in(fields) {
            Some(told) => rows.push(told)?,
            None => return Err(LogFault::BadRow { row }),
        }
    }
    Err(LogFault::Memory)
}

// The rows of the records that a reader has left, of which the first is the header.
fn table_in(
    alloc: Global,
    room: usize,
    reader: &mut Reader<&[u8]>,
) -> Result<Vec<LinkRow>, LogFault>
    requires { IsReading reader.old }
    ensures { Reads rule_of (λ rows. rows.items) result
        (table_of heads_links link_row_in (left reader.old)) }
{
    let mut fields = ByteRecord::new(alloc);
    if !next_row(reader, &mut fields)? {
        return Err(LogFault::BadRow { row: 0 });
    }
    if !is_header(&fields) {
        return Err(LogFault::BadRow { row: 0 });
    }
    rows_of(alloc, room, reader, &mut fields)
}

/// The rows of a file, where it has its header and each row has the fields of its columns.
pub(crate) fn read_rows(alloc: Global, bytes: &[u8]) -> Result<Vec<LinkRow>, LogFault>
    ensures { Reads rule_of (λ rows. rows.items) result
        (table_of heads_links link_row_in (records_of bytes.now)) }
{
    let mut reader = open(alloc, bytes);
    table_in(alloc, room_for(bytes, MAX_LINK_ROWS), &mut reader)
}

// The records of a file in CSV, one after the other.
ghost use Rattle.std.specs.Prelude.{◌≡◌, ◌≤◌, ◌+◌, ◌/◌, ◌∷◌, [], true, IfOk, MatchBool, OnErr, length, min};
ghost use Rattle.csv.specs.Reading.{has_failed};
ghost use Rattle.csv.specs.Records.{fields_of};
ghost use Rattle.aeth_records.specs.Left.{IsReading, left};
ghost use Rattle.aeth_records.specs.Limits.{short_row};
ghost use Rattle.aeth_records.specs.Records.{records_of};

use csv::{ByteRecord, ErrorKind, Reader, ReaderBuilder};
use std::alloc::{AllocError, Global};

// How many bytes a short row has.
const SHORT_ROW: usize = 10;

/// A reader of all records of a file's bytes, the header among them. It takes records of any number
/// of fields: whether a row has as many as there are columns is for the row to say.
pub fn open(alloc: Global, bytes: &[u8]) -> Reader<&[u8]>
    ensures reading { IsReading result }
    ensures all { left result ≡ records_of bytes.now }
{
    ReaderBuilder::new()
        .has_headers(false)
        .flexible(true)
        .from_reader(alloc, bytes)
}

/// Takes the next record, and says whether there is one. `Err` where there was no memory; the reader has
/// failed then, and isn't to be used behind it, since it would say that there is no record. The settings
/// leave no other cause to refuse a record: any number of fields is taken, no text is asked for, and the
/// reader underneath is of bytes in memory.
pub fn next_row(reader: &mut Reader<&[u8]>, row: &mut ByteRecord) -> Result<bool, AllocError>
    requires { IsReading reader.old }
    ensures reading { IfOk result (λ found. found ≡ true → IsReading reader.new) }
    ensures row { IfOk result (λ found.
        MatchBool found (left reader.old ≡ fields_of row.new ∷ left reader.new)
        (left reader.old ≡ [])) }
    ensures err { OnErr result (has_failed reader.new ≡ true) }
{
    match reader.read_byte_record(row) {
        Ok(found) => Ok(found),
        Err(error) => {
            prove!(matches!(error.kind(), ErrorKind::OutOfMemory | ErrorKind::Io(_)));
            Err(AllocError)
        }
    }
}

/// How many rows a list begins with room for: one for ten bytes of the file, which is about the
/// shortest row, and at most these and one. So the list seldom grows, and no byte is looked at.
pub fn room_for(bytes: &[u8], most: u32) -> usize
    ensures room { result ≡ min (length bytes.now / short_row) (most + 1) }
    ensures most { result ≤ most + 1 }
{
    let all = most as usize + 1;
    (bytes.len() / SHORT_ROW).min(all)
}

// Printing the rows of a log of links.
ghost use Rattle.std.specs.Prelude.{◌≡◌, ◌≤◌, ◌++◌, OnErr, OnOk, drop, length};
ghost use Rattle.aeth_audit.specs.Lines.{line_room, row_line};

use crate::row::LinkRow;
use aeth_base::NoMemory;
use aeth_text::write_field;

/// The most bytes of a line of a row.
const LINE_ROOM: usize = 105;

// Writes the line of a row at the end of its room, and gives the place at which it begins.
fn write_row(line: &mut [u8], row: &LinkRow) -> usize
    requires { length line.old ≡ line_room }
    ensures written { drop result line.new ≡ row_line row.now }
    ensures within { result ≤ length line.new }
{
    let at = write_field(line, row.flit.second as u64, b'\n', LINE_ROOM);
    let at = write_field(line, row.flit.first as u64, b',', at);
    let at = write_field(line, row.flit.header as u64, b',', at);
    let at = write_field(line, row.link.0 as u64, b',', at);
    write_field(line, row.cycle as u64, b',', at)
}

/// Appends the line of a row: its cycle, its link, and the three words of its flit. Where memory is
/// wanting the text stays as it was.
pub fn push_row(text: &mut Vec<u8>, row: &LinkRow) -> Result<(), NoMemory>
    ensures ok { OnOk result (text.new.items ≡ text.old.items ++ row_line row.now) }
    ensures err { OnErr result (text.new.items ≡ text.old.items) }
{
    let mut line = [0; LINE_ROOM];
    let start = write_row(&mut line, row);
    text.extend_from_slice(&line[start..])?;
    Ok(())
}

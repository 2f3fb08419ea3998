// The lines of tables.
ghost use Rattle.aeth_tables.specs.Lines.{entry_line, head_line, queue_line};
ghost use Rattle.aeth_tables.specs.Lines.{numbers_words, promise_words};
ghost use Rattle.aeth_text.specs.Spelling.{ended_line};
ghost use Rattle.std.specs.Prelude.{◌≡◌, ◌++◌, OnOk};

use crate::promised::PromisedRow;
use aeth_base::{NoMemory, push_number};
use aeth_ni::ChannelRow;
use aeth_text::push_side;

/// Appends the first line.
#[tactic(auto, unfolding(crate::specs::Lines::head_line))]
pub(crate) fn push_head(out: &mut Vec<u8>, name: &[u8]) -> Result<(), NoMemory>
    ensures { OnOk result (out.new.items ≡ out.old.items ++ ended_line (head_line name.now)) }
{
    out.extend_from_slice(b"tables 1 ")?;
    out.extend_from_slice(name)?;
    out.push(b'\n')?;
    Ok(())
}

/// Appends the line of an entry.
#[tactic(auto, unfolding(crate::specs::Lines::entry_line))]
pub(crate) fn push_entry(
    out: &mut Vec<u8>,
    name: &[u8],
    slot: u32,
    queue: u8,
) -> Result<(), NoMemory>
    ensures { OnOk result (out.new.items
        ≡ out.old.items ++ ended_line (entry_line name.now slot queue)) }
{
    out.extend_from_slice(b"entry ")?;
    out.extend_from_slice(name)?;
    out.push(b' ')?;
    push_number(out, slot as u64)?;
    out.push(b' ')?;
    push_number(out, queue as u64)?;
    out.push(b'\n')?;
    Ok(())
}

/// Appends the numbers of a row.
fn push_numbers(out: &mut Vec<u8>, row: &ChannelRow) -> Result<(), NoMemory>
    ensures { OnOk result (out.new.items ≡ out.old.items ++ numbers_words row.now) }
{
    push_number(out, row.queue as u64)?;
    out.push(b' ')?;
    push_number(out, row.route as u64)?;
    out.push(b' ')?;
    push_number(out, row.remote as u64)?;
    out.push(b' ')?;
    push_number(out, row.credits as u64)
}

/// Appends the channel of a row, with what it is promised.
fn push_promise(out: &mut Vec<u8>, conn: &[u8], one: &PromisedRow) -> Result<(), NoMemory>
    ensures { OnOk result (out.new.items ≡ out.old.items ++ promise_words conn.now one.now) }
{
    out.extend_from_slice(conn)?;
    out.push(b' ')?;
    push_side(out, one.row.channel.side)?;
    out.push(b' ')?;
    push_number(out, one.rate as u64)?;
    out.push(b' ')?;
    push_number(out, one.latency as u64)
}

/// Appends the line of a queue.
#[tactic(auto, unfolding(crate::specs::Lines::queue_line))]
pub(crate) fn push_queue(
    out: &mut Vec<u8>,
    name: &[u8],
    conn: &[u8],
    one: &PromisedRow,
) -> Result<(), NoMemory>
    ensures { OnOk result (out.new.items
        ≡ out.old.items ++ ended_line (queue_line name.now conn.now one.now)) }
{
    out.extend_from_slice(b"queue ")?;
    out.extend_from_slice(name)?;
    out.push(b' ')?;
    push_numbers(out, &one.row)?;
    out.push(b' ')?;
    push_promise(out, conn, one)?;
    out.push(b'\n')?;
    Ok(())
}

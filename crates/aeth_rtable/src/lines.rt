// The lines of router tables.
ghost use Rattle.aeth_rtable.specs.RouteText.{head_line, hop_line, numbers_words};
ghost use Rattle.aeth_text.specs.Spelling.{ended_line};
ghost use Rattle.std.specs.Prelude.{◌≡◌, ◌++◌, OnOk};

use aeth_base::{NoMemory, push_number};
use aeth_router::RouterRow;

/// Appends the first line.
#[tactic(auto, unfolding(crate::specs::RouteText::head_line))]
pub(crate) fn push_head(out: &mut Vec<u8>, name: &[u8]) -> Result<(), NoMemory>
    ensures { OnOk result (out.new.items ≡ out.old.items ++ ended_line (head_line name.now)) }
{
    out.extend_from_slice(b"routes 1 ")?;
    out.extend_from_slice(name)?;
    out.push(b'\n')?;
    Ok(())
}

/// Appends the numbers of a row.
fn push_numbers(out: &mut Vec<u8>, row: &RouterRow) -> Result<(), NoMemory>
    ensures { OnOk result (out.new.items ≡ out.old.items ++ numbers_words row.now) }
{
    push_number(out, row.router.0 as u64)?;
    out.push(b' ')?;
    push_number(out, row.port as u64)?;
    out.push(b' ')?;
    push_number(out, row.slot as u64)?;
    out.push(b' ')?;
    push_number(out, row.from.0 as u64)
}

/// Appends the line of a row.
#[tactic(auto, unfolding(crate::specs::RouteText::hop_line))]
pub(crate) fn push_hop(out: &mut Vec<u8>, row: &RouterRow) -> Result<(), NoMemory>
    ensures { OnOk result (out.new.items ≡ out.old.items ++ ended_line (hop_line row.now)) }
{
    out.extend_from_slice(b"hop ")?;
    push_numbers(out, row)?;
    out.push(b'\n')?;
    Ok(())
}

// The rules on the rows of a log of links, once they are read.
ghost use Rattle.std.specs.Prelude.{◌≡◌, ◌+◌, true, None, IfOk, map};
ghost use Rattle.std.specs.Option.{option_map_or};
ghost use Rattle.aeth_base.specs.Faults.{Reads};
ghost use Rattle.aeth_trace.specs.Rules.{are_known};
ghost use Rattle.aeth_audit.specs.Fault.{rule_of};
ghost use Rattle.aeth_audit.specs.LinkLog.{are_few_rows, are_later, is_before, is_later};

use crate::fault::LogFault;
use crate::log::MAX_LINK_ROWS;
use crate::row::LinkRow;
use aeth_base::{LinkId, NoMemory};

// The number of the row after this one. A file whose rows can't be counted so has no room.
fn next_number(row: u32) -> Result<u32, NoMemory>
    ensures { IfOk result (λ next. next ≡ row + 1) }
{
    match row.checked_add(1) {
        Some(next) => Ok(next),
        None => Err(NoMemory),
    }
}

/// Judges that each row is on one of so many links.
pub(crate) fn judge_known(rows: &[LinkRow], links: u32) -> Result<(), LogFault>
    ensures { Reads rule_of (λ u. u) result
        (are_known 2 links 1 (map (λ row. row.link.0) rows.now)) }
{
    let mut number = 1;
    for row in rows {
        if row.link.0 >= links {
            return Err(LogFault::Unknown {
                row: number,
                field: 2,
            });
        }
        number = next_number(number)?;
    }
    Ok(())
}

// Whether a row comes before those of a link in a cycle.
fn is_before(cycle: u64, link: LinkId, row: &LinkRow) -> bool
    ensures { result ≡ is_before cycle link.0 row.now }
{
    let at = row.cycle as u64;
    at < cycle || (at == cycle && row.link.0 < link.0)
}

// Whether a row comes later than the one before it, if there is one.
fn comes_later(before: &Option<LinkRow>, row: &LinkRow) -> bool
    ensures { result ≡ option_map_or (λ last. is_later last row.now) before.now true }
{
    match before {
        None => true,
        Some(last) => is_before(row.cycle as u64, row.link, last),
    }
}

/// Judges that each row comes later than the one before it.
pub(crate) fn judge_order(rows: &[LinkRow]) -> Result<(), LogFault>
    ensures { Reads rule_of (λ u. u) result (are_later None 1 rows.now) }
{
    let mut before = None;
    let mut number = 1;
    for row in rows {
        if !comes_later(&before, row) {
            return Err(LogFault::OutOfOrder {
                row: number,
                cycle: row.cycle,
            });
        }
        before = Some(*row);
        number = next_number(number)?;
    }
    Ok(())
}

/// Judges that there aren't too many rows.
pub(crate) fn judge_count(rows: usize) -> Result<(), LogFault>
    ensures { Reads rule_of (λ u. u) result (are_few_rows rows) }
{
    if rows <= MAX_LINK_ROWS as usize {
        return Ok(());
    }
    match u32::try_from(rows) {
        Ok(rows) => Err(LogFault::TooMany { rows }),
        Err(_) => Err(LogFault::Memory),
    }
}

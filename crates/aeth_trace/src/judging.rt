// The rules that all trace files have, once their rows are read.
ghost use Rattle.std.specs.Prelude.{◌≡◌, ◌+◌, map, IfErr, IfOk};
ghost use Rattle.aeth_base.specs.Faults.{Reads};
ghost use Rattle.aeth_trace.specs.Fault.{rule_of};
ghost use Rattle.aeth_trace.specs.Rules.{are_few, are_in_order, are_known};
ghost use Rattle.aeth_trace.specs.SwitchFaults.{IsPlain};

use crate::fault::TraceFault;
use crate::row::Row;
use aeth_base::NoMemory;

// The number of the row after this one. A file whose rows can't be counted so has no room.
pub(crate) fn next_row_number(row: u32) -> Result<u32, NoMemory>
    ensures { IfOk result (λ next. next ≡ row + 1) }
{
    match row.checked_add(1) {
        Some(next) => Ok(next),
        None => Err(NoMemory),
    }
}

// Judges that each row names one of so many things, in this field.
pub(crate) fn judge_known<R: Row>(rows: &[R], field: u32, count: u32) -> Result<(), TraceFault>
    ensures reads { Reads rule_of (λ u. u) result (are_known field count 1 (map R.names rows.now)) }
    ensures plain { IfErr result IsPlain }
{
    let mut number = 1;
    for row in rows {
        if row.named() >= count {
            return Err(TraceFault::Unknown { row: number, field });
        }
        number = next_row_number(number)?;
    }
    Ok(())
}

// Judges that no row's cycle is less than that of the row before.
pub(crate) fn judge_order<R: Row>(rows: &[R]) -> Result<(), TraceFault>
    ensures reads { Reads rule_of (λ u. u) result (are_in_order 0 1 (map R.at rows.now)) }
    ensures plain { IfErr result IsPlain }
{
    let mut last = 0;
    let mut number = 1;
    for row in rows {
        let cycle = row.cycle();
        if cycle < last {
            return Err(TraceFault::OutOfOrder { row: number, cycle });
        }
        last = cycle;
        number = next_row_number(number)?;
    }
    Ok(())
}

// Judges that there are at most so many rows.
pub(crate) fn judge_count(rows: usize, most: u32) -> Result<(), TraceFault>
    ensures reads { Reads rule_of (λ u. u) result (are_few most rows) }
    ensures plain { IfErr result IsPlain }
{
    if rows <= most as usize {
        return Ok(());
    }
    match u32::try_from(rows) {
        Ok(rows) => Err(TraceFault::TooMany { rows }),
        Err(_) => Err(TraceFault::Memory),
    }
}

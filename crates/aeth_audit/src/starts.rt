// How many rows of a log come before each cycle.
ghost use Rattle.std.specs.Prelude.{◌≡◌, ◌≤◌, ◌<◌, ◌^◌, IfOk, length};
ghost use Rattle.aeth_text.specs.Order.{Rises};
ghost use Rattle.aeth_audit.specs.Limits.{max_link_rows};
ghost use Rattle.aeth_audit.specs.LinkLog.{is_later};
ghost use Rattle.aeth_audit.specs.Starts.{AreIndexed, AreStarts, IsStart, PutsUntil};

use crate::row::LinkRow;
use aeth_base::NoMemory;
use std::alloc::Global;

/// The rows of a log, and how many of them come before each cycle.
#[derive(Clone, Copy)]
pub(crate) struct IndexedRows<'a> {
    pub rows: &'a [LinkRow],
    pub starts: &'a [u32],
}

// How many cycles there are up to that of the last row.
fn cycles_of(rows: &[LinkRow]) -> usize {
    match rows.last() {
        None => 0,
        Some(row) => row.cycle as usize + 1,
    }
}

// Puts a number for each cycle up to this one that has none.
fn put_until(starts: &mut Vec<u32>, cycle: u32, number: u32) -> Result<(), NoMemory>
    ensures { IfOk result (λ _. PutsUntil cycle number starts.old.items starts.new.items) }
{
    'cycles: while starts.len() <= cycle as usize {
        starts.push(number)?;
    }
    Ok(())
}

/// How many rows come before each cycle, up to that of the last row.
pub(crate) fn starts_of(alloc: Global, rows: &[LinkRow]) -> Result<Vec<u32>, NoMemory>
    requires rises { Rises is_later rows.now }
    requires few { length rows.now ≤ max_link_rows }
    ensures { IfOk result (λ starts. AreStarts rows.now starts.items) }
{
    let mut starts = Vec::with_capacity(alloc, cycles_of(rows))?;
    let mut number = 0;
    for row in rows {
        put_until(&mut starts, row.cycle, number)?;
        number += 1;
    }
    Ok(starts)
}

/// How many rows come before a cycle.
pub(crate) fn start_at(log: &IndexedRows, cycle: u64) -> usize
    requires { AreIndexed log.now }
    ensures { IsStart log.now.rows.now cycle result }
{
    match log.starts.get(cycle as usize) {
        None => log.rows.len(),
        Some(start) => *start as usize,
    }
}

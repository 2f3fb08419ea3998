// Rows that enter use cases.

ghost use Rattle.std.specs.Prelude.{IfOk, IsTrue, Contains, ◌↔◌};
ghost use Rattle.aeth_scheduling.specs.Entered.{AreUsesOf};

use aeth_base::{NoMemory, UseId};
use aeth_trace::SwitchRow;
use std::alloc::Global;

// A row, the rows that follow it, and the use cases that rows enter.
#[derive(Clone, Copy)]
pub(crate) struct Entering<'a> {
    pub row: &'a SwitchRow,
    pub later: &'a [SwitchRow],
    pub entered: &'a [UseId],
}

// The use cases that rows enter.
pub(crate) fn uses_of(alloc: Global, rows: &[SwitchRow]) -> Result<Vec<UseId>, NoMemory>
    ensures { IfOk result (λ entered. AreUsesOf rows.now entered.items) }
{
    let mut entered = Vec::new(alloc);
    for row in rows {
        if !is_among(&entered, row.to) {
            entered.push(row.to)?;
        }
    }
    Ok(entered)
}

// Whether a use case is one of these.
fn is_among(entered: &[UseId], u: UseId) -> bool
    ensures { IsTrue result ↔ Contains entered.now u }
{
    entered.iter().any(|one| one.0 == u.0)
}

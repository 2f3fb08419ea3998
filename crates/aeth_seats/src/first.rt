// The seats before any path is chosen.
ghost use Rattle.std.specs.Prelude.{◌≡◌, ◌≤◌, IfOk, length};
ghost use Rattle.aeth_app.specs.Limits.{max_cores};
ghost use Rattle.aeth_chip.specs.Limits.{max_nis};
ghost use Rattle.aeth_seats.specs.First.{AreKnown, first_places, fixed_of};

use crate::table::Table;
use aeth_app::App;
use aeth_base::{CoreId, NiId, NoMemory};
use aeth_chip::Chip;
use std::alloc::Global;

/// The interface to which each core is fixed, if it is.
pub(crate) fn fixed_of(alloc: Global, app: &App) -> Result<Vec<Option<NiId>>, NoMemory>
    ensures fixed { IfOk result (λ fixed. fixed.items ≡ fixed_of app.now) }
    ensures few { IfOk result (λ fixed. length fixed.items ≤ max_cores) }
{
    let mut fixed = Vec::new(alloc);
    for core in 0..app.cores() {
        fixed.push(app.core(CoreId(core)).fixed)?;
    }
    Ok(fixed)
}

/// The table in which the fixed cores are seated, in file order.
pub(crate) fn table_of(
    alloc: Global,
    chip: &Chip,
    fixed: &[Option<NiId>],
) -> Result<Table, NoMemory>
    requires cores { length fixed.now ≤ max_cores }
    requires known { AreKnown (length chip.now.nis) fixed.now }
    ensures table { IfOk result (λ table. table
        ≡ record { nis = length chip.now.nis; places = first_places fixed.now }) }
    ensures few { IfOk result (λ table. table.nis ≤ max_nis) }
{
    let mut table = Table::new(alloc, chip.nis(), fixed.len() as u32)?;
    for (core, to) in fixed.iter().enumerate() {
        if let Some(ni) = to {
            table.place(CoreId(core as u32), *ni);
        }
    }
    Ok(table)
}

// The use cases of each group.
ghost use Rattle.std.specs.Prelude.{◌≡◌, ◌<◌, ◌≤◌, IfOk, length, slice_get};
ghost use Rattle.aeth_app.specs.Limits.{max_uses};
ghost use Rattle.aeth_group.specs.Members.{group_in};
ghost use Rattle.aeth_group.specs.Rows.{AreRows, uses_among};

use crate::use_group::UseGroup;
use aeth_base::NoMemory;
use std::alloc::Global;

/// For each of so many groups its use cases.
pub(crate) fn rows_of(
    alloc: Global,
    uses: &[UseGroup],
    count: u32,
) -> Result<Vec<Vec<u32>>, NoMemory>
    requires { length uses.now ≤ max_uses }
    ensures { IfOk result (λ rows. AreRows uses.now count rows.items) }
{
    let mut rows = Vec::new(alloc);
    for group in 0..count {
        rows.push(row_of(alloc, uses, group)?)?;
    }
    Ok(rows)
}

// The use cases of a group.
fn row_of(alloc: Global, uses: &[UseGroup], group: u32) -> Result<Vec<u32>, NoMemory>
    requires { length uses.now ≤ max_uses }
    ensures { IfOk result (λ row. row.items ≡ uses_among uses.now group) }
{
    let mut row = Vec::new(alloc);
    for u in 0..uses.len() as u32 {
        if group_in(uses, u) == group {
            row.push(u)?;
        }
    }
    Ok(row)
}

// The group of a use case.
fn group_in(uses: &[UseGroup], u: u32) -> u32
    requires { u < length uses.now }
    ensures { result ≡ group_in (slice_get uses.now u) }
{
    let one = &uses[u as usize];
    one.group
}

// The writes of a switch.
ghost use Rattle.aeth_ni.specs.Program.{closing_writes, opening_writes, program_of};
ghost use Rattle.aeth_ni.specs.declared.write.Write.TheVariants.{ClearSlot, SetSlot};
ghost use Rattle.std.specs.Prelude.{◌≡◌, ◌++◌, IfOk, OnOk, flat_map, map};

use aeth_base::NoMemory;
use aeth_ni::{ChannelRow, Write};
use std::alloc::Global;

// Appends a write for each slot of a channel, which clears it.
fn push_clears(writes: &mut Vec<Write>, row: &ChannelRow) -> Result<(), NoMemory>
    ensures { OnOk result (writes.new.items
        ≡ writes.old.items ++ map (λ slot. ClearSlot row.now.ni slot) row.now.slots.slots) }
{
    let mut slots = row.slots.iter();
    'slots: while let Some(slot) = slots.next() {
        writes.push(Write::ClearSlot { ni: row.ni, slot })?;
    }
    Ok(())
}

// Appends the writes that close a channel.
fn push_closing(writes: &mut Vec<Write>, row: &ChannelRow) -> Result<(), NoMemory>
    ensures { OnOk result (writes.new.items ≡ writes.old.items ++ closing_writes row.now) }
{
    push_clears(writes, row)?;
    writes.push(Write::ClearRoute {
        ni: row.ni,
        queue: row.queue,
    })?;
    Ok(())
}

// Appends a write for each slot of a channel, which sets it.
fn push_sets(writes: &mut Vec<Write>, row: &ChannelRow) -> Result<(), NoMemory>
    ensures { OnOk result (writes.new.items ≡ writes.old.items
        ++ map (λ slot. SetSlot row.now.ni slot row.now.queue) row.now.slots.slots) }
{
    let mut slots = row.slots.iter();
    'slots: while let Some(slot) = slots.next() {
        writes.push(Write::SetSlot {
            ni: row.ni,
            slot,
            queue: row.queue,
        })?;
    }
    Ok(())
}

// Appends the writes that open a channel.
fn push_opening(writes: &mut Vec<Write>, row: &ChannelRow) -> Result<(), NoMemory>
    ensures { OnOk result (writes.new.items ≡ writes.old.items ++ opening_writes row.now) }
{
    writes.push(Write::SetRoute {
        ni: row.ni,
        queue: row.queue,
        route: row.route,
        remote: row.remote,
        credits: row.credits,
    })?;
    push_sets(writes, row)
}

// Appends the writes that close channels.
fn push_all_closing(writes: &mut Vec<Write>, rows: &[ChannelRow]) -> Result<(), NoMemory>
    ensures { OnOk result (writes.new.items ≡ writes.old.items ++ flat_map closing_writes rows.now) }
{
    for row in rows {
        push_closing(writes, row)?;
    }
    Ok(())
}

// Appends the writes that open channels.
fn push_all_opening(writes: &mut Vec<Write>, rows: &[ChannelRow]) -> Result<(), NoMemory>
    ensures { OnOk result (writes.new.items ≡ writes.old.items ++ flat_map opening_writes rows.now) }
{
    for row in rows {
        push_opening(writes, row)?;
    }
    Ok(())
}

/// The writes that bring the tables of all interfaces from one use case to another, in their order:
/// each channel that closes is cleared slot by slot, and then its route; then for each channel that
/// opens the route is set, and then slot by slot. One write is made in a cycle. `Err` where there was
/// no memory.
pub fn program(
    alloc: Global,
    closing: &[ChannelRow],
    opening: &[ChannelRow],
) -> Result<Vec<Write>, NoMemory>
    ensures { IfOk result (λ writes. writes.items ≡ program_of closing.now opening.now) }
{
    let mut writes = Vec::new(alloc);
    push_all_closing(&mut writes, closing)?;
    push_all_opening(&mut writes, opening)?;
    Ok(writes)
}

// The lines of entries, in the order of interfaces and slots.
ghost use Rattle.aeth_base.specs.Limits.{max_slots};
ghost use Rattle.aeth_slots.specs.SlotSet.{has_slot};
ghost use Rattle.aeth_tables.specs.TableText.{HasTableOf, entries_with, lines_of_slot, list_at};
ghost use Rattle.aeth_tables.specs.TableText.{listed_entries};
ghost use Rattle.aeth_text.specs.Spelling.{text_of_lines};
ghost use Rattle.std.specs.List.{list_any};
ghost use Rattle.std.specs.Prelude.{◌≡◌, ◌<◌, ◌≤◌, ◌++◌, ℕ, All, OnOk, length};

use crate::lines::push_entry;
use crate::promised::PromisedRow;
use aeth_base::{NiId, NoMemory};
use aeth_chip::Chip;
use aeth_slots::SlotSet;

/// Appends the lines of a slot of an interface that has this name, of its rows.
fn push_slot(
    out: &mut Vec<u8>,
    name: &[u8],
    rows: &[PromisedRow],
    slot: u32,
) -> Result<(), NoMemory>
    requires { All (λ one. slot < one.row.slots.size) rows.now }
    ensures { OnOk result (out.new.items
        ≡ out.old.items ++ text_of_lines (lines_of_slot name.now rows.now slot)) }
{
    for one in rows {
        if one.row.slots.has(slot) {
            push_entry(out, name, slot, one.row.queue)?;
        }
    }
    Ok(())
}

/// The slots of a table of this size that some of the rows have.
fn taken_by(rows: &[PromisedRow], size: u32) -> SlotSet
    requires some { 1 ≤ size }
    requires within { size ≤ max_slots }
    requires rows { All (λ one. one.row.slots.size ≡ size) rows.now }
    ensures size { result.size ≡ size }
    ensures taken { (slot : ℕ) → slot < size
        → has_slot result slot ≡ list_any (λ one. has_slot one.row.slots slot) rows.now }
{
    let mut taken = SlotSet::empty(size);
    for one in rows {
        taken = taken.join(&one.row.slots);
    }
    taken
}

/// Appends the lines of the entries of an interface that has these rows. A slot that none of them has
/// is passed over.
fn push_entries_at(
    out: &mut Vec<u8>,
    chip: &Chip,
    own: &[PromisedRow],
    ni: NiId,
) -> Result<(), NoMemory>
    requires ni { ni.0 < length chip.now.nis }
    requires rows { All (HasTableOf chip.now) own.now }
    ensures { OnOk result (out.new.items
        ≡ out.old.items ++ text_of_lines (entries_with chip.now own.now ni.0)) }
{
    let name = chip.ni_name(ni);
    let taken = taken_by(own, chip.slots());
    for slot in 0..chip.slots() {
        if taken.has(slot) {
            push_slot(out, name.as_bytes(), own, slot)?;
        }
    }
    Ok(())
}

/// Appends the lines of all entries, of interfaces that have these lists of rows.
pub(crate) fn push_entries(
    out: &mut Vec<u8>,
    chip: &Chip,
    lists: &[Vec<PromisedRow>],
) -> Result<(), NoMemory>
    requires count { length lists.now ≡ length chip.now.nis }
    requires rows { (ni : ℕ) → ni < length chip.now.nis → All (HasTableOf chip.now) (list_at lists.now ni) }
    ensures { OnOk result (out.new.items
        ≡ out.old.items ++ text_of_lines (listed_entries chip.now lists.now)) }
{
    for ni in 0..chip.nis() {
        push_entries_at(out, chip, &lists[ni as usize], NiId(ni))?;
    }
    Ok(())
}

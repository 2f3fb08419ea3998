// The slots that the grants of a try take from it: a mask for each link, by the definition of
// occupation.
ghost use Rattle.std.specs.Prelude.{◌≡◌, ◌≤◌, ◌*◌, ◌+◌, [], true, All, IfOk, length, take};
ghost use Rattle.aeth_app.specs.Limits.{max_uses};
ghost use Rattle.aeth_book.specs.Book.{IsFit};
ghost use Rattle.aeth_book.specs.Free.{is_rival};
ghost use Rattle.aeth_chip.specs.Chip.{IsChip};
ghost use Rattle.aeth_explain.specs.Masks.{AreTaken, is_held};
ghost use Rattle.aeth_explain.specs.SlotTables.{AreTables};
ghost use Rattle.aeth_group.specs.Tables.{Changes, HasTable, IsTable, hits_row};
ghost use Rattle.aeth_paths.specs.Trials.{IsTrialOf, book_of};

use crate::slot_tables::SlotTables;
use aeth_base::{NoMemory, Unit};
use aeth_chip::Chip;
use aeth_group::{Grant, Groups};
use aeth_paths::Trial;
use aeth_slots::SlotSet;
use std::alloc::Global;

/// So many rows with a mask without slots for each link.
pub(crate) fn no_masks(alloc: Global, chip: &Chip, rows: u32) -> Result<Vec<SlotSet>, NoMemory>
    requires { rows ≤ max_uses }
    ensures count { IfOk result (λ masks. length masks.items ≡ rows * length chip.now.links) }
    ensures empty { IfOk result (λ masks.
        All (λ mask. mask ≡ record { size = chip.now.slots; slots = [] }) masks.items) }
{
    let count = rows * chip.links();
    let masks = vec![in alloc; SlotSet::empty(chip.slots()); count as usize]?;
    Ok(masks)
}

/// Puts the slots that flits of a grant take into the masks of its links, in one row of a table.
pub(crate) fn put(chip: &Chip, row: u32, grant: &Grant, masks: &mut [SlotSet])
    requires row { row * length chip.now.links + length chip.now.links ≤ length masks.old }
    requires chip { IsChip chip.now }
    requires grant { IsFit chip.now.slots (length chip.now.links) grant.now }
    requires table { HasTable chip.now.slots (length chip.now.links) masks.old }
    ensures { Changes chip.now.slots (length chip.now.links)
        (hits_row grant.now.slots chip.now.links row grant.now.path) true masks.old masks.new }
{
    for i in 0..grant.path.len() {
        let link = grant.path.link(i);
        let at = row as usize * chip.links() as usize + link.0 as usize;
        let slots = grant.slots.rotate(chip.offset(&grant.path, i));
        masks[at] = masks[at].join(&slots);
    }
}

/// Whether a grant must not meet one of the unit: one use case of its group has both.
fn is_rival(groups: &Groups, unit: Unit, grant: &Grant) -> bool
    ensures { result ≡ is_rival groups.now unit grant.now }
{
    grant.unit.group.0 == unit.group.0 && groups.together(unit.group, grant.unit.conn, unit.conn)
}

/// Puts the slots of those grants from one on into masks that rival the unit, where those of the grants before it are
/// in.
fn put_rivals(
    chip: &Chip,
    groups: &Groups,
    unit: Unit,
    grants: &[Grant],
    from: usize,
    masks: &mut [SlotSet],
)
    requires count { length masks.old ≡ length chip.now.links }
    requires chip { IsChip chip.now }
    requires grants { All (IsFit chip.now.slots (length chip.now.links)) grants.now }
    requires from { from ≤ length grants.now }
    requires table { IsTable chip.now.slots (length chip.now.links)
        (is_held chip.now.links groups.now unit (take from grants.now)) masks.old }
    ensures count { length masks.new ≡ length chip.now.links }
    ensures table { IsTable chip.now.slots (length chip.now.links)
        (is_held chip.now.links groups.now unit grants.now) masks.new }
{
    for i in from..grants.len() {
        let grant = &grants[i];
        if is_rival(groups, unit, grant) {
            put(chip, 0, grant, masks);
        }
    }
}

/// The slots of each link that rivals of the try take. `Err` where there was no memory.
pub(crate) fn taken_masks(
    alloc: Global,
    chip: &Chip,
    groups: &Groups,
    trial: &Trial,
) -> Result<Vec<SlotSet>, NoMemory>
    requires { IsTrialOf chip.now trial.now }
    ensures { IfOk result (λ masks.
        AreTaken (book_of chip.now groups.now trial.now) trial.now.ask.unit masks.items) }
{
    let _slots = chip.slots();
    let mut masks = no_masks(alloc, chip, 1)?;
    put_rivals(
        chip,
        groups,
        trial.ask().unit,
        trial.grants(),
        0,
        &mut masks,
    );
    Ok(masks)
}

/// The same beside tables that have the first of the try's grants.
pub(crate) fn taken_beside(
    alloc: Global,
    chip: &Chip,
    groups: &Groups,
    tables: &SlotTables,
    trial: &Trial,
) -> Result<Vec<SlotSet>, NoMemory>
    requires trial { IsTrialOf chip.now trial.now }
    requires tables { AreTables chip.now groups.now trial.now.grants tables.now }
    ensures { IfOk result (λ masks.
        AreTaken (book_of chip.now groups.now trial.now) trial.now.ask.unit masks.items) }
{
    let _slots = chip.slots();
    let unit = trial.ask().unit;
    let mut masks = tables.taken(alloc, chip, groups, unit)?;
    put_rivals(
        chip,
        groups,
        unit,
        trial.grants(),
        tables.count(),
        &mut masks,
    );
    Ok(masks)
}

// A mask for each use case and link: the slots that grants occupy there.
ghost use Rattle.aeth_check.specs.Calls.{IsPlaced};
ghost use Rattle.aeth_check.specs.Masks.{AreTaken};
ghost use Rattle.aeth_group.specs.Tables.{Changes, HasTable, IsTable, hits_row, hits_uses};
ghost use Rattle.aeth_check.specs.Meetings.{meets, touches};
ghost use Rattle.aeth_slots.specs.SlotSet.{common};
ghost use Rattle.std.specs.Prelude.{◌≡◌, ◌<◌, ◌≤◌, ◌+◌, ◌*◌, [], ℕ, Bool, true, All, IfOk};
ghost use Rattle.std.specs.Prelude.{length, nat_lt, slice_get, Some};

use aeth_base::{MAX_PATH_LINKS, NoMemory, UseId};
use aeth_chip::Chip;
use aeth_group::{Grant, Groups};
use aeth_slots::SlotSet;
use std::alloc::Global;

/// A mask without slots for each use case and link, row by row.
pub(crate) fn no_masks(
    alloc: Global,
    chip: &Chip,
    groups: &Groups,
) -> Result<Vec<SlotSet>, NoMemory>
    ensures rows { IfOk result (λ masks.
        length masks.items ≡ length groups.now.uses * length chip.now.links) }
    ensures empty { IfOk result (λ masks.
        All (λ mask. mask ≡ record { size = chip.now.slots; slots = [] }) masks.items) }
{
    let count = groups.uses() * chip.links();
    let masks = vec![in alloc; SlotSet::empty(chip.slots()); count as usize]?;
    Ok(masks)
}

/// A set for each link of a path, of slots that flits take.
pub(crate) type LinkSets = [SlotSet; MAX_PATH_LINKS as usize];

/// Puts the slots that flits of a grant take into the sets, one for each link of its path.
pub(crate) fn take(chip: &Chip, grant: &Grant, sets: &mut LinkSets)
    requires { IsPlaced chip.now grant.now }
    ensures { AreTaken chip.now.links grant.now sets.new }
{
    let mut offset = 0;
    for i in 0..grant.path.len() {
        let link = grant.path.link(i);
        sets[i as usize] = grant.slots.rotate(offset);
        offset += chip.link(link).delay;
    }
}

/// The slots that flits of a grant take, one set for each link of its path.
pub(crate) fn taken(chip: &Chip, grant: &Grant) -> LinkSets
    requires { IsPlaced chip.now grant.now }
    ensures { AreTaken chip.now.links grant.now result }
{
    let mut sets = [grant.slots; MAX_PATH_LINKS as usize];
    take(chip, grant, &mut sets);
    sets
}

/// The set of a link of the path.
fn taken_at(sets: &[SlotSet], i: u32) -> SlotSet
    requires { i < length sets.now }
    ensures { slice_get sets.now i ≡ Some result }
{
    sets[i as usize]
}

/// Whether two sets have a slot in common.
fn have_common(mask: &SlotSet, other: &SlotSet) -> bool
    requires { mask.now.size ≡ other.now.size }
    ensures { result ≡ nat_lt 0 (length (common mask.now other.now).slots) }
{
    mask.meet(other).count() > 0
}

/// Whether flits of a grant meet the slots of a use case's masks.
fn meets_row(chip: &Chip, u: u32, grant: &Grant, sets: &[SlotSet], masks: &[SlotSet]) -> bool
    requires sets { AreTaken chip.now.links grant.now sets.now }
    requires row { u * length chip.now.links + length chip.now.links ≤ length masks.now }
    requires grant { IsPlaced chip.now grant.now }
    requires table { HasTable chip.now.slots (length chip.now.links) masks.now }
    ensures { (test : ℕ → ℕ → ℕ → Bool)
        → IsTable chip.now.slots (length chip.now.links) test masks.now
        → result ≡ meets (test u) grant.now.slots chip.now.links 0 grant.now.path }
{
    for i in 0..grant.path.len() {
        let link = grant.path.link(i);
        let at = u as usize * chip.links() as usize + link.0 as usize;
        let set = taken_at(sets, i);
        if have_common(&masks[at], &set) {
            return true;
        }
    }
    false
}

/// Whether flits of a grant meet the slots of the masks of its use cases.
pub(crate) fn meets(
    chip: &Chip,
    groups: &Groups,
    grant: &Grant,
    sets: &[SlotSet],
    masks: &[SlotSet],
) -> bool
    requires sets { AreTaken chip.now.links grant.now sets.now }
    requires rows { length masks.now ≡ length groups.now.uses * length chip.now.links }
    requires grant { IsPlaced chip.now grant.now }
    requires table { HasTable chip.now.slots (length chip.now.links) masks.now }
    ensures { (test : ℕ → ℕ → ℕ → Bool)
        → IsTable chip.now.slots (length chip.now.links) test masks.now
        → result ≡ touches chip.now.links groups.now test grant.now }
{
    for u in groups.uses_of(grant.unit.group) {
        if groups.has_unit(UseId(*u), grant.unit) && meets_row(chip, *u, grant, sets, masks) {
            return true;
        }
    }
    false
}

/// Puts the slots that flits of a grant take into the masks of a use case.
fn put_row(chip: &Chip, u: u32, grant: &Grant, sets: &[SlotSet], masks: &mut [SlotSet])
    requires sets { AreTaken chip.now.links grant.now sets.now }
    requires row { u * length chip.now.links + length chip.now.links ≤ length masks.old }
    requires grant { IsPlaced chip.now grant.now }
    requires table { HasTable chip.now.slots (length chip.now.links) masks.old }
    ensures { Changes chip.now.slots (length chip.now.links)
        (hits_row grant.now.slots chip.now.links u grant.now.path) true masks.old masks.new }
{
    for i in 0..grant.path.len() {
        let link = grant.path.link(i);
        let at = u as usize * chip.links() as usize + link.0 as usize;
        let set = taken_at(sets, i);
        masks[at] = masks[at].join(&set);
    }
}

/// Puts the slots that flits of a grant take into the masks of its use cases.
pub(crate) fn put(
    chip: &Chip,
    groups: &Groups,
    grant: &Grant,
    sets: &[SlotSet],
    masks: &mut [SlotSet],
)
    requires sets { AreTaken chip.now.links grant.now sets.now }
    requires rows { length masks.old ≡ length groups.now.uses * length chip.now.links }
    requires grant { IsPlaced chip.now grant.now }
    requires table { HasTable chip.now.slots (length chip.now.links) masks.old }
    ensures { Changes chip.now.slots (length chip.now.links)
        (hits_uses grant.now.slots chip.now.links groups.now grant.now.unit grant.now.path
        (length groups.now.uses)) true masks.old masks.new }
{
    for u in groups.uses_of(grant.unit.group) {
        if groups.has_unit(UseId(*u), grant.unit) {
            put_row(chip, *u, grant, sets, masks);
        }
    }
}

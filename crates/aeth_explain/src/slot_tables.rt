// The slot tables of all use cases, in which grants are put as they come.
ghost use Rattle.std.specs.List.{list_any};
ghost use Rattle.std.specs.Prelude.{◌≡◌, ◌<◌, ◌≤◌, ◌*◌, ◌+◌, ℕ, List, Bool, true, All, IfOk, length, take};
ghost use Rattle.aeth_book.specs.Book.{IsFit};
ghost use Rattle.aeth_book.specs.Free.{uses_with};
ghost use Rattle.aeth_chip.specs.Chip.{IsChip};
ghost use Rattle.aeth_explain.specs.Masks.{is_held};
ghost use Rattle.aeth_explain.specs.SlotTables.{AreTables, is_occupied, taken_by};
ghost use Rattle.aeth_group.specs.Tables.{Changes, HasTable, IsTable, hits_uses};
ghost use Rattle.aeth_group.specs.declared.grant.Grant.{Grant};

use crate::taken::{no_masks, put};
use aeth_base::{NoMemory, Unit, UseId};
use aeth_chip::Chip;
use aeth_group::{Grant, Groups};
use aeth_slots::SlotSet;
use std::alloc::Global;
use std::marker::Model;

/// For each use case and link the slots that grants occupy there: those of the first so many grants of a list.
///
/// The tries of an allocation come in the order of turns, each with the grants before it. So one such table does for
/// all of them: from one try to the next only the grants in between are put in.
#[derive(Drop)]
pub struct SlotTables {
    count: usize,
    masks: Vec<SlotSet>,
}

impl Model for SlotTables {
    ghost use Rattle.aeth_explain.specs.SlotTables.{SlotTablesData};

    ghost Value = { SlotTablesData };

    ghost view = { λ tables. record { count = tables.count; masks = tables.masks.items } };
}

impl SlotTables {
    /// Those of no grant. `Err` where there was no memory.
    pub fn new(alloc: Global, chip: &Chip, groups: &Groups) -> Result<SlotTables, NoMemory>
        ensures count { IfOk result (λ tables. tables.count ≡ 0) }
        ensures tables { IfOk result (λ tables. (grants : List Grant)
            → AreTables chip.now groups.now grants tables) }
    {
        let masks = no_masks(alloc, chip, groups.uses())?;
        Ok(SlotTables { count: 0, masks })
    }

    /// Of how many grants they tell.
    pub(crate) fn count(&self) -> usize
        ensures { result ≡ self.now.count }
    {
        self.count
    }

    /// Puts in what a list of grants has behind those that are in, up to so many.
    pub fn put_up_to(&mut self, chip: &Chip, groups: &Groups, grants: &[Grant], count: usize)
        requires grants { All (IsFit chip.now.slots (length chip.now.links)) grants.now }
        requires tables { AreTables chip.now groups.now grants.now self.old }
        requires more { self.old.count ≤ count }
        requires within { count ≤ length grants.now }
        ensures count { self.new.count ≡ count }
        ensures tables { AreTables chip.now groups.now grants.now self.new }
    {
        let _slots = chip.slots();
        let from = self.count;
        put_grants(chip, groups, &grants[..count], from, &mut self.masks);
        self.count = count;
    }

    /// The slots of each link that grants take which rival a unit. `Err` where there was no memory.
    pub(crate) fn taken(
        &self,
        alloc: Global,
        chip: &Chip,
        groups: &Groups,
        unit: Unit,
    ) -> Result<Vec<SlotSet>, NoMemory>
        requires { (grants : List Grant) × AreTables chip.now groups.now grants self.now }
        ensures count { IfOk result (λ masks. length masks.items ≡ length chip.now.links) }
        ensures table { IfOk result (λ masks. (grants : List Grant)
            → AreTables chip.now groups.now grants self.now
            → IsTable chip.now.slots (length chip.now.links)
            (is_held chip.now.links groups.now unit (take self.now.count grants)) masks.items) }
    {
        let uses = uses_with(alloc, groups, unit)?;
        let masks = joined(alloc, chip, &self.masks, &uses)?;
        Ok(masks)
    }
}

/// Puts the slots that flits of a grant take into the masks of its use cases.
fn put_uses(chip: &Chip, groups: &Groups, grant: &Grant, masks: &mut [SlotSet])
    requires rows { length masks.old ≡ length groups.now.uses * length chip.now.links }
    requires chip { IsChip chip.now }
    requires grant { IsFit chip.now.slots (length chip.now.links) grant.now }
    requires table { HasTable chip.now.slots (length chip.now.links) masks.old }
    ensures { Changes chip.now.slots (length chip.now.links)
        (hits_uses grant.now.slots chip.now.links groups.now grant.now.unit grant.now.path
        (length groups.now.uses)) true masks.old masks.new }
{
    for u in 0..groups.uses() {
        if groups.has_unit(UseId(u), grant.unit) {
            put(chip, u, grant, masks);
        }
    }
}

/// Puts in the grants of a list from one on, where those before it are in.
fn put_grants(chip: &Chip, groups: &Groups, grants: &[Grant], from: usize, masks: &mut [SlotSet])
    requires rows { length masks.old ≡ length groups.now.uses * length chip.now.links }
    requires chip { IsChip chip.now }
    requires grants { All (IsFit chip.now.slots (length chip.now.links)) grants.now }
    requires from { from ≤ length grants.now }
    requires table { IsTable chip.now.slots (length chip.now.links)
        (is_occupied chip.now.links groups.now (take from grants.now)) masks.old }
    ensures rows { length masks.new ≡ length groups.now.uses * length chip.now.links }
    ensures table { IsTable chip.now.slots (length chip.now.links)
        (is_occupied chip.now.links groups.now grants.now) masks.new }
{
    for i in from..grants.len() {
        put_uses(chip, groups, &grants[i], masks);
    }
}

/// The use cases of a unit's group that have its connection.
fn uses_with(alloc: Global, groups: &Groups, unit: Unit) -> Result<Vec<u32>, NoMemory>
    ensures { IfOk result (λ uses. uses.items ≡ uses_with groups.now unit) }
{
    let mut uses = Vec::new(alloc);
    for u in 0..groups.uses() {
        if groups.has_unit(UseId(u), unit) {
            uses.push(u)?;
        }
    }
    Ok(uses)
}

/// The slots of a link that some use cases have.
fn joined_at(chip: &Chip, masks: &[SlotSet], uses: &[u32], link: u32) -> SlotSet
    requires chip { IsChip chip.now }
    requires link { link < length chip.now.links }
    requires rows { All (λ u. u * length chip.now.links + length chip.now.links
        ≤ length masks.now) uses.now }
    requires table { HasTable chip.now.slots (length chip.now.links) masks.now }
    ensures { (test : ℕ → ℕ → ℕ → Bool)
        → IsTable chip.now.slots (length chip.now.links) test masks.now
        → result ≡ taken_by chip.now.slots test uses.now link }
{
    let links = chip.links() as usize;
    let mut slots = SlotSet::empty(chip.slots());
    for i in 0..uses.len() {
        let at = uses[i] as usize * links + link as usize;
        slots = slots.join(&masks[at]);
    }
    slots
}

/// The slots of each link that some use cases have.
fn joined(
    alloc: Global,
    chip: &Chip,
    masks: &[SlotSet],
    uses: &[u32],
) -> Result<Vec<SlotSet>, NoMemory>
    requires rows { All (λ u. u * length chip.now.links + length chip.now.links
        ≤ length masks.now) uses.now }
    requires table { HasTable chip.now.slots (length chip.now.links) masks.now }
    ensures count { IfOk result (λ joined. length joined.items ≡ length chip.now.links) }
    ensures table { IfOk result (λ joined. (test : ℕ → ℕ → ℕ → Bool)
        → IsTable chip.now.slots (length chip.now.links) test masks.now
        → IsTable chip.now.slots (length chip.now.links)
        (λ (v l s : ℕ). list_any (λ u. test u l s) uses.now) joined.items) }
{
    let _slots = chip.slots();
    let mut joined = Vec::with_capacity(alloc, chip.links() as usize)?;
    for link in 0..chip.links() {
        joined.push(joined_at(chip, masks, uses, link))?;
    }
    Ok(joined)
}

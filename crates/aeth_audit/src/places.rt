// Where the flits of a plan's grants enter the links.
ghost use Rattle.std.specs.Prelude.{◌≡◌, ◌<◌, ◌≤◌, ◌+◌, ◌*◌, ◌++◌, ◌%◌, ◌==◌, ℕ, [], ◌∷◌, All};
ghost use Rattle.std.specs.Prelude.{IfOk, length, if◌then◌else◌};
ghost use Rattle.aeth_audit.specs.Places.{Adds, ArePlaces, IsInCell, IsOfGrant, IsPlaced, cell_at};
ghost use Rattle.aeth_audit.specs.declared.places.Place.{Place};

use aeth_base::{LinkId, NoMemory};
use aeth_chip::Chip;
use aeth_group::Grant;
use aeth_slots::SlotSet;
use std::alloc::Global;

/// A place of a grant's path.
#[derive(Clone, Copy)]
pub(crate) struct Place {
    /// The number of the grant in the plan.
    pub grant: usize,
    /// The place of the path, counted from 0.
    pub place: u32,
    /// How many cycles after a flit enters the path it enters the link there.
    pub ahead: u32,
}

/// For each link and slot the places at which flits enter the link in the slot: cell `l * S + s`,
/// where `S` is the size of the slot table, has those of link `l` and slot `s`.
#[derive(Drop)]
pub(crate) struct Places {
    pub slots: u32,
    pub cells: Vec<Vec<Place>>,
}

// So many cells without places.
fn empty_cells(alloc: Global, count: usize) -> Result<Vec<Vec<Place>>, NoMemory>
    ensures size { IfOk result (λ cells. length cells.items ≡ count) }
    ensures empty { IfOk result (λ cells. (n : ℕ) → cell_at cells.items n ≡ []) }
{
    let mut cells = Vec::with_capacity(alloc, count)?;
    for _cell in 0..count {
        cells.push(Vec::new(alloc))?;
    }
    Ok(cells)
}

// Puts a place at the end of a cell.
fn push_at(cells: &mut [Vec<Place>], cell: usize, place: Place) -> Result<(), NoMemory>
    requires { cell < length cells.old }
    ensures size { length cells.new ≡ length cells.old }
    ensures cells { IfOk result (λ _. (n : ℕ) → cell_at cells.new n
        ≡ cell_at cells.old n ++ (if n == cell then place ∷ [] else [])) }
{
    cells[cell].push(place)?;
    Ok(())
}

// Puts a place into the cells of a link whose slots these are, where the cells of the link begin
// here.
fn put_place(
    cells: &mut [Vec<Place>],
    first: usize,
    slots: &SlotSet,
    place: Place,
) -> Result<(), NoMemory>
    requires { first + slots.now.size ≤ length cells.old }
    ensures size { length cells.new ≡ length cells.old }
    ensures adds { IfOk result (λ _. Adds
        (IsInCell first slots.now.slots slots.now.size place) cells.old cells.new) }
{
    for slot in 0..slots.size() {
        if slots.has(slot) {
            push_at(cells, first + slot as usize, place)?;
        }
    }
    Ok(())
}

// Puts the places of a grant's path into their cells.
fn put_grant(
    cells: &mut [Vec<Place>],
    chip: &Chip,
    number: usize,
    grant: &Grant,
) -> Result<(), NoMemory>
    requires size { length cells.old ≡ length chip.now.links * chip.now.slots }
    requires grant { IsPlaced chip.now grant.now }
    ensures size { length cells.new ≡ length cells.old }
    ensures adds { IfOk result (λ _. Adds
        (IsOfGrant chip.now number grant.now (length grant.now.path)) cells.old cells.new) }
{
    let size = chip.slots() as usize;
    for place in 0..grant.path.len() {
        let ahead = chip.offset(&grant.path, place);
        let link = grant.path.link(place);
        let entered = grant.slots.rotate(ahead);
        let at = Place {
            grant: number,
            place,
            ahead,
        };
        put_place(cells, link.0 as usize * size, &entered, at)?;
    }
    Ok(())
}

// Puts the places of all paths into their cells.
fn put_all(cells: &mut [Vec<Place>], chip: &Chip, grants: &[Grant]) -> Result<(), NoMemory>
    requires size { length cells.old ≡ length chip.now.links * chip.now.slots }
    requires grants { All (IsPlaced chip.now) grants.now }
    requires empty { (n : ℕ) → cell_at cells.old n ≡ [] }
    ensures size { length cells.new ≡ length cells.old }
    ensures places { IfOk result (λ _. ArePlaces chip.now grants.now cells.new) }
{
    for (number, grant) in grants.iter().enumerate() {
        put_grant(cells, chip, number, grant)?;
    }
    Ok(())
}

impl Places {
    /// The places of the paths of a plan's grants.
    pub(crate) fn of(alloc: Global, chip: &Chip, grants: &[Grant]) -> Result<Places, NoMemory>
        requires grants { All (IsPlaced chip.now) grants.now }
        ensures slots { IfOk result (λ places. places.slots ≡ chip.now.slots) }
        ensures size { IfOk result (λ places. length places.cells.items
            ≡ length chip.now.links * chip.now.slots) }
        ensures places { IfOk result (λ places. ArePlaces chip.now grants.now places.cells.items) }
    {
        let slots = chip.slots();
        let mut cells = empty_cells(alloc, chip.links() as usize * slots as usize)?;
        put_all(&mut cells, chip, grants)?;
        Ok(Places { slots, cells })
    }

    /// The places at which flits enter a link in the slot of a cycle.
    pub(crate) fn at(&self, link: LinkId, cycle: u32) -> &[Place]
        requires some { 1 ≤ self.now.slots }
        requires cell { link.0 * self.now.slots + self.now.slots ≤ length self.now.cells.items }
        ensures { result.now
            ≡ cell_at self.now.cells.items (link.0 * self.now.slots + cycle % self.now.slots) }
    {
        let slot = cycle % self.slots;
        &self.cells[link.0 as usize * self.slots as usize + slot as usize]
    }
}

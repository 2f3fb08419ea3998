// From which link flits come onto each link in each slot.
ghost use Rattle.aeth_check.specs.Calls.{IsPlaced};
ghost use Rattle.aeth_group.specs.Members.{has_unit};
ghost use Rattle.aeth_rtable.specs.Entries.{Adds, HasEntries};
ghost use Rattle.aeth_rtable.specs.Hops.{hops_at, hops_in, hops_of};
ghost use Rattle.std.specs.Prelude.{◌≡◌, ◌<◌, ◌≤◌, ◌+◌, ◌*◌, ◌∷◌, [], All, IfOk, None, filter};
ghost use Rattle.std.specs.Prelude.{flat_map, length, replicate};

use aeth_base::{LinkId, NoMemory, UseId};
use aeth_chip::Chip;
use aeth_group::{Grant, Groups};
use aeth_plan::Plan;
use std::alloc::Global;

/// How a flit goes on at a router: from a link of its path to the next one, which it enters in this
/// slot.
#[derive(Clone, Copy)]
pub(crate) struct Hop {
    pub from: LinkId,
    pub to: LinkId,
    pub slot: u32,
}

/// Notes a hop at its link and slot, unless one is noted there.
fn note(entries: &mut [Option<LinkId>], slots: u32, hop: Hop)
    requires slot { hop.slot < slots }
    requires room { hop.to.0 * slots + hop.slot < length entries.old }
    ensures { Adds slots (hop ∷ []) entries.old entries.new }
{
    let place = hop.to.0 as usize * slots as usize + hop.slot as usize;
    if entries[place].is_none() {
        entries[place] = Some(hop.from);
    }
}

/// Notes the hops of a grant onto the link at a place of its path.
fn note_place(entries: &mut [Option<LinkId>], chip: &Chip, grant: &Grant, place: u32)
    requires grant { IsPlaced chip.now grant.now }
    requires behind { 1 ≤ place }
    requires within { place < length grant.now.path }
    requires room { length entries.old ≡ length chip.now.links * chip.now.slots }
    ensures { Adds chip.now.slots (hops_at chip.now.links grant.now place) entries.old entries.new }
{
    let from = grant.path.link(place - 1);
    let to = grant.path.link(place);
    let entered = grant.slots.rotate(chip.offset(&grant.path, place));
    let slots = entered.size();
    for slot in entered.iter() {
        note(entries, slots, Hop { from, to, slot });
    }
}

/// Notes the hops of a grant.
fn note_grant(entries: &mut [Option<LinkId>], chip: &Chip, grant: &Grant)
    requires grant { IsPlaced chip.now grant.now }
    requires room { length entries.old ≡ length chip.now.links * chip.now.slots }
    ensures { Adds chip.now.slots (hops_of chip.now.links grant.now) entries.old entries.new }
{
    for place in 1..grant.path.len() {
        note_place(entries, chip, grant, place);
    }
}

/// Notes the hops of those of some grants that are of a use case.
fn note_grants(
    entries: &mut [Option<LinkId>],
    chip: &Chip,
    groups: &Groups,
    grants: &[Grant],
    u: UseId,
)
    requires grants { All (IsPlaced chip.now) grants.now }
    requires room { length entries.old ≡ length chip.now.links * chip.now.slots }
    ensures { Adds chip.now.slots (flat_map (hops_of chip.now.links)
        (filter (λ grant. has_unit groups.now grant.unit u.0) grants.now)) entries.old entries.new }
{
    for grant in grants {
        if groups.has_unit(u, grant.unit) {
            note_grant(entries, chip, grant);
        }
    }
}

/// No entry for each link and slot.
fn no_entries(alloc: Global, chip: &Chip) -> Result<Vec<Option<LinkId>>, NoMemory>
    ensures { IfOk result (λ entries.
        entries.items ≡ replicate (length chip.now.links * chip.now.slots) None) }
{
    let count = chip.links() as usize * chip.slots() as usize;
    let entries = vec![in alloc; None; count]?;
    Ok(entries)
}

/// For each link and each slot from which link flits come onto it, in a use case by a plan.
pub(crate) fn entries_in(
    alloc: Global,
    chip: &Chip,
    groups: &Groups,
    plan: &Plan,
    u: UseId,
) -> Result<Vec<Option<LinkId>>, NoMemory>
    requires { All (IsPlaced chip.now) plan.now.grants }
    ensures count { IfOk result (λ entries.
        length entries.items ≡ length chip.now.links * chip.now.slots) }
    ensures entries { IfOk result (λ entries. HasEntries chip.now.slots
        (hops_in chip.now groups.now plan.now u.0) entries.items) }
{
    let mut entries = no_entries(alloc, chip)?;
    note_grants(&mut entries, chip, groups, plan.grants(), u);
    Ok(entries)
}

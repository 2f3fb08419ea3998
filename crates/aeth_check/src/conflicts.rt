// Rule 7: grants that conflict, by a mask for each use case and link.
ghost use Rattle.aeth_check.specs.Calls.{IsPlaced, first_meeting};
ghost use Rattle.aeth_check.specs.Firsts.{first_line, first_pair};
ghost use Rattle.aeth_group.specs.Tables.{HasTable};
ghost use Rattle.aeth_check.specs.Masks.{AreTaken, Holds};
ghost use Rattle.aeth_check.specs.Meetings.{conflicts};
ghost use Rattle.aeth_check.specs.Verdict.{conflict};
ghost use Rattle.std.specs.List.{list_any};
ghost use Rattle.aeth_group.specs.declared.grant.Grant.{Grant};
ghost use Rattle.std.specs.Prelude.{◌≡◌, ◌<◌, ◌*◌, ◌∷◌, [], List, All, IfOk, IfSome};
ghost use Rattle.std.specs.Prelude.{length};

use crate::lines::grants_begin;
use crate::masks::{meets, no_masks, put, take, taken};
use crate::verdict::Verdict;
use aeth_base::{MAX_PATH_LINKS, NoMemory};
use aeth_chip::Chip;
use aeth_group::{Grant, Groups};
use aeth_plan::Plan;
use aeth_slots::SlotSet;
use aeth_text::line_after;
use std::alloc::Global;

/// Whether a grant conflicts with one of those that the masks hold.
fn meets_some(
    chip: &Chip,
    groups: &Groups,
    grant: &Grant,
    sets: &[SlotSet],
    masks: &[SlotSet],
) -> bool
    requires sets { AreTaken chip.now.links grant.now sets.now }
    requires rows { length masks.now ≡ length groups.now.uses * length chip.now.links }
    requires grant { IsPlaced chip.now grant.now }
    requires table { HasTable chip.now.slots (length chip.now.links) masks.now }
    ensures { (grants : List Grant) → Holds chip.now groups.now grants masks.now
        → result ≡ list_any (conflicts chip.now.links groups.now grant.now) grants }
{
    meets(chip, groups, grant, sets, masks)
}

/// Puts a grant before those that the masks hold.
fn hold(chip: &Chip, groups: &Groups, grant: &Grant, sets: &[SlotSet], masks: &mut [SlotSet])
    requires sets { AreTaken chip.now.links grant.now sets.now }
    requires rows { length masks.old ≡ length groups.now.uses * length chip.now.links }
    requires grant { IsPlaced chip.now grant.now }
    requires table { HasTable chip.now.slots (length chip.now.links) masks.old }
    ensures { (grants : List Grant) → Holds chip.now groups.now grants masks.old
        → Holds chip.now groups.now (grant.now ∷ grants) masks.new }
{
    put(chip, groups, grant, sets, masks);
}

/// The place of the first grant that conflicts with one behind it. The grants are put into the
/// masks from the last to the first, so each is met with those behind it.
fn meeting_in(
    chip: &Chip,
    groups: &Groups,
    grants: &[Grant],
    masks: &mut [SlotSet],
) -> Option<usize>
    requires rows { length masks.old ≡ length groups.now.uses * length chip.now.links }
    requires empty { Holds chip.now groups.now [] masks.old }
    requires grants { All (IsPlaced chip.now) grants.now }
    ensures found { result ≡ first_meeting (conflicts chip.now.links groups.now) 0 grants.now }
    ensures within { IfSome result (λ place. place < length grants.now) }
{
    let mut found = None;
    let mut sets = [SlotSet::empty(chip.slots()); MAX_PATH_LINKS as usize];
    let mut left = grants.len();
    'grants: while left > 0 {
        left -= 1;
        let grant = &grants[left];
        take(chip, grant, &mut sets);
        if meets_some(chip, groups, grant, &sets, masks) {
            found = Some(left);
        }
        hold(chip, groups, grant, &sets, masks);
    }
    found
}

/// The place of the first grant that conflicts with one behind it.
fn first_meeting(
    alloc: Global,
    chip: &Chip,
    groups: &Groups,
    grants: &[Grant],
) -> Result<Option<usize>, NoMemory>
    requires { All (IsPlaced chip.now) grants.now }
    ensures found { IfOk result (λ found. found
        ≡ first_meeting (conflicts chip.now.links groups.now) 0 grants.now) }
    ensures within { IfOk result (λ found. IfSome found (λ place. place < length grants.now)) }
{
    let mut masks = no_masks(alloc, chip, groups)?;
    Ok(meeting_in(chip, groups, grants, &mut masks))
}

/// The line of the first grant that conflicts with the one that the masks hold.
fn line_in(
    chip: &Chip,
    groups: &Groups,
    first: u32,
    others: &[Grant],
    masks: &[SlotSet],
) -> Option<u32>
    requires rows { length masks.now ≡ length groups.now.uses * length chip.now.links }
    requires table { HasTable chip.now.slots (length chip.now.links) masks.now }
    requires others { All (IsPlaced chip.now) others.now }
    ensures { (one : Grant) → Holds chip.now groups.now (one ∷ []) masks.now
        → result ≡ first_line (conflicts chip.now.links groups.now one) first others.now }
{
    let mut line = first;
    for other in others {
        if meets_some(chip, groups, other, &taken(chip, other), masks) {
            return Some(line);
        }
        line = line_after(line, 1);
    }
    None
}

/// The line of the first grant that conflicts with this one.
fn line_with(
    chip: &Chip,
    groups: &Groups,
    one: &Grant,
    first: u32,
    others: &[Grant],
    masks: &mut [SlotSet],
) -> Option<u32>
    requires rows { length masks.old ≡ length groups.now.uses * length chip.now.links }
    requires empty { Holds chip.now groups.now [] masks.old }
    requires one { IsPlaced chip.now one.now }
    requires others { All (IsPlaced chip.now) others.now }
    ensures { result ≡ first_line (conflicts chip.now.links groups.now one.now) first others.now }
{
    hold(chip, groups, one, &taken(chip, one), masks);
    line_in(chip, groups, first, others, masks)
}

/// The line of the first grant that conflicts with this one.
fn first_with(
    alloc: Global,
    chip: &Chip,
    groups: &Groups,
    one: &Grant,
    first: u32,
    others: &[Grant],
) -> Result<Option<u32>, NoMemory>
    requires one { IsPlaced chip.now one.now }
    requires others { All (IsPlaced chip.now) others.now }
    ensures { IfOk result (λ found. found
        ≡ first_line (conflicts chip.now.links groups.now one.now) first others.now) }
{
    let mut masks = no_masks(alloc, chip, groups)?;
    Ok(line_with(chip, groups, one, first, others, &mut masks))
}

/// The lines of the first two grants that conflict.
fn first_pair(
    alloc: Global,
    chip: &Chip,
    groups: &Groups,
    first: u32,
    grants: &[Grant],
) -> Result<Option<(u32, u32)>, NoMemory>
    requires { All (IsPlaced chip.now) grants.now }
    ensures { IfOk result (λ found. found
        ≡ first_pair (conflicts chip.now.links groups.now) first grants.now) }
{
    let Some(place) = first_meeting(alloc, chip, groups, grants)? else {
        return Ok(None);
    };
    let line = line_after(first, place);
    let next = line_after(line, 1);
    let behind = &grants[place + 1..];
    match first_with(alloc, chip, groups, &grants[place], next, behind)? {
        Some(other) => Ok(Some((line, other))),
        None => Ok(None),
    }
}

/// Rule 7: two grants conflict.
#[tactic(auto, unfolding(crate::specs::Verdict::conflict))]
pub(crate) fn conflict(
    alloc: Global,
    chip: &Chip,
    groups: &Groups,
    plan: &Plan,
) -> Result<Option<Verdict>, NoMemory>
    requires { All (IsPlaced chip.now) plan.now.grants }
    ensures { IfOk result (λ verdict. verdict ≡ conflict chip.now groups.now plan.now) }
{
    match first_pair(alloc, chip, groups, grants_begin(plan), plan.grants())? {
        Some((line, other)) => Ok(Some(Verdict::Broken {
            rule: 7,
            line,
            other,
        })),
        None => Ok(None),
    }
}

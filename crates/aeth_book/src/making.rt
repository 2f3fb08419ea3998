// What a book is made of: the links of a chip, and masks without slots.
ghost use Rattle.std.specs.Prelude.{◌≡◌, ◌≤◌, [], All, IfOk, length};
ghost use Rattle.aeth_base.specs.Limits.{max_slots};

use aeth_base::{LinkId, NoMemory};
use aeth_chip::{Chip, Link};
use aeth_slots::SlotSet;
use std::alloc::Global;

/// The links of a chip.
pub(crate) fn links_of(alloc: Global, chip: &Chip) -> Result<Vec<Link>, NoMemory>
    ensures { IfOk result (λ links. links.items ≡ chip.now.links) }
{
    let mut links = Vec::new(alloc);
    for l in 0..chip.links() {
        links.push(chip.link(LinkId(l)))?;
    }
    Ok(links)
}

/// So many masks without slots.
pub(crate) fn masks_of(alloc: Global, size: u32, count: u32) -> Result<Vec<SlotSet>, NoMemory>
    requires some { 1 ≤ size }
    requires within { size ≤ max_slots }
    ensures count { IfOk result (λ masks. length masks.items ≡ count) }
    ensures empty { IfOk result (λ masks. All (λ mask. mask ≡ record { size = size; slots = [] })
        masks.items) }
{
    let mut masks = Vec::new(alloc);
    for _i in 0..count {
        masks.push(SlotSet::empty(size))?;
    }
    Ok(masks)
}

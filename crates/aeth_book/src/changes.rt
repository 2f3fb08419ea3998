// Changes of a table of slots, one mask for each use case and link: the slots that a grant occupies
// are put in, or taken out.
ghost use Rattle.std.specs.Prelude.{◌≡◌, ◌<◌, ◌≤◌, ◌+◌, ◌*◌, length, All};
ghost use Rattle.aeth_base.specs.Limits.{max_link_delay};
ghost use Rattle.aeth_chip.specs.Paths.{delay_of};
ghost use Rattle.aeth_book.specs.Book.{AreShort};
ghost use Rattle.aeth_group.specs.Tables.{Changes, HasTable, changed, hits_row, hits_uses};

use aeth_base::{LinkId, Path, UseId};
use aeth_chip::Link;
use aeth_group::{Grant, Groups};
use aeth_slots::SlotSet;

/// The delay of a link.
pub(crate) fn delay(links: &[Link], link: LinkId) -> u32
    requires link { link.0 < length links.now }
    requires delays { AreShort links.now }
    ensures delay { result ≡ delay_of links.now link }
    ensures within { result ≤ max_link_delay }
{
    links[link.0 as usize].delay
}

/// Puts the slots into a mask, or takes them out.
fn changed(mask: &SlotSet, slots: &SlotSet, put: bool) -> SlotSet
    requires { mask.now.size ≡ slots.now.size }
    ensures { result ≡ changed put mask.now slots.now }
{
    if put {
        mask.join(slots)
    } else {
        mask.without(slots)
    }
}

/// Changes the masks of one use case by the slots that flits take along a path.
fn change_row(
    links: &[Link],
    u: u32,
    path: &Path,
    slots: &SlotSet,
    put: bool,
    masks: &mut [SlotSet],
)
    requires row { u * length links.now + length links.now ≤ length masks.old }
    requires path { All (λ link. link.0 < length links.now) path.now }
    requires delays { AreShort links.now }
    requires table { HasTable slots.now.size (length links.now) masks.old }
    ensures { Changes slots.now.size (length links.now)
        (hits_row slots.now links.now u path.now) put masks.old masks.new }
{
    let mut after = 0;
    for i in 0..path.len() {
        let link = path.link(i);
        let at = u as usize * links.len() + link.0 as usize;
        masks[at] = changed(&masks[at], &slots.rotate(after), put);
        after += delay(links, link);
    }
}

/// Changes the masks of the use cases of a grant's unit by the slots that its flits take along its path.
pub(crate) fn change(
    groups: &Groups,
    links: &[Link],
    grant: &Grant,
    put: bool,
    masks: &mut [SlotSet],
)
    requires rows { length masks.old ≡ length groups.now.uses * length links.now }
    requires path { All (λ link. link.0 < length links.now) grant.now.path }
    requires delays { AreShort links.now }
    requires table { HasTable grant.now.slots.size (length links.now) masks.old }
    ensures { Changes grant.now.slots.size (length links.now)
        (hits_uses grant.now.slots links.now groups.now grant.now.unit grant.now.path
        (length groups.now.uses)) put masks.old masks.new }
{
    for u in 0..groups.uses() {
        if groups.has_unit(UseId(u), grant.unit) {
            change_row(links, u, &grant.path, &grant.slots, put, masks);
        }
    }
}

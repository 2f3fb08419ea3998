// The entries of a router's table, each the place of a link: made, set and looked up.

ghost use Rattle.std.specs.Prelude.{◌≡◌, ◌<◌, ◌≤◌, ◌+◌, ◌*◌, ◌==◌, ◌↔◌, IfOk, IfSome, IsTrue, None};
ghost use Rattle.std.specs.Prelude.{length, position, replicate};
ghost use Rattle.std.specs.List.{list_any, slice_set};
ghost use Rattle.aeth_base.specs.Limits.{max_slots};
ghost use Rattle.aeth_chip.specs.Limits.{max_links};
ghost use Rattle.aeth_router.specs.Router.{is_among, numbers_of};
ghost use Rattle.aeth_router.specs.Single.{is_from};
ghost use Rattle.aeth_router.specs.TableRouter.{entry_at, place_from};

use aeth_base::{LinkId, NoMemory};
use std::alloc::Global;

// No entry for each slot of so many ports.
pub(crate) fn no_entries(
    alloc: Global,
    ports: usize,
    slots: u32,
) -> Result<Vec<Option<u16>>, NoMemory>
    requires ports { ports ≤ max_links }
    requires slots { slots ≤ max_slots }
    ensures { IfOk result (λ entries. entries.items ≡ replicate (ports * slots) None) }
{
    Ok(vec![in alloc; None; ports * slots as usize]?)
}

// Whether a link is one of these.
fn is_one(links: &[LinkId], link: LinkId) -> bool
    ensures { result ≡ list_any (λ other. other.0 == link.0) links.now }
{
    links.iter().any(|other| other.0 == link.0)
}

// Whether a link, if it is one, enters a router.
pub(crate) fn enters(links: &[LinkId], from: Option<LinkId>) -> bool
    ensures { IsTrue result ↔ IfSome from (λ link. IsTrue (is_among (numbers_of links.now) link.0)) }
{
    match from {
        Some(link) => is_one(links, link),
        None => true,
    }
}

// The place of a link.
fn place_of(links: &[LinkId], link: LinkId) -> Option<usize>
    ensures { result ≡ position (λ other. other.0 == link.0) links.now }
{
    links.iter().position(|other| other.0 == link.0)
}

// The place of a link among few that enter a router, as an entry.
pub(crate) fn place_from(links: &[LinkId], from: Option<LinkId>) -> Option<u16>
    requires { length links.now ≤ max_links }
    ensures { result ≡ place_from (numbers_of links.now) from }
{
    let place = place_of(links, from?)?;
    Some(place as u16)
}

// Sets the entry of a port for a slot.
pub(crate) fn set_entry(
    entries: &mut [Option<u16>],
    slots: usize,
    port: usize,
    slot: usize,
    entry: Option<u16>,
)
    requires { port * slots + slot < length entries.old }
    ensures { entries.new ≡ slice_set entries.old (port * slots + slot) entry }
{
    entries[port * slots + slot] = entry;
}

// The entry of a port for a slot.
#[inline(always)]
pub(crate) fn entry_at(
    entries: &[Option<u16>],
    slots: usize,
    port: usize,
    slot: usize,
) -> Option<u16>
    requires { port * slots + slot < length entries.now }
    ensures { result ≡ entry_at entries.now slots port slot }
{
    entries[port * slots + slot]
}

// Whether an entry is the place of a wire.
#[inline(always)]
pub(crate) fn is_from(incoming: &[LinkId], wire: LinkId, entry: Option<u16>) -> bool
    ensures { result ≡ is_from (numbers_of incoming.now) wire.0 entry }
{
    match entry {
        Some(place) => match incoming.get(place as usize) {
            Some(from) => from.0 == wire.0,
            None => false,
        },
        None => false,
    }
}

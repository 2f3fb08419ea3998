// The components of a chip.

ghost use Rattle.std.specs.Prelude.{◌≡◌, ◌*◌, ◌+◌, ◌^◌, ◌++◌, ◌<◌, IfOk, length, map};
ghost use Rattle.std.specs.List.{range_with_len};
ghost use Rattle.aeth_chip.specs.Paths.{delay_of};
ghost use Rattle.aeth_ni.specs.Limits.{queues_of_interface};
ghost use Rattle.aeth_components.specs.Making.{link_stages, made_interface, made_router};
ghost use Rattle.aeth_components.specs.Making.{made_stage};
ghost use Rattle.aeth_components.specs.Making.{made_stages, new_parts};

use aeth_base::{LinkId, NiId, NoMemory, RouterId};
use aeth_chip::Chip;
use aeth_ni::{Ni, QUEUES_OF_INTERFACE};
use aeth_router::{Part, Router, Stage, TableRouter};
use std::alloc::Global;

/// By what the routers of a network send a flit on.
#[derive(Clone, Copy)]
pub enum RouterKind {
    /// By its header.
    ByHeader,
    /// By a table that each router has.
    ByTable,
}

// A chip's interfaces in their order, its routers of a kind in theirs, and the stages of its links in the
// order of their wires. `rooms` has for each queue of each interface the words that its receive
// queue has room for.
pub(crate) fn parts_of(
    alloc: Global,
    chip: &Chip,
    kind: RouterKind,
    rooms: &[u32],
) -> Result<Vec<Part>, NoMemory>
    requires { length rooms.now ≡ queues_of_interface * length chip.now.nis }
    ensures { IfOk result (λ parts. parts.items ≡ new_parts chip.now kind rooms.now) }
{
    let mut parts = interfaces_of(alloc, chip, rooms)?;
    push_routers(alloc, &mut parts, chip, kind)?;
    push_stages(&mut parts, chip)?;
    Ok(parts)
}

// A chip's interfaces in their order.
fn interfaces_of(alloc: Global, chip: &Chip, rooms: &[u32]) -> Result<Vec<Part>, NoMemory>
    requires { length rooms.now ≡ queues_of_interface * length chip.now.nis }
    ensures { IfOk result (λ parts. parts.items
        ≡ map (made_interface chip.now rooms.now) (range_with_len 0 (length chip.now.nis))) }
{
    let mut parts = Vec::new(alloc);
    for number in 0..chip.nis() {
        parts.push(interface_of(alloc, chip, rooms, number)?)?;
    }
    Ok(parts)
}

// An interface of a chip.
fn interface_of(alloc: Global, chip: &Chip, rooms: &[u32], number: u32) -> Result<Part, NoMemory>
    requires number { number < length chip.now.nis }
    requires rooms { length rooms.now ≡ queues_of_interface * length chip.now.nis }
    ensures { IfOk result (λ part. part ≡ made_interface chip.now rooms.now number) }
{
    let ni = NiId(number);
    let first = number as usize * QUEUES_OF_INTERFACE;
    let rooms = &rooms[first..first + QUEUES_OF_INTERFACE];
    let entering = chip.entering(ni);
    let last = chip.wire(entering, chip.link(entering).delay - 1);
    let made = Ni::new(alloc, ni, chip.leaving(ni), last, chip.slots(), rooms)?;
    Ok(Part::Interface(made))
}

// Its routers behind these.
fn push_routers(
    alloc: Global,
    parts: &mut Vec<Part>,
    chip: &Chip,
    kind: RouterKind,
) -> Result<(), NoMemory>
    ensures { IfOk result (λ _. parts.new.items ≡ parts.old.items
        ++ map (made_router chip.now kind) (range_with_len 0 (length chip.now.routers))) }
{
    for number in 0..chip.routers() {
        parts.push(router_of(alloc, chip, kind, number)?)?;
    }
    Ok(())
}

// A router of a chip, of a kind.
fn router_of(alloc: Global, chip: &Chip, kind: RouterKind, number: u32) -> Result<Part, NoMemory>
    ensures { IfOk result (λ part. part ≡ made_router chip.now kind number) }
{
    let router = RouterId(number);
    match kind {
        RouterKind::ByHeader => Ok(Part::Router(Router::new(alloc, chip, router)?)),
        RouterKind::ByTable => Ok(Part::TableRouter(TableRouter::new(alloc, chip, router)?)),
    }
}

// The stages of all links behind these.
fn push_stages(parts: &mut Vec<Part>, chip: &Chip) -> Result<(), NoMemory>
    ensures { IfOk result (λ _. parts.new.items ≡ parts.old.items
        ++ made_stages chip.now.links (length chip.now.links)) }
{
    for number in 0..chip.links() {
        push_link(parts, chip, LinkId(number))?;
    }
    Ok(())
}

// The stages of a link behind these.
fn push_link(parts: &mut Vec<Part>, chip: &Chip, link: LinkId) -> Result<(), NoMemory>
    requires { link.0 < length chip.now.links }
    ensures { IfOk result (λ _. parts.new.items ≡ parts.old.items
        ++ link_stages chip.now.links link.0) }
{
    for place in 0..chip.link(link).delay - 1 {
        parts.push(stage_of(chip, link, place))?;
    }
    Ok(())
}

// The stage behind a wire of a link.
fn stage_of(chip: &Chip, link: LinkId, place: u32) -> Part
    requires link { link.0 < length chip.now.links }
    requires place { place + 1 < delay_of chip.now.links link }
    requires few { place + 1 < 2 ^ 32 }
    ensures { result ≡ made_stage chip.now.links link.0 place }
{
    let stage = Stage::new(chip.wire(link, place), chip.wire(link, place + 1));
    Part::Stage(stage)
}

// The components at the ends of the wires of a chip.

ghost use Rattle.std.specs.Prelude.{◌≡◌, ◌<◌, ◌+◌, ◌^◌, All, IfOk, IfSome, length};
ghost use Rattle.std.specs.Prelude.{slice_get};
ghost use Rattle.aeth_chip.specs.Chip.{IsNode};
ghost use Rattle.aeth_chip.specs.Paths.{delay_of};
ghost use Rattle.aeth_chip.specs.Wires.{wires_of};
ghost use Rattle.aeth_components.specs.Components.{part_count};
ghost use Rattle.aeth_components.specs.Ends.{AreEndsOf, AreReceivers, AreSenders, IsSender};
ghost use Rattle.aeth_components.specs.Ends.{NotedTo, part_number, receiver_for};

use aeth_base::{LinkId, NoMemory};
use aeth_chip::{Chip, Node};
use std::alloc::Global;

// For each wire the component that sends on it and the one that receives there; how many components
// there are, and how many of them, the first ones, are interfaces.
#[derive(Drop)]
pub(crate) struct Ends {
    pub senders: Vec<u32>,
    pub receivers: Vec<u32>,
    pub parts: u32,
    pub interfaces: u32,
}

impl Ends {
    // Those of the wires of a chip.
    pub(crate) fn of(alloc: Global, chip: &Chip) -> Result<Ends, NoMemory>
        ensures { IfOk result (AreEndsOf chip.now) }
    {
        Ok(Ends {
            senders: senders_of(alloc, chip)?,
            receivers: receivers_of(alloc, chip)?,
            parts: count_of(chip),
            interfaces: chip.nis(),
        })
    }
}

// How many components a chip has.
fn count_of(chip: &Chip) -> u32
    ensures count { result ≡ part_count chip.now }
    ensures few { result + result < 2 ^ 32 }
    ensures wires { wires_of chip.now.links < 2 ^ 32 }
{
    let _ = chip.slots();
    chip.nis() + chip.routers() + (chip.wires() - chip.links())
}

// For each wire the component that sends on it.
fn senders_of(alloc: Global, chip: &Chip) -> Result<Vec<u32>, NoMemory>
    ensures { IfOk result (λ senders. AreSenders chip.now senders.items) }
{
    let _ = chip.slots();
    let mut senders = Vec::new(alloc);
    for wire in 0..chip.wires() {
        senders.push(sender_of(chip, wire))?;
    }
    Ok(senders)
}

// The component that sends on a wire: the one at the node where its link begins, or a stage.
fn sender_of(chip: &Chip, wire: u32) -> u32
    requires { wire < wires_of chip.now.links }
    ensures { IsSender chip.now wire result }
{
    let _ = chip.slots();
    let _ = chip.wires();
    if wire < chip.links() {
        return number_of(chip, chip.link(LinkId(wire)).from);
    }
    chip.nis() + chip.routers() + (wire - chip.links())
}

// For each wire the component that receives on it.
fn receivers_of(alloc: Global, chip: &Chip) -> Result<Vec<u32>, NoMemory>
    ensures { IfOk result (λ receivers. AreReceivers chip.now receivers.items) }
{
    let _ = chip.slots();
    let mut receivers = vec![in alloc; 0; chip.wires() as usize]?;
    for link in 0..chip.links() {
        note_link(&mut receivers, chip, LinkId(link));
    }
    Ok(receivers)
}

// Notes who receives on each wire of a link.
fn note_link(receivers: &mut [u32], chip: &Chip, link: LinkId)
    requires link { link.0 < length chip.now.links }
    requires wires { length receivers.old ≡ wires_of chip.now.links }
    requires below { All (λ number. number < part_count chip.now) receivers.old }
    ensures { IfSome (slice_get chip.now.links link.0) (λ found.
        NotedTo chip.now link.0 found receivers.old receivers.new found.delay) }
{
    let _ = chip.slots();
    let delay = chip.link(link).delay;
    for place in 0..delay {
        let wire = chip.wire(link, place);
        receivers[wire.0 as usize] = receiver_of(chip, link, place);
    }
}

// Who receives on a wire of a link: the stage that sends on the next, or the component at the end.
fn receiver_of(chip: &Chip, link: LinkId, place: u32) -> u32
    requires link { link.0 < length chip.now.links }
    requires place { place < delay_of chip.now.links link }
    ensures receiver { IfSome (slice_get chip.now.links link.0) (λ found.
        result ≡ receiver_for chip.now link.0 place found) }
    ensures below { result < part_count chip.now }
{
    let _ = chip.slots();
    let _ = chip.wires();
    let found = chip.link(link);
    if place + 1 == found.delay {
        return number_of(chip, found.to);
    }
    let next = chip.wire(link, place + 1);
    chip.nis() + chip.routers() + (next.0 - chip.links())
}

// The component at a node.
fn number_of(chip: &Chip, node: Node) -> u32
    requires { IsNode chip.now.routers chip.now.nis node }
    ensures number { result ≡ part_number (length chip.now.nis) node }
    ensures below { result < part_count chip.now }
{
    let _ = chip.routers();
    match node {
        Node::Ni(ni) => ni.0,
        Node::Router(router) => chip.nis() + router.0,
    }
}

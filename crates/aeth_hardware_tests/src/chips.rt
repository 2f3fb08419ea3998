// The parts, the ports, the wires and the offsets of a pair.
ghost use Rattle.std.specs.Prelude.{◌<◌, All, length};

use aeth_base::{LinkId, Name, NiId, Path, RouterId};
use aeth_chip::{Chip, Node, read_chip};
use std::alloc::Global;

/// Two routers, each with a network interface, and a link each way between them. Three links take
/// more than a cycle.
const PAIR: &str = "version = 2
slots = 128
routers = ['r0', 'r1']
nis = ['n0', 'n1']
link = [
  {from = 'n0', to = 'r0'}, {from = 'r0', to = 'n0', delay = 3},
  {from = 'n1', to = 'r1'}, {from = 'r1', to = 'n1', delay = 4},
  {from = 'r0', to = 'r1', delay = 2}, {from = 'r1', to = 'r0'},
]
";

fn pair(alloc: Global) -> Option<Chip> {
    read_chip(alloc, PAIR.as_bytes()).ok()
}

// The size of the slot table, and the numbers of routers, interfaces, links and wires.
fn numbers_of(chip: &Chip) -> [u32; 5] {
    [
        chip.slots(),
        chip.routers(),
        chip.nis(),
        chip.links(),
        chip.wires(),
    ]
}

// Whether the fifth link leads from the first router to the second in two cycles.
fn has_its_fifth_link(chip: &Chip) -> bool {
    if chip.links() < 5 {
        return false;
    }
    let link = chip.link(LinkId(4));
    link.begins_at(Node::Router(RouterId(0)))
        && link.ends_at(Node::Router(RouterId(1)))
        && link.delay == 2
}

// Whether the second interface has these links and its name.
fn has_its_second_interface(chip: &Chip) -> bool {
    chip.nis() == 2
        && chip.leaving(NiId(1)) == LinkId(2)
        && chip.entering(NiId(1)) == LinkId(3)
        && chip.ni_name(NiId(1)).as_bytes() == b"n1".as_slice()
}

/// Names, and the interfaces that have them.
static NAMES: [(&str, Option<NiId>); 3] = [("n1", Some(NiId(1))), ("n2", None), ("r1", None)];

// The first of these names that another interface has.
fn wrong_name(chip: &Chip) -> Option<&'static str> {
    for &(text, ni) in &NAMES {
        match Name::new(text.as_bytes()) {
            Some(name) if chip.find_ni(&name) == ni => {}
            _ => return Some(text),
        }
    }
    None
}

// What a chip has: its numbers, whether the link and the interface are right, and the first wrong name.
type Parts = ([u32; 5], bool, bool, Option<&'static str>);

fn parts_of(chip: &Chip) -> Parts {
    (
        numbers_of(chip),
        has_its_fifth_link(chip),
        has_its_second_interface(chip),
        wrong_name(chip),
    )
}

fn parts_of_pair(alloc: Global) -> Option<Parts> {
    let chip = pair(alloc)?;
    Some(parts_of(&chip))
}

#[test]
fn parts_are_those_of_the_file(rt: HostRuntime) {
    assert_eq!(rt;
        parts_of_pair(rt.alloc()),
        Some(([128, 2, 2, 6, 12], true, true, None))
    );
}

/// Routers and ports, and the links that these lead to.
static EXITS: [(u32, u8, Option<LinkId>); 5] = [
    (0, 0, Some(LinkId(1))),
    (0, 1, Some(LinkId(4))),
    (0, 2, None),
    (1, 1, Some(LinkId(5))),
    (2, 0, None),
];

// The first of these ports that leads elsewhere.
fn wrong_exit(chip: &Chip) -> Option<(u32, u8)> {
    for &(router, port, link) in &EXITS {
        if chip.exit(RouterId(router), port) != link {
            return Some((router, port));
        }
    }
    None
}

// Whether these links leave the second router, and enter it, and none enters a third.
fn has_its_links(chip: &Chip) -> bool {
    chip.outgoing(RouterId(1)) == [LinkId(3), LinkId(5)].as_slice()
        && chip.incoming(RouterId(1)) == [LinkId(2), LinkId(4)].as_slice()
        && chip.incoming(RouterId(2)).is_empty()
}

// The first wrong port of a chip, and whether its second router has its links.
fn ports_of(chip: &Chip) -> (Option<(u32, u8)>, bool) {
    (wrong_exit(chip), has_its_links(chip))
}

fn ports_of_pair(alloc: Global) -> Option<(Option<(u32, u8)>, bool)> {
    let chip = pair(alloc)?;
    Some(ports_of(&chip))
}

#[test]
fn ports_lead_out_of_a_router(rt: HostRuntime) {
    assert_eq!(rt; ports_of_pair(rt.alloc()), Some((None, true)));
}

/// The wire so many places behind a link.
fn wire_of(chip: &Chip, link: u32, place: u32) -> Option<u32> {
    if link >= chip.links() {
        return None;
    }
    let delay = chip.link(LinkId(link)).delay;
    if place < delay {
        Some(chip.wire(LinkId(link), place).0)
    } else {
        None
    }
}

/// Links and places, and the wires that stand there.
static WIRES: [(u32, u32, Option<u32>); 8] = [
    (1, 0, Some(1)),
    (1, 1, Some(6)),
    (1, 2, Some(7)),
    (1, 3, None),
    (3, 1, Some(8)),
    (3, 3, Some(10)),
    (4, 1, Some(11)),
    (5, 1, None),
];

// The first of these places at which another wire stands.
fn wrong_wire(chip: &Chip) -> Option<(u32, u32)> {
    for &(link, place, wire) in &WIRES {
        if wire_of(chip, link, place) != wire {
            return Some((link, place));
        }
    }
    None
}

// How many wires a chip has, and the first wrong one.
fn wires_of(chip: &Chip) -> (u32, Option<(u32, u32)>) {
    (chip.wires(), wrong_wire(chip))
}

fn wires_of_pair(alloc: Global) -> Option<(u32, Option<(u32, u32)>)> {
    let chip = pair(alloc)?;
    Some(wires_of(&chip))
}

#[test]
fn wires_stand_behind_their_links(rt: HostRuntime) {
    assert_eq!(rt; wires_of_pair(rt.alloc()), Some((12, None)));
}

/// The offset at a place of a path, 0 past its end.
fn offset_at(chip: &Chip, path: &Path, place: u32) -> u32
    requires { All (λ link. link.0 < length chip.now.links) path.now }
{
    if place <= path.len() {
        chip.offset(path, place)
    } else {
        0
    }
}

/// The offsets at the places of a path, and its delay.
fn offsets_of(chip: &Chip, links: [u32; 3]) -> Option<[u32; 5]> {
    let mut path = Path::empty();
    for link in links {
        if link >= chip.links() || !path.push(LinkId(link)) {
            return None;
        }
    }
    Some([
        offset_at(chip, &path, 0),
        offset_at(chip, &path, 1),
        offset_at(chip, &path, 2),
        offset_at(chip, &path, 3),
        chip.path_delay(&path),
    ])
}

fn offsets_of_pair(alloc: Global) -> Option<[u32; 5]> {
    let chip = pair(alloc)?;
    offsets_of(&chip, [0, 4, 3])
}

#[test]
fn a_flit_enters_each_link_after_the_delays_before(rt: HostRuntime) {
    assert_eq!(rt; offsets_of_pair(rt.alloc()), Some([0, 1, 3, 7, 7]));
}

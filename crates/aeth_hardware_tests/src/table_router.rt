// What no clause says: that the definitions of routers with tables mean the rules.
ghost use Rattle.std.specs.Prelude.{◌≡◌, ◌<◌, ◌^◌, IfOk, IfSome, length};
ghost use Rattle.aeth_chip.specs.Wires.{wires_of};
ghost use Rattle.aeth_clocked.specs.Wires.{AreLinks};
ghost use Rattle.aeth_router.specs.TableRouter.{table_inputs, table_outputs};

use crate::router::settled;
use aeth_base::{LinkId, NoMemory, RouterId};
use aeth_chip::{Chip, read_chip};
use aeth_clocked::{Clocked, Flit, Wires};
use aeth_router::{Onward, Part, TableRouter};
use std::alloc::Global;
use std::test::*;

// Two routers that send to each other, with an interface at each. Router `r0` receives on links 0
// and 5, and sends on links 1 and 4; `r1` receives on links 2 and 4, and sends on links 3 and 5.
const PAIR: &str = "version = 1\nslots = 8\nrouters = ['r0', 'r1']\nnis = ['n0', 'n1']\n\
    link = [{ from = 'n0', to = 'r0' }, { from = 'r0', to = 'n0' },\n\
    { from = 'n1', to = 'r1' }, { from = 'r1', to = 'n1' },\n\
    { from = 'r0', to = 'r1' }, { from = 'r1', to = 'r0' }]\n";

// The wires of the pair.
const WIRES: u32 = 6;

// The entries of a channel by links 0, 4 and 3 from slots 0 and 4, and of one by links 2, 5 and 1
// from slot 0: a router, its port, a slot, and the link on which the flit comes.
static ENTRIES: [(u32, u8, u32, u32); 6] = [
    (0, 0, 2, 5),
    (0, 1, 1, 0),
    (0, 1, 5, 0),
    (1, 0, 2, 4),
    (1, 0, 6, 4),
    (1, 1, 1, 2),
];

// A flit with a header and two words.
fn flit(header: u32, first: u32, second: u32) -> Option<Flit> {
    Some(Flit {
        header,
        first,
        second,
    })
}

// A router of a chip, whose wires are wires of the chip.
fn router_in(alloc: Global, chip: &Chip, number: u32) -> Result<TableRouter, NoMemory>
    ensures inputs { IfOk result
        (λ router. AreLinks (table_inputs router) (wires_of chip.now.links)) }
    ensures outputs { IfOk result
        (λ router. AreLinks (table_outputs router) (wires_of chip.now.links)) }
{
    let _slots = chip.slots();
    let router = TableRouter::new(alloc, chip, RouterId(number))?;
    Ok(router)
}

// Sets the entries of a router. Gives whether they are entries of it.
fn enter(router: &mut TableRouter, number: u32) -> bool
    ensures inputs { router.new.incoming ≡ router.old.incoming }
    ensures outputs { router.new.outgoing ≡ router.old.outgoing }
{
    for (owner, port, slot, from) in &ENTRIES {
        let from = Some(LinkId(*from));
        if *owner == number {
            if !router.can_set(*port, *slot, from) {
                return false;
            }
            router.set(*port, *slot, from);
        }
    }
    true
}

// The router with its entries, where they are entries of it.
fn entered(router: TableRouter, number: u32) -> Option<TableRouter>
    ensures inputs { IfSome result (λ now. now.incoming ≡ router.incoming) }
    ensures outputs { IfSome result (λ now. now.outgoing ≡ router.outgoing) }
{
    let mut router = router;
    if enter(&mut router, number) {
        Some(router)
    } else {
        None
    }
}

// A router of a chip with so many wires, with its entries.
fn router_on(alloc: Global, chip: &Chip, number: u32) -> Option<TableRouter>
    requires { wires_of chip.now.links ≡ WIRES }
    ensures inputs { IfSome result (λ router. AreLinks (table_inputs router) WIRES) }
    ensures outputs { IfSome result (λ router. AreLinks (table_outputs router) WIRES) }
{
    let router = router_in(alloc, chip, number).ok()?;
    entered(router, number)
}

// A router of the pair, with its entries.
fn router_of(alloc: Global, number: u32) -> Option<TableRouter>
    ensures inputs { IfSome result (λ router. AreLinks (table_inputs router) WIRES) }
    ensures outputs { IfSome result (λ router. AreLinks (table_outputs router) WIRES) }
{
    let chip = read_chip(alloc, PAIR.as_bytes()).ok()?;
    if chip.wires() == WIRES {
        router_on(alloc, &chip, number)
    } else {
        None
    }
}

// What the pair carries when its routers latch these flits from links 0 and 2 in a cycle: on links
// 4 and 5 in the next, and on links 3 and 1 in the one behind it.
fn crossing(alloc: Global, cycle: u32, sent: &[Option<Flit>; 2]) -> Option<[Option<Flit>; 4]> {
    let mut wires = Wires::new(alloc, WIRES).ok()?;
    wires.put(LinkId(0), sent[0]);
    wires.put(LinkId(2), sent[1]);
    crossing_on(alloc, cycle as u64, &mut wires)
}

// The same of what is on these wires.
fn crossing_on(alloc: Global, cycle: u64, wires: &mut Wires) -> Option<[Option<Flit>; 4]>
    requires wires { length wires.old ≡ WIRES }
    requires cycle { cycle < 2 ^ 32 }
{
    let mut first = router_of(alloc, 0)?;
    crossing_from(alloc, cycle, &mut first, wires)
}

// The same by way of this router, the first.
fn crossing_from(
    alloc: Global,
    cycle: u64,
    first: &mut TableRouter,
    wires: &mut Wires,
) -> Option<[Option<Flit>; 4]>
    requires inputs { AreLinks (table_inputs first.old) WIRES }
    requires outputs { AreLinks (table_outputs first.old) WIRES }
    requires wires { length wires.old ≡ WIRES }
    requires cycle { cycle < 2 ^ 32 }
{
    let mut second = router_of(alloc, 1)?;
    Some(crossed(cycle, first, &mut second, wires))
}

// The same by way of both routers.
fn crossed(
    cycle: u64,
    first: &mut TableRouter,
    second: &mut TableRouter,
    wires: &mut Wires,
) -> [Option<Flit>; 4]
    requires first_inputs { AreLinks (table_inputs first.old) WIRES }
    requires first_outputs { AreLinks (table_outputs first.old) WIRES }
    requires second_inputs { AreLinks (table_inputs second.old) WIRES }
    requires second_outputs { AreLinks (table_outputs second.old) WIRES }
    requires wires { length wires.old ≡ WIRES }
    requires cycle { cycle < 2 ^ 32 }
{
    first.latch(wires);
    second.latch(wires);
    wires.put(LinkId(0), None);
    wires.put(LinkId(2), None);
    first.drive(cycle + 1, wires);
    second.drive(cycle + 1, wires);
    let between = [wires.get(LinkId(4)), wires.get(LinkId(5))];
    first.latch(wires);
    second.latch(wires);
    first.drive(cycle + 2, wires);
    second.drive(cycle + 2, wires);
    [
        between[0],
        between[1],
        wires.get(LinkId(3)),
        wires.get(LinkId(1)),
    ]
}

// What the router `r0` passes on to links 1 and 4, in the cycle behind this one, of a flit from link 0.
fn passed(alloc: Global, cycle: u32, sent: Option<Flit>) -> Option<[Option<Flit>; 2]> {
    let mut onward = Onward::new(alloc, WIRES).ok()?;
    passed_by(alloc, cycle, sent, &mut onward)
}

// The same by way of this.
fn passed_by(
    alloc: Global,
    cycle: u32,
    sent: Option<Flit>,
    onward: &mut Onward,
) -> Option<[Option<Flit>; 2]>
    requires { length onward.old ≡ WIRES }
{
    pass_on(alloc, cycle.checked_add(1)?, sent?, onward)?;
    settled(alloc, onward)
}

// What comes to the wires is what it passes on in a cycle.
fn pass_on(alloc: Global, cycle: u32, sent: Flit, onward: &mut Onward) -> Option<()>
    requires { length onward.old ≡ WIRES }
    ensures { length onward.new ≡ WIRES }
{
    let part = Part::TableRouter(router_of(alloc, 0)?);
    part.pass(cycle, LinkId(0), sent, onward);
    Some(())
}

// A cycle, what is latched in it from links 0 and 2, what is driven then on links 4, 5, 3 and 1,
// and why. Header words and entries are worked by hand. What is passed on to link 4 is the same.
#[test]
fn a_flit_goes_on_by_the_table(rt: HostRuntime) {
    let there = flit(0x8000_0001, 100, 101);
    let back = flit(0x4000_0001, 200, 0);
    let there_hopped = flit(0x8000_0000, 100, 101);
    let back_hopped = flit(0x4000_0000, 200, 0);
    let rows = [
        (
            0,
            [there, back],
            [there_hopped, back_hopped, there_hopped, back_hopped],
            "slot 0, both ways",
        ),
        (
            12,
            [there, back],
            [there_hopped, None, there_hopped, None],
            "slot 4 of the next round, one way",
        ),
        (
            1,
            [there, back],
            [None, None, None, None],
            "a slot without entries",
        ),
        (
            0,
            [flit(0x8000_0008, 100, 101), None],
            [flit(0x8000_0001, 100, 101), None, there_hopped, None],
            "a header that names port 0 first",
        ),
    ];
    for (cycle, sent, wanted, why) in &rows {
        assert_eq!(rt; crossing(rt.alloc(), *cycle, sent), Some(*wanted), "{why}");
        assert_eq!(rt;
            passed(rt.alloc(), *cycle, sent[0]),
            Some([None, wanted[0]]),
            "{why}"
        );
    }
}

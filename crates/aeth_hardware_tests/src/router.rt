// What no clause says: that the definitions of routers and stages mean the rules.
ghost use Rattle.std.specs.Prelude.{◌≡◌, IfOk, IfSome, length};
ghost use Rattle.aeth_chip.specs.Wires.{wires_of};
ghost use Rattle.aeth_clocked.specs.Wires.{AreLinks};
ghost use Rattle.aeth_router.specs.Part.{outputs_of};
ghost use Rattle.aeth_router.specs.Router.{router_inputs, router_outputs};

use aeth_base::{LinkId, NoMemory, RouterId};
use aeth_chip::{Chip, read_chip};
use aeth_clocked::{Clocked, Flit, Wires};
use aeth_router::{Onward, Part, Router, Stage};
use std::alloc::Global;
use std::test::*;

// Two routers that send to each other, with an interface at each. Router `r0` receives on links 0
// and 5, and sends on links 1 and 4.
const PAIR: &str = "version = 1\nslots = 8\nrouters = ['r0', 'r1']\nnis = ['n0', 'n1']\n\
    link = [{ from = 'n0', to = 'r0' }, { from = 'r0', to = 'n0' },\n\
    { from = 'n1', to = 'r1' }, { from = 'r1', to = 'n1' },\n\
    { from = 'r0', to = 'r1' }, { from = 'r1', to = 'r0' }]\n";

// The same pair, where the link from `r0` to `r1` has a delay of two cycles: its second wire is 6.
const PAIR_WITH_DELAY: &str = "version = 2\nslots = 8\nrouters = ['r0', 'r1']\n\
    nis = ['n0', 'n1']\n\
    link = [{ from = 'n0', to = 'r0' }, { from = 'r0', to = 'n0' },\n\
    { from = 'n1', to = 'r1' }, { from = 'r1', to = 'n1' },\n\
    { from = 'r0', to = 'r1', delay = 2 }, { from = 'r1', to = 'r0' }]\n";

// A flit with a header and two words.
fn flit(header: u32, first: u32, second: u32) -> Option<Flit> {
    Some(Flit {
        header,
        first,
        second,
    })
}

// A router of a chip, whose wires are wires of the chip.
fn router_in(alloc: Global, chip: &Chip, number: u32) -> Result<Router, NoMemory>
    ensures inputs { IfOk result
        (λ router. AreLinks (router_inputs router) (wires_of chip.now.links)) }
    ensures outputs { IfOk result
        (λ router. AreLinks (router_outputs router) (wires_of chip.now.links)) }
{
    let _slots = chip.slots();
    let router = Router::new(alloc, chip, RouterId(number))?;
    Ok(router)
}

// A router of a chip that has so many wires.
fn router_of(alloc: Global, text: &str, number: u32, wires: u32) -> Option<Router>
    ensures inputs { IfSome result (λ router. AreLinks (router_inputs router) wires) }
    ensures outputs { IfSome result (λ router. AreLinks (router_outputs router) wires) }
{
    let chip = read_chip(alloc, text.as_bytes()).ok()?;
    router_with(alloc, &chip, number, wires)
}

// The same of this chip.
fn router_with(alloc: Global, chip: &Chip, number: u32, wires: u32) -> Option<Router>
    ensures inputs { IfSome result (λ router. AreLinks (router_inputs router) wires) }
    ensures outputs { IfSome result (λ router. AreLinks (router_outputs router) wires) }
{
    if chip.wires() == wires {
        router_in(alloc, chip, number).ok()
    } else {
        None
    }
}

// What the router `r0` of `PAIR` drives on links 1 and 4 when it has latched these flits from
// links 0 and 5.
fn driven(alloc: Global, latched: &[Option<Flit>; 2]) -> Option<[Option<Flit>; 2]> {
    let mut wires = Wires::new(alloc, 6).ok()?;
    driven_on(alloc, &mut wires, latched)
}

// The same on these wires.
fn driven_on(
    alloc: Global,
    wires: &mut Wires,
    latched: &[Option<Flit>; 2],
) -> Option<[Option<Flit>; 2]>
    requires { length wires.old ≡ 6 }
{
    wires.put(LinkId(0), latched[0]);
    wires.put(LinkId(5), latched[1]);
    turn(alloc, PAIR, 0, 0, wires, 6)?;
    Some([wires.get(LinkId(1)), wires.get(LinkId(4))])
}

// A fresh router of a chip latches the chip's wires, so many, and drives in a cycle.
fn turn(
    alloc: Global,
    text: &str,
    number: u32,
    cycle: u64,
    wires: &mut Wires,
    count: u32,
) -> Option<()>
    requires { length wires.old ≡ count }
    ensures { length wires.new ≡ count }
{
    let mut router = router_of(alloc, text, number, count)?;
    router.latch(wires);
    router.drive(cycle, wires);
    Some(())
}

// What the router `r0` of `PAIR` passes on to links 1 and 4 when these flits come from links 0 and 5,
// one after the other.
fn passed(alloc: Global, latched: &[Option<Flit>; 2]) -> Option<[Option<Flit>; 2]> {
    let mut onward = Onward::new(alloc, 6).ok()?;
    pass_on(alloc, latched, &mut onward)?;
    settled(alloc, &mut onward)
}

// What comes to the wires is what it passes on.
fn pass_on(alloc: Global, latched: &[Option<Flit>; 2], onward: &mut Onward) -> Option<()>
    requires { length onward.old ≡ 6 }
    ensures { length onward.new ≡ 6 }
{
    let part = Part::Router(router_of(alloc, PAIR, 0, 6)?);
    pass_both(&part, latched, onward);
    Some(())
}

// A component passes on these flits from links 0 and 5.
fn pass_both(part: &Part, latched: &[Option<Flit>; 2], onward: &mut Onward)
    requires links { AreLinks (outputs_of part.now) 6 }
    requires size { length onward.old ≡ 6 }
    ensures { length onward.new ≡ 6 }
{
    if let Some(flit) = latched[0] {
        part.pass(0, LinkId(0), flit, onward);
    }
    if let Some(flit) = latched[1] {
        part.pass(0, LinkId(5), flit, onward);
    }
}

// What links 1 and 4 carry of what has come to six wires.
pub(crate) fn settled(alloc: Global, onward: &mut Onward) -> Option<[Option<Flit>; 2]>
    requires { length onward.old ≡ 6 }
{
    let mut wires = Wires::new(alloc, 6).ok()?;
    onward.settle(&mut wires);
    Some([wires.get(LinkId(1)), wires.get(LinkId(4))])
}

// What `PAIR_WITH_DELAY` carries on links 4, 6 and 3, in a cycle each, when `r0` has latched this
// flit from link 0: it leaves `r0`, the stage behind link 4, and `r1`.
fn crossing(alloc: Global, latched: Option<Flit>) -> Option<[Option<Flit>; 3]> {
    let mut wires = Wires::new(alloc, 7).ok()?;
    crossing_on(alloc, &mut wires, latched)
}

// The same on these wires.
fn crossing_on(alloc: Global, wires: &mut Wires, latched: Option<Flit>) -> Option<[Option<Flit>; 3]>
    requires { length wires.old ≡ 7 }
{
    wires.put(LinkId(0), latched);
    turn(alloc, PAIR_WITH_DELAY, 0, 1, wires, 7)?;
    let entered = wires.get(LinkId(4));
    let mut stage = Stage::new(LinkId(4), LinkId(6));
    stage.latch(wires);
    wires.put(LinkId(4), None);
    stage.drive(2, wires);
    let reached = wires.get(LinkId(6));
    turn(alloc, PAIR_WITH_DELAY, 1, 3, wires, 7)?;
    Some([entered, reached, wires.get(LinkId(3))])
}

// What is latched from links 0 and 5, what is driven on links 1 and 4, and why. What is passed on is
// the same.
#[test]
fn a_flit_goes_on_by_its_port(rt: HostRuntime) {
    let rows = [
        (
            [flit(0x8000_0001, 100, 101), None],
            [None, flit(0x8000_0000, 100, 101)],
            "port 1",
        ),
        (
            [flit(0x8D20_0009, 100, 101), flit(0x4000_0000, 200, 0)],
            [flit(0x4000_0000, 200, 0), flit(0x8D20_0001, 100, 101)],
            "a port each",
        ),
        (
            [flit(0x8000_0000, 100, 101), flit(0x4000_0008, 200, 0)],
            [None, None],
            "one port for two flits",
        ),
        (
            [flit(0x8000_0005, 100, 101), None],
            [None, None],
            "a port past the last",
        ),
    ];
    for (latched, wanted, why) in &rows {
        assert_eq!(rt; driven(rt.alloc(), latched), Some(*wanted), "{why}");
        assert_eq!(rt; passed(rt.alloc(), latched), Some(*wanted), "{why}");
    }
}

// By ports 1 and 0 a flit crosses the pair, over both wires of the link between the routers.
#[test]
fn a_flit_crosses_a_link_with_a_delay(rt: HostRuntime) {
    let carried = crossing(rt.alloc(), flit(0x8000_0001, 100, 101));
    let hopped = flit(0x8000_0000, 100, 101);
    assert_eq!(rt; carried, Some([hopped, hopped, hopped]));
}

// What a stage from wire 0 to wire 1 drives in two cycles when it has latched this flit.
fn passed_on(alloc: Global, latched: Option<Flit>) -> Result<[Option<Flit>; 2], NoMemory> {
    let mut wires = Wires::new(alloc, 2)?;
    Ok(staged(&mut wires, latched))
}

// The same on these wires.
fn staged(wires: &mut Wires, latched: Option<Flit>) -> [Option<Flit>; 2]
    requires { length wires.old ≡ 2 }
{
    let mut stage = Stage::new(LinkId(0), LinkId(1));
    wires.put(LinkId(0), latched);
    stage.latch(wires);
    stage.drive(0, wires);
    let first = wires.get(LinkId(1));
    stage.drive(1, wires);
    [first, wires.get(LinkId(1))]
}

// A stage drives a flit in the next cycle, unchanged, and in that cycle alone.
#[test]
fn a_stage_delays_by_one_cycle(rt: HostRuntime) -> Result<(), Fail> {
    for latched in [None, flit(0x8000_0001, 100, 101)] {
        let driven = passed_on(rt.alloc(), latched)?;
        assert_eq!(rt; driven, [latched, None], "{latched:?}");
    }
    Ok(())
}

// What no clause says: that words land where flits bring them, by routers that read headers and by routers that look
// a table up.
ghost use Rattle.std.specs.Prelude.{◌≡◌, ◌≤◌, ◌<◌, ◌+◌, Some, length, slice_get};
ghost use Rattle.aeth_base.specs.Limits.{max_cycles};
ghost use Rattle.aeth_components.specs.Components.{wirings_of};
ghost use Rattle.aeth_components.specs.Wirings.{wiring_of};
ghost use Rattle.aeth_components.specs.Making.{made_router};
ghost use Rattle.aeth_components.specs.declared.making.RouterKind.TheVariants.{ByHeader};

use crate::pair::{PAIR, fresh_router, pair_of};
use aeth_chip::{Chip, read_chip};
use aeth_clocked::Order;
use aeth_components::Components;
use std::alloc::Global;
use std::test::*;

// Which routers send on by a table, which of the four components is the first in the order, and which router is
// replaced, if one is.
#[derive(Clone, Copy)]
struct Case {
    by_table: bool,
    first: u32,
    lost: Option<u32>,
}

// The pair goes through cycles, in which its components take their turns in an order.
fn play(pair: &mut Components, order: &Order, from: u32, to: u32)
    requires order { length order.now ≡ length pair.old.parts }
    requires few { to ≤ max_cycles }
    ensures { wirings_of pair.new ≡ wirings_of pair.old }
{
    for cycle in from..to {
        pair.step(order, cycle, &[]);
    }
}

// The pair goes through cycles, unless there is no memory for an order.
fn played(alloc: Global, pair: &mut Components, first: u32, from: u32, to: u32) -> bool
    requires { to ≤ max_cycles }
    ensures { wirings_of pair.new ≡ wirings_of pair.old }
{
    let Ok(order) = Order::rotation(alloc, 4, first) else {
        return false;
    };
    if pair.len() != 4 {
        return false;
    }
    play(pair, &order, from, to);
    true
}

// A fresh router takes the place of the router of a number, and what that one holds is lost.
fn put_fresh(alloc: Global, chip: &Chip, pair: &mut Components, number: u32, by_table: bool) -> bool
    requires few { number < 2 }
    requires wiring { slice_get (wirings_of pair.old) (2 + number)
        ≡ Some (wiring_of (made_router chip.now ByHeader number)) }
{
    match fresh_router(alloc, chip, number, by_table) {
        Some(router) => pair.replace(alloc, 2 + number as usize, router).is_ok(),
        None => false,
    }
}

// So it does where one is to be replaced.
fn put_where(alloc: Global, chip: &Chip, pair: &mut Components, case: Case) -> bool
    requires first { slice_get (wirings_of pair.old) 2
        ≡ Some (wiring_of (made_router chip.now ByHeader 0)) }
    requires second { slice_get (wirings_of pair.old) 3
        ≡ Some (wiring_of (made_router chip.now ByHeader 1)) }
{
    match case.lost {
        None => true,
        Some(0) => put_fresh(alloc, chip, pair, 0, case.by_table),
        Some(_) => put_fresh(alloc, chip, pair, 1, case.by_table),
    }
}

// 20 cycles. Before cycle 5 two flits are under way: the first router holds the one that goes forth, and the second the
// one that goes back. A fresh router takes the place of one of them, or of none.
fn carry(alloc: Global, chip: &Chip, pair: &mut Components, case: Case) -> bool
    requires first { slice_get (wirings_of pair.old) 2
        ≡ Some (wiring_of (made_router chip.now ByHeader 0)) }
    requires second { slice_get (wirings_of pair.old) 3
        ≡ Some (wiring_of (made_router chip.now ByHeader 1)) }
{
    if !played(alloc, pair, case.first, 0, 5) || !put_where(alloc, chip, pair, case) {
        return false;
    }
    played(alloc, pair, case.first, 5, 20)
}

// The cycles in which the words landed, five forth and three back, and the flits on each link.
type Log = ([u32; 8], [u32; 6]);

fn landings_of(pair: &Components) -> Option<[u32; 8]> {
    match pair.landings() {
        [a, b, c, d, e, f, g, h] => Some([*a, *b, *c, *d, *e, *f, *g, *h]),
        _ => None,
    }
}

fn flits_of(pair: &Components) -> Option<[u32; 6]> {
    match pair.flits() {
        [a, b, c, d, e, f] => Some([*a, *b, *c, *d, *e, *f]),
        _ => None,
    }
}

fn log_of(pair: &Components) -> Option<Log> {
    Some((landings_of(pair)?, flits_of(pair)?))
}

fn carried(alloc: Global, chip: &Chip, pair: &mut Components, case: Case) -> Option<Log>
    requires first { slice_get (wirings_of pair.old) 2
        ≡ Some (wiring_of (made_router chip.now ByHeader 0)) }
    requires second { slice_get (wirings_of pair.old) 3
        ≡ Some (wiring_of (made_router chip.now ByHeader 1)) }
{
    if carry(alloc, chip, pair, case) {
        log_of(pair)
    } else {
        None
    }
}

// The log of the pair after 20 cycles.
fn logged_on(alloc: Global, chip: &Chip, case: Case) -> Option<Log>
    requires nis { length chip.now.nis ≡ 2 }
    requires routers { length chip.now.routers ≡ 2 }
    requires slots { chip.now.slots ≡ 8 }
{
    let mut pair = pair_of(alloc, chip, case.by_table)?;
    carried(alloc, chip, &mut pair, case)
}

// The same on a chip that may be another.
fn logged_there(alloc: Global, chip: &Chip, case: Case) -> Option<Log> {
    if chip.nis() == 2 && chip.routers() == 2 && chip.slots() == 8 {
        logged_on(alloc, chip, case)
    } else {
        None
    }
}

fn logged(alloc: Global, case: Case) -> Option<Log> {
    let chip = read_chip(alloc, PAIR.as_bytes()).ok()?;
    logged_there(alloc, &chip, case)
}

// Flits go forth in cycles 4, 8 and 12, and back in cycles 4 and 12. Each lands 3 cycles later. In cycle 16 one goes
// forth with a credit alone, for the last word that came back. Where a router is replaced just the flit of cycle 4 that
// it holds is lost, with two words: the channel lands so many fewer, and the links behind that router carry one flit
// less. A network that told its log from anything but its components would still note all words.
static CASES: [(Option<u32>, Log); 3] = [
    (None, ([7, 7, 11, 11, 15, 7, 7, 15], [4, 2, 2, 4, 4, 2])),
    (Some(0), ([11, 11, 15, 0, 0, 7, 7, 15], [4, 2, 2, 3, 3, 2])),
    (Some(1), ([7, 7, 11, 11, 15, 15, 0, 0], [4, 1, 2, 4, 4, 1])),
];

// In each of four orders the log is the same.
#[test]
fn parts_carry_the_words(rt: HostRuntime) {
    for &(lost, log) in &CASES {
        for first in 0..4 {
            let case = Case {
                by_table: false,
                first,
                lost,
            };
            assert_eq!(rt; logged(rt.alloc(), case), Some(log));
        }
    }
}

// The same where the routers look tables up.
#[test]
fn tables_carry_the_words(rt: HostRuntime) {
    for &(lost, log) in &CASES {
        for first in 0..4 {
            let case = Case {
                by_table: true,
                first,
                lost,
            };
            assert_eq!(rt; logged(rt.alloc(), case), Some(log));
        }
    }
}

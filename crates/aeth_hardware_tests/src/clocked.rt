// Components that take turns in any order, and which lists are orders.
ghost use Rattle.std.specs.Prelude.{◌<◌, ◌≡◌, length};

use aeth_base::{LinkId, NoMemory};
use aeth_clocked::{Flit, Order, Wires, drive_all, latch_all};
use aeth_router::Stage;
use std::alloc::Global;
use std::test::*;

const FIRST: Option<Flit> = Some(Flit {
    header: 1,
    first: 10,
    second: 11,
});

const SECOND: Option<Flit> = Some(Flit {
    header: 2,
    first: 20,
    second: 0,
});

// What three links have after a cycle of two stages in a ring.
fn exchanged(wires: &mut Wires, order: &Order) -> [Option<Flit>; 3]
    requires wires { length wires.old ≡ 3 }
    requires order { length order.now ≡ 2 }
{
    let mut parts = [
        Stage::new(LinkId(1), LinkId(0)),
        Stage::new(LinkId(0), LinkId(1)),
    ];
    wires.put(LinkId(0), FIRST);
    wires.put(LinkId(1), SECOND);
    wires.put(LinkId(2), FIRST);
    latch_all(&mut parts, order, wires);
    drive_all(&mut parts, order, 0, wires);
    [
        wires.get(LinkId(0)),
        wires.get(LinkId(1)),
        wires.get(LinkId(2)),
    ]
}

// The same where the stage with this number has the first turn.
fn exchanged_by(alloc: Global, turn: u32) -> Result<[Option<Flit>; 3], NoMemory> {
    let order = Order::rotation(alloc, 2, turn)?;
    exchanged_in(alloc, &order)
}

// The same in this order.
fn exchanged_in(alloc: Global, order: &Order) -> Result<[Option<Flit>; 3], NoMemory>
    requires { length order.now ≡ 2 }
{
    let mut wires = Wires::new(alloc, 3)?;
    Ok(exchanged(&mut wires, order))
}

// Two stages in a ring exchange what they hold in each cycle, whoever comes first, and leave
// link 2 alone.
#[test]
fn a_ring_exchanges_its_flits(rt: HostRuntime) -> Result<(), Fail> {
    for turn in [0, 1] {
        assert_eq!(rt;
            exchanged_by(rt.alloc(), turn)?,
            [SECOND, FIRST, FIRST],
            "turn {turn}"
        );
    }
    Ok(())
}

// Lists, and whether they are orders.
static LISTS: [(&[u32], bool); 6] = [
    (&[], true),
    (&[2, 0, 1], true),
    (&[0, 2, 2], false),
    (&[0, 1, 3], false),
    (&[1, 2], false),
    (&[0, 1, 2, 0], false),
];

// Counts, turns, and the rotations.
static ROTATIONS: [(u32, u32, &[u32]); 3] = [
    (3, 1, &[1, 2, 0]),
    (3, 4_294_967_294, &[2, 0, 1]),
    (1, 7, &[0]),
];

fn is_order(alloc: Global, list: &[u32]) -> Result<bool, NoMemory> {
    Ok(Order::of(list.to_vec(alloc)?).is_some())
}

// Whether a rotation has these numbers.
fn rotates_to(alloc: Global, count: u32, turn: u32, numbers: &[u32]) -> Result<bool, NoMemory>
    requires { 0 < count }
{
    let order = Order::rotation(alloc, count, turn)?;
    Ok(has_numbers(&order, numbers))
}

fn has_numbers(order: &Order, numbers: &[u32]) -> bool {
    if order.len() as usize != numbers.len() {
        return false;
    }
    for (place, number) in numbers.iter().enumerate() {
        if order.at(place as u32) != *number {
            return false;
        }
    }
    true
}

// The place of the first list that is an order where it should be none, or none where it should be one.
fn wrong_list(alloc: Global) -> Result<Option<usize>, NoMemory> {
    for (place, (list, wanted)) in LISTS.iter().enumerate() {
        if is_order(alloc, list)? != *wanted {
            return Ok(Some(place));
        }
    }
    Ok(None)
}

// The place of the first rotation that has other numbers.
fn wrong_rotation(alloc: Global) -> Result<Option<usize>, NoMemory> {
    for (place, (count, turn, numbers)) in ROTATIONS.iter().enumerate() {
        if !rotates_to(alloc, *count, *turn, numbers)? {
            return Ok(Some(place));
        }
    }
    Ok(None)
}

#[test]
fn orders_have_each_number_once(rt: HostRuntime) -> Result<(), Fail> {
    assert_eq!(rt; wrong_list(rt.alloc())?, None);
    assert_eq!(rt; wrong_rotation(rt.alloc())?, None);
    Ok(())
}

// What no clause says: that the definitions of network interfaces mean the rules.
ghost use Rattle.std.specs.Prelude.{◌≡◌, length};
ghost use Rattle.aeth_base.specs.Limits.{max_slots};
ghost use Rattle.aeth_hardware_tests.specs.declared.interface.TheConstants.{NUMBER, LEAVING};
ghost use Rattle.aeth_hardware_tests.specs.declared.interface.TheConstants.{ENTERING};

use aeth_base::{LinkId, NiId, NoMemory};
use aeth_clocked::{Clocked, Flit, Wires};
use aeth_ni::{Ni, Write};
use std::alloc::Global;
use std::test::*;

const NUMBER: NiId = NiId(5);

const LEAVING: LinkId = LinkId(0);

const ENTERING: LinkId = LinkId(1);

const SLOTS: u32 = 128;

const QUEUES: u8 = 32;

// An interface with the widest slot table, between two links.
#[derive(Drop)]
struct Bench {
    ni: Ni,
    wires: Wires,
    ghost number: { ni.number ≡ NUMBER },
    ghost leaving: { ni.leaving ≡ LEAVING },
    ghost entering: { ni.entering ≡ ENTERING },
    ghost slots: { length ni.entries ≡ max_slots },
    ghost links: { length wires ≡ 2 },
}

// A call on the interface of a bench, and what it is to answer.
#[derive(Clone, Copy)]
enum Step {
    // The queue, its remote queue and its counter; the route is 1.
    SetRoute(u8, u8, u32),
    ClearRoute(u8),
    SetSlot(u32, u8),
    ClearSlot(u32),
    // The queue, the word, and whether it is taken.
    Offer(u8, u32, bool),
    // The queue, and the word that it gives.
    Take(u8, Option<u32>),
    Halt(u8),
    Finish(u8),
    // The cycle, and the header and words on the leaving link.
    Drive(u64, Option<[u32; 3]>),
    // The header and words on the entering link, and the queue and word count that are told.
    Latch([u32; 3], Option<(u8, u8)>),
}

use Step::{ClearRoute, ClearSlot, Drive, Finish, Halt, Latch, Offer, SetRoute, SetSlot, Take};

impl Bench {
    // All queues are empty, and each receive queue has room for so many words.
    fn new(alloc: Global, room: u32) -> Result<Bench, NoMemory> {
        let ni = Ni::new(alloc, NUMBER, LEAVING, ENTERING, SLOTS, &[room; 32])?;
        let wires = Wires::new(alloc, 2)?;
        Ok(Bench { ni, wires })
    }

    // Whether a step is answered as it is to be.
    fn answers(&mut self, step: Step) -> bool {
        match step {
            SetRoute(queue, remote, credits) => self.set_route(queue, remote, credits),
            ClearRoute(queue) => self.clear_route(queue),
            SetSlot(slot, queue) => self.set_slot(slot, queue),
            ClearSlot(slot) => self.clear_slot(slot),
            Offer(queue, word, taken) => self.offers(queue, word, taken),
            Take(queue, word) => self.gives(queue, word),
            Halt(queue) => self.halt(queue),
            Finish(queue) => self.finish(queue),
            Drive(cycle, flit) => self.drives(cycle, flit),
            Latch(flit, last) => self.latches(flit, last),
        }
    }

    fn set_route(&mut self, queue: u8, remote: u8, credits: u32) -> bool {
        if queue >= QUEUES || remote >= QUEUES {
            return false;
        }
        self.ni.write(&Write::SetRoute {
            ni: NUMBER,
            queue,
            route: 1,
            remote,
            credits,
        });
        true
    }

    fn clear_route(&mut self, queue: u8) -> bool {
        if queue >= QUEUES {
            return false;
        }
        self.ni.write(&Write::ClearRoute { ni: NUMBER, queue });
        true
    }

    fn set_slot(&mut self, slot: u32, queue: u8) -> bool {
        if slot >= SLOTS || queue >= QUEUES {
            return false;
        }
        self.ni.write(&Write::SetSlot {
            ni: NUMBER,
            slot,
            queue,
        });
        true
    }

    fn clear_slot(&mut self, slot: u32) -> bool {
        if slot >= SLOTS {
            return false;
        }
        self.ni.write(&Write::ClearSlot { ni: NUMBER, slot });
        true
    }

    fn offers(&mut self, queue: u8, word: u32, taken: bool) -> bool {
        queue < QUEUES && self.ni.offer(queue, word) == taken
    }

    fn gives(&mut self, queue: u8, word: Option<u32>) -> bool {
        queue < QUEUES && self.ni.take(queue) == word
    }

    fn halt(&mut self, queue: u8) -> bool {
        if queue >= QUEUES {
            return false;
        }
        self.ni.halt(queue);
        true
    }

    fn finish(&mut self, queue: u8) -> bool {
        if queue >= QUEUES {
            return false;
        }
        self.ni.finish(queue);
        true
    }

    fn drives(&mut self, cycle: u64, flit: Option<[u32; 3]>) -> bool {
        let is_mute = self.ni.is_mute(cycle);
        self.ni.drive(cycle, &mut self.wires);
        let words = match self.wires.get(LEAVING) {
            Some(flit) => Some([flit.header, flit.first, flit.second]),
            None => None,
        };
        words == flit && is_mute == flit.is_none()
    }

    fn latches(&mut self, [header, first, second]: [u32; 3], last: Option<(u8, u8)>) -> bool {
        let flit = Flit {
            header,
            first,
            second,
        };
        self.wires.put(ENTERING, Some(flit));
        self.ni.latch(&self.wires);
        self.ni.last() == last
    }
}

// With counter 1 one of two words is sent in the queue's slot, and one waits for a credit.
static A_WORD_IS_HELD_BACK: [Step; 9] = [
    SetRoute(0, 3, 1),
    SetSlot(2, 0),
    Offer(0, 100, true),
    Offer(0, 101, true),
    Drive(1, None),
    // Route 1, queue 3, no credit and one word.
    Drive(130, Some([0x4060_0001, 100, 0])),
    Drive(258, None),
    // One credit comes back, and the word that waited goes.
    Latch([0x0400_0000, 0, 0], Some((0, 0))),
    Drive(2, Some([0x4060_0001, 101, 0])),
];

// Four words land in queue 9, of which the newest three stay. Credits go back, without a word
// beside them.
static TAKEN_WORDS_RETURN: [Step; 11] = [
    SetRoute(9, 31, 0),
    SetSlot(0, 9),
    Latch([0x8120_0000, 1, 2], Some((9, 2))),
    Latch([0x8120_0000, 3, 4], Some((9, 2))),
    // A payload count of 3 is no flit.
    Latch([0xC120_0000, 5, 6], None),
    Take(9, Some(2)),
    Take(9, Some(3)),
    Take(9, Some(4)),
    Take(9, None),
    Drive(0, Some([0x0FE0_0001, 0, 0])),
    Drive(128, None),
];

// A full source queue in the last slot, a halt, a finish, and tables that are cleared.
static NOTHING_IS_SENT: [Step; 29] = [
    SetRoute(7, 7, 65_535),
    SetSlot(127, 7),
    Offer(7, 10, true),
    Offer(7, 11, true),
    Offer(7, 12, true),
    Offer(7, 13, true),
    Offer(7, 14, true),
    Offer(7, 15, true),
    Offer(7, 16, true),
    Offer(7, 17, true),
    Offer(7, 18, false),
    Drive(63, None),
    Drive(126, None),
    Drive(128, None),
    Halt(7),
    Drive(127, None),
    // The route is set again: route 1, queue 7, two words.
    SetRoute(7, 7, 2),
    Drive(127, Some([0x80E0_0001, 10, 11])),
    Drive(255, None),
    SetRoute(7, 7, 2),
    ClearSlot(127),
    Drive(127, None),
    SetSlot(127, 7),
    ClearRoute(7),
    Drive(127, None),
    SetRoute(7, 7, 2),
    Finish(7),
    SetRoute(7, 7, 2),
    Drive(127, None),
];

// The place of the first step that isn't answered as it is to be, where each receive queue has
// room for so many words.
fn first_wrong(alloc: Global, room: u32, steps: &[Step]) -> Result<Option<usize>, NoMemory> {
    let mut bench = Bench::new(alloc, room)?;
    for (place, step) in steps.iter().enumerate() {
        if !bench.answers(*step) {
            return Ok(Some(place));
        }
    }
    Ok(None)
}

#[test]
fn interfaces_send_and_land(rt: HostRuntime) -> Result<(), Fail> {
    let rows: [(u32, &[Step], &str); 3] = [
        (4, &A_WORD_IS_HELD_BACK, "a word is held back"),
        (3, &TAKEN_WORDS_RETURN, "taken words return"),
        (0, &NOTHING_IS_SENT, "nothing is sent"),
    ];
    for (room, steps, why) in &rows {
        assert_eq!(rt; first_wrong(rt.alloc(), *room, steps)?, None, "{why}");
    }
    Ok(())
}

// What a cycle needs beside the components.

ghost use Rattle.std.specs.Prelude.{◌≡◌, ℕ, IfOk, List, None, map, replicate};
ghost use Rattle.aeth_chip.specs.Wires.{wires_of};
ghost use Rattle.aeth_components.specs.Wirings.{wiring_of};
ghost use Rattle.aeth_components.specs.Injecting.{AreInjecting};
ghost use Rattle.aeth_components.specs.Making.{new_parts};
ghost use Rattle.aeth_components.specs.Passing.{way_of};
ghost use Rattle.aeth_components.specs.Ready.{AreReady};

use crate::ends::Ends;
use crate::forwarding::forwardings_of;
use crate::injecting::Injecting;
use crate::making::RouterKind;
use aeth_base::NoMemory;
use aeth_chip::Chip;
use aeth_router::{Forwarding, Onward, Part};
use std::alloc::Global;

// Who is at the ends of wires, and what of a cycle is known from the one before.
#[derive(Drop)]
pub(crate) struct Turns {
    pub ends: Ends,
    // How each component sends flits on in every cycle alike.
    pub forwarding: Vec<Forwarding>,
    // The interfaces that may send in a slot.
    pub injecting: Injecting,
    // How many flits are on the wires, and where those go on that don't wait for a table.
    pub flits: u32,
    pub onward: Onward,
    // Whether routers have tables.
    pub has_tables: bool,
}

impl Turns {
    // Those of the components of a chip with routers of a kind, before the first cycle. Later calls take no
    // memory.
    pub(crate) fn new(
        alloc: Global,
        chip: &Chip,
        kind: RouterKind,
        parts: &[Part],
    ) -> Result<Turns, NoMemory>
        ensures ready { IfOk result (λ turns. (rooms : List ℕ)
            → parts.now ≡ new_parts chip.now kind rooms → AreReady
            (map wiring_of (new_parts chip.now kind rooms))
            (map way_of (new_parts chip.now kind rooms))
            (replicate (wires_of chip.now.links) None) turns) }
        ensures injecting { IfOk result (λ turns. (rooms : List ℕ) → AreInjecting
            (new_parts chip.now kind rooms) turns.injecting) }
    {
        let slots = chip.slots();
        let ends = Ends::of(alloc, chip)?;
        let injecting = Injecting::none(alloc, slots, ends.parts)?;
        let forwarding = forwardings_of(alloc, parts)?;
        Ok(Turns {
            ends,
            forwarding,
            injecting,
            flits: 0,
            onward: Onward::new(alloc, chip.wires())?,
            has_tables: matches!(kind, RouterKind::ByTable),
        })
    }
}

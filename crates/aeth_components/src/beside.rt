// What is made beside the components and the channels.

ghost use Rattle.std.specs.Prelude.{◌≡◌, ℕ, IfOk, List, None, length, map, replicate};
ghost use Rattle.aeth_chip.specs.Wires.{wires_of};
ghost use Rattle.aeth_components.specs.Wirings.{wiring_of};
ghost use Rattle.aeth_components.specs.Enqueuing.{AreEnqueuing};
ghost use Rattle.aeth_components.specs.Injecting.{AreInjecting};
ghost use Rattle.aeth_components.specs.Making.{new_parts};
ghost use Rattle.aeth_components.specs.Passing.{way_of};
ghost use Rattle.aeth_components.specs.Ready.{AreReady};
ghost use Rattle.aeth_router.specs.declared.part.Part.{Part as PartState};

use crate::channels::Channels;
use crate::counts::Counts;
use crate::enqueuing::Enqueuing;
use crate::making::RouterKind;
use crate::turns::Turns;
use aeth_base::NoMemory;
use aeth_chip::Chip;
use aeth_clocked::Wires;
use aeth_router::Part;
use std::alloc::Global;

// The wires, what a cycle needs, which channels enqueue words, and what is counted.
#[derive(Drop)]
pub(crate) struct Beside {
    pub counts: Counts,
    pub enqueuing: Enqueuing,
    pub wires: Wires,
    pub turns: Turns,
}

impl Beside {
    // That of a chip with routers of a kind and of channels, before the first cycle.
    pub(crate) fn of(
        alloc: Global,
        chip: &Chip,
        kind: RouterKind,
        parts: &[Part],
        channels: &Channels,
    ) -> Result<Beside, NoMemory>
        ensures landings { IfOk result (λ made.
            made.counts.landings.items ≡ replicate (length channels.now.words) 0) }
        ensures flits { IfOk result (λ made.
            made.counts.flits.items ≡ replicate (length chip.now.links) 0) }
        ensures enqueuing { IfOk result (λ made. (parts : List PartState)
            → AreEnqueuing parts channels.now.channel_states made.enqueuing) }
        ensures wires { IfOk result (λ made.
            made.wires ≡ replicate (wires_of chip.now.links) None) }
        ensures ready { IfOk result (λ made. (rooms : List ℕ)
            → parts.now ≡ new_parts chip.now kind rooms → AreReady
            (map wiring_of (new_parts chip.now kind rooms))
            (map way_of (new_parts chip.now kind rooms))
            (replicate (wires_of chip.now.links) None) made.turns) }
        ensures injecting { IfOk result (λ made. (rooms : List ℕ) → AreInjecting
            (new_parts chip.now kind rooms) made.turns.injecting) }
    {
        let counts = Counts::new(alloc, channels.count_words(), chip.links() as usize)?;
        let enqueuing = Enqueuing::new(alloc, channels.channel_states().len())?;
        let wires = Wires::new(alloc, chip.wires())?;
        let turns = Turns::new(alloc, chip, kind, parts)?;
        Ok(Beside {
            counts,
            enqueuing,
            wires,
            turns,
        })
    }
}

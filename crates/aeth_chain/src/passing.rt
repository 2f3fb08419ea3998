// What a core passes on.
ghost use Rattle.std.specs.Prelude.{◌≡◌, ◌≤◌, ◌<◌, ◌+◌, ◌++◌, ◌∷◌, [], IfOk, OnOk, if◌then◌else◌};
ghost use Rattle.std.specs.Prelude.{length, nat_lt};
ghost use Rattle.aeth_server.specs.WordCycles.{taking_cycle};
ghost use Rattle.aeth_chain.specs.ChainRun.{offer_behind, passed_on};
ghost use Rattle.aeth_chain.specs.Lanes.{IsLane, leg_in, server_in, taking_cycles};

use crate::lane::{Lane, word_cycles};
use aeth_base::NoMemory;
use std::alloc::Global;

/// A word that is offered on a channel: in which cycle, and its value.
#[derive(Clone, Copy)]
pub struct Offer {
    pub cycle: u32,
    pub value: u32,
}

// Appends an offer that comes within the run.
pub(crate) fn push_within(
    offers: &mut Vec<Offer>,
    offer: Offer,
    cycles: u32,
) -> Result<(), NoMemory>
    ensures { OnOk result (offers.new.items
        ≡ offers.old.items ++ (if nat_lt offer.cycle cycles then offer ∷ [] else [])) }
{
    if offer.cycle >= cycles {
        return Ok(());
    }
    offers.push(offer)?;
    Ok(())
}

// What the core at the end of a lane offers of a word that is taken in a cycle.
fn offer_behind(lane: &Lane, place: usize, taken: u32) -> Offer
    requires lane { IsLane lane.now }
    requires place { place < length lane.now.offers.now }
    requires taken { taken ≡ taking_cycle (server_in lane.now) lane.now.cycles (place + 1) }
    requires within { taken ≤ lane.now.cycles }
    ensures { result ≡ offer_behind lane.now.receivers.now lane.now.cycles (leg_in lane.now)
        lane.now.offers.now place }
{
    Offer {
        cycle: taken + lane.item.work,
        value: lane.offers[place].value,
    }
}

// What it offers within the run, where its words are taken in these cycles.
fn offers_behind(alloc: Global, lane: &Lane, taken: &[u32]) -> Result<Vec<Offer>, NoMemory>
    requires lane { IsLane lane.now }
    requires taken { taken.now ≡ taking_cycles (server_in lane.now) lane.now.cycles
        (length lane.now.offers.now) }
    ensures { IfOk result (λ passed. passed.items ≡ passed_on lane.now.receivers.now
        lane.now.cycles (leg_in lane.now) lane.now.offers.now) }
{
    let mut passed = Vec::with_capacity(alloc, taken.len())?;
    for place in 0..taken.len() {
        let offer = offer_behind(lane, place, taken[place]);
        push_within(&mut passed, offer, lane.cycles)?;
    }
    Ok(passed)
}

// What the core at the end of a lane offers within the run.
pub(crate) fn passed_on(alloc: Global, lane: &Lane) -> Result<Vec<Offer>, NoMemory>
    requires { IsLane lane.now }
    ensures { IfOk result (λ passed. passed.items ≡ passed_on lane.now.receivers.now
        lane.now.cycles (leg_in lane.now) lane.now.offers.now) }
{
    let words = word_cycles(alloc, lane)?;
    offers_behind(alloc, lane, &words.taken)
}

// Running a chain, channel by channel.
ghost use Rattle.std.specs.Prelude.{◌≡◌, ◌≤◌, ◌++◌, ℕ, All, IfOk, OnOk, filter, length, map, nat_lt};
ghost use Rattle.aeth_base.specs.Limits.{max_cycles};
ghost use Rattle.aeth_server.specs.ChannelShape.{IsShapeInRange, shape_of};
ghost use Rattle.aeth_server.specs.Shape.{IsGranted};
ghost use Rattle.aeth_trace.specs.Words.{words_on};
ghost use Rattle.aeth_chain.specs.Chain.{AreDistinct, IsChain, legs_of};
ghost use Rattle.aeth_chain.specs.ChainBounds.{HasLandedBy, IsDueInChain};
ghost use Rattle.aeth_accepted.specs.Inputs.{Inputs, run_of};
ghost use Rattle.aeth_base.specs.declared.ids.UseId.{UseId};
ghost use Rattle.aeth_report.specs.RunLog.{log_of};
ghost use Rattle.aeth_chain.specs.ChainInputs.{AreTabled, forwarding_inputs, landings_on};
ghost use Rattle.aeth_chain.specs.ChainInputs.{last_channel, told};
ghost use Rattle.aeth_chain.specs.ChainRun.{chain_log, first_offers, landings_along, offer_of};
ghost use Rattle.aeth_chain.specs.ChainRun.{runs_along, servers_along};
ghost use Rattle.aeth_chain.specs.Lanes.{AreOffers, IsRunning, legs_in};
ghost use Rattle.aeth_chain.specs.Limits.{max_work};

use crate::bound::{ChainBound, chain_bound};
use crate::item::ChainItem;
use crate::landing::landings_on;
use crate::lane::Lane;
use crate::log::ChainLog;
use crate::passing::{Offer, passed_on, push_within};
use aeth_base::{Channel, NoMemory};
use aeth_report::Landing;
use aeth_server::ChannelShape;
use aeth_trace::{Receivers, Words};
use std::alloc::Global;

// A run of a chain: its items with the shapes of their channels, its bound, what is offered on the
// first channel, and what all receivers take.
#[derive(Clone, Copy)]
pub(crate) struct Running<'a> {
    pub items: &'a [ChainItem],
    pub shapes: &'a [ChannelShape],
    pub bound: ChainBound,
    pub first: &'a [Offer],
    pub receivers: &'a Receivers,
    pub cycles: u32,
}

/// Runs a chain for so many cycles, 1 to 1,000,000. Each channel runs by itself in one session from cycle
/// 0 on, with the buffer that its shape needs. The words of the first channel are offered on it; what a
/// core takes from a channel it offers on the next, as many cycles later as it works. Words of other
/// channels take no part. `Err` where there was no memory.
pub fn run_chain(
    alloc: Global,
    items: &[ChainItem],
    shapes: &[ChannelShape],
    words: &Words,
    receivers: &Receivers,
    cycles: u32,
) -> Result<ChainLog, NoMemory>
    requires chain { IsChain items.now shapes.now }
    requires distinct { AreDistinct items.now }
    requires least { 1 ≤ cycles }
    requires most { cycles ≤ max_cycles }
    ensures gives { IfOk result (λ log. log
        ≡ chain_log (legs_of items.now shapes.now) words.now receivers.now cycles) }
    ensures lands { IfOk result (λ log. (i t : ℕ) → (let legs = legs_of items.now shapes.now in
        let first = first_offers words.now cycles legs in
        IsDueInChain legs first (servers_along receivers.now cycles first legs) cycles i t
        → HasLandedBy log.landings i t)) }
    ensures logged { IfOk result (λ log. (inputs : Inputs) (u : UseId)
        → AreTabled inputs u items.now shapes.now → inputs.pulls ≡ receivers.now
        → inputs.cycles ≡ cycles → told log.landings
        ≡ told (landings_on (log_of (run_of (forwarding_inputs inputs u items.now log.offers)))
        (last_channel items.now))) }
{
    are_granted(shapes);
    // Offered on the first channel, and beside it for the due cycles.
    let first = first_offers(alloc, words, items[0].channel, cycles)?;
    let own = first_offers(alloc, words, items[0].channel, cycles)?;
    let running = Running {
        items,
        shapes,
        bound: chain_bound(items, shapes),
        first: &first,
        receivers,
        cycles,
    };
    let mut offers = Vec::new(alloc);
    let landings = run_along(alloc, &running, items, shapes, own, &mut offers)?;
    let left = (first.len() - landings.len()) as u32;
    Ok(ChainLog {
        offers,
        landings,
        left,
    })
}

// The channels of a chain are granted what they ask for.
fn are_granted(shapes: &[ChannelShape])
    requires { All IsShapeInRange shapes.now }
    ensures { All (λ shape. IsGranted (shape_of shape)) shapes.now }
{
    for shape in shapes {
        let _starts = shape.slots.size();
        let _opposite = shape.back.size();
    }
}

// The words of a channel that are offered within the run.
fn first_offers(
    alloc: Global,
    words: &Words,
    channel: Channel,
    cycles: u32,
) -> Result<Vec<Offer>, NoMemory>
    ensures gives { IfOk result (λ first. first.items
        ≡ map offer_of (filter (λ row. nat_lt row.cycle cycles) (words_on words.now channel))) }
    ensures offers { IfOk result (λ first. AreOffers cycles first.items) }
{
    let _rows = words.rows();
    let mut offers = Vec::new(alloc);
    for place in 0..words.count_on(channel) {
        let row = words.nth_word(channel, place);
        let offer = Offer {
            cycle: row.cycle,
            value: row.value,
        };
        push_within(&mut offers, offer, cycles)?;
    }
    Ok(offers)
}

// Runs some last items of a chain, with these offers on the first of them: appends what is offered on
// each, and gives the landings on the last.
fn run_along(
    alloc: Global,
    running: &Running,
    items: &[ChainItem],
    shapes: &[ChannelShape],
    own: Vec<Offer>,
    offers: &mut Vec<Vec<Offer>>,
) -> Result<Vec<Landing>, NoMemory>
    requires running { IsRunning running.now }
    requires some { 1 ≤ length items.now }
    requires beside { length shapes.now ≡ length items.now }
    requires ranges { All IsShapeInRange shapes.now }
    requires works { All (λ item. item.work ≤ max_work) items.now }
    requires own { AreOffers running.now.cycles own.items }
    requires shorter { length own.items ≤ length running.now.first.now }
    ensures offers { OnOk result (map (λ list. list.items) offers.new.items
        ≡ map (λ list. list.items) offers.old.items ++ map (λ run. run.offers)
        (runs_along running.now.receivers.now running.now.cycles own.items
        (legs_of items.now shapes.now))) }
    ensures landings { IfOk result (λ rows. rows.items ≡ landings_along running.now.cycles
        (legs_in running.now) running.now.first.now
        (runs_along running.now.receivers.now running.now.cycles own.items
        (legs_of items.now shapes.now))) }
    ensures few { IfOk result (λ rows. length rows.items ≤ length running.now.first.now) }
{
    let [item, items_behind @ ..] = items else {
        return Ok(Vec::new(alloc));
    };
    let [shape, shapes_behind @ ..] = shapes else {
        return Ok(Vec::new(alloc));
    };
    let lane = Lane {
        item: *item,
        shape: *shape,
        offers: &own,
        receivers: running.receivers,
        cycles: running.cycles,
    };
    if items_behind.is_empty() {
        let rows = landings_on(alloc, running, &lane)?;
        offers.push(own)?;
        return Ok(rows);
    }
    let passed = passed_on(alloc, &lane)?;
    offers.push(own)?;
    run_along(alloc, running, items_behind, shapes_behind, passed, offers)
}

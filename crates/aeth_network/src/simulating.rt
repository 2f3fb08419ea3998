// The run of a network.

ghost use Rattle.std.specs.Prelude.{◌≡◌, ◌≤◌, ◌<◌, ◌+◌, ◌-◌, ◌*◌, length};
ghost use Rattle.aeth_components.specs.FlitsOnWires.{flits_on};
ghost use Rattle.aeth_accepted.specs.Inputs.{Inputs};
ghost use Rattle.aeth_running.specs.Network.{played};
ghost use Rattle.aeth_running.specs.Quiet.{IsNextBusy};
ghost use Rattle.aeth_network.specs.Carried.{carried_in};
ghost use Rattle.aeth_network.specs.Runs.{IsNetworkOf};

use crate::network::RoutedNetwork;
use aeth_base::Steps;
use aeth_clocked::Order;
use std::marker::Brand;
use std::sync::ledger::{Blank, Ledger};

/// Plays all cycles of the run that are left. Those that leave the network as it is are passed over.
pub fn simulate(network: &mut RoutedNetwork, order: &Order)
    requires { length order.now ≡ length network.old.components.parts }
    ensures played { network.new
        ≡ played (network.old.log.cycles - network.old.time) network.old }
    ensures parts { length network.new.components.parts
        ≡ length network.old.components.parts }
    ensures run { (inputs : Inputs) → IsNetworkOf inputs network.old
        → IsNetworkOf inputs network.new × (network.new.time ≡ inputs.cycles) }
{
    simulate_from::<Brand>(network, order, Blank::new(1));
}

/// The same, which counts the steps of components. They are at most four for each flit on a wire behind
/// each of these cycles, and two for each flit on a wire before them.
pub fn simulate_counted<L: Ledger>(network: &mut RoutedNetwork, order: &Order, steps: &mut Steps<L>)
    requires { length order.now ≡ length network.old.components.parts }
    ensures played { network.new
        ≡ played (network.old.log.cycles - network.old.time) network.old }
    ensures parts { length network.new.components.parts
        ≡ length network.old.components.parts }
    ensures run { (inputs : Inputs) → IsNetworkOf inputs network.old
        → IsNetworkOf inputs network.new × (network.new.time ≡ inputs.cycles) }
    ensures counted { steps.new ≤ steps.old
        + 4 * carried_in (network.old.log.cycles - network.old.time) network.old
        + 2 * flits_on network.old.components.wires }
{
    let mut next = network.next_busy();
    'cycles: while next < network.cycles() {
        next = advance(network, order, steps, next);
    }
    network.skip(next);
}

// Plays them with a counter of its own.
fn simulate_from<L: Ledger>(network: &mut RoutedNetwork, order: &Order, blank: Blank)
    requires name { blank.name ≡ L.name }
    requires ledger { blank.parts ≡ L.parts }
    requires one { L.parts ≡ 1 }
    requires order { length order.now ≡ length network.old.components.parts }
    ensures played { network.new
        ≡ played (network.old.log.cycles - network.old.time) network.old }
    ensures parts { length network.new.components.parts
        ≡ length network.old.components.parts }
    ensures run { (inputs : Inputs) → IsNetworkOf inputs network.old
        → IsNetworkOf inputs network.new × (network.new.time ≡ inputs.cycles) }
{
    let mut steps = Steps::<L>::open(blank);
    simulate_counted(network, order, &mut steps);
}

// Passes over the cycles before the next busy one, does it, and tells the one that comes next.
fn advance<L: Ledger>(
    network: &mut RoutedNetwork,
    order: &Order,
    steps: &mut Steps<L>,
    next: u32,
) -> u32
    requires order { length order.now ≡ length network.old.components.parts }
    requires next { IsNextBusy network.old next }
    requires within { next < network.old.log.cycles }
    ensures next { IsNextBusy network.new result }
    ensures time { network.new.time ≡ next + 1 }
    ensures played { network.new ≡ played (next + 1 - network.old.time) network.old }
    ensures parts { length network.new.components.parts
        ≡ length network.old.components.parts }
    ensures counted { steps.new + 2 * flits_on network.new.components.wires
        ≤ steps.old + 2 * flits_on network.old.components.wires
        + 4 * carried_in (next + 1 - network.old.time) network.old }
{
    network.skip(next);
    network.cycle_counted(order, steps);
    network.next_busy()
}

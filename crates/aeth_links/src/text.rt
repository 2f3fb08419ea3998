// The log of what the links carry, read off the wires of a network cycle by cycle.
ghost use Rattle.std.specs.Prelude.{◌≡◌, ◌≤◌, ◌<◌, ◌++◌, IfOk, OnOk, length};
ghost use Rattle.aeth_accepted.specs.Inputs.{run_of};
ghost use Rattle.aeth_links.specs.Carried.{carried_rows, lines_of, log_text};
ghost use Rattle.aeth_links.specs.Seen.{rows_at, rows_seen};
ghost use Rattle.aeth_network.specs.Runs.{IsNetworkOf};

use aeth_accepted::RunInputs;
use aeth_audit::{LinkRow, push_row};
use aeth_base::{LinkId, NoMemory};
use aeth_clocked::{Order, Wires};
use aeth_network::RoutedNetwork;
use aeth_scheduling::schedule_of;
use std::alloc::Global;

/// The log of what the links carry in the run of accepted inputs: a line for each flit, with the cycle in
/// which it enters a link.
pub fn links_text(alloc: Global, inputs: &RunInputs) -> Result<Vec<u8>, NoMemory>
    ensures { IfOk result (λ text. text.items ≡ log_text (carried_rows (run_of inputs.now))) }
{
    let schedule = schedule_of(alloc, inputs)?;
    let mut network = RoutedNetwork::new(alloc, inputs, schedule)?;
    text_of(alloc, inputs, &mut network)
}

// The text that their network gives, of which no cycle is done.
fn text_of(
    alloc: Global,
    inputs: &RunInputs,
    network: &mut RoutedNetwork,
) -> Result<Vec<u8>, NoMemory>
    requires network { IsNetworkOf inputs.now network.old }
    requires first { network.old.time ≡ 0 }
    ensures { IfOk result (λ text. text.items ≡ log_text (carried_rows (run_of inputs.now))) }
{
    let order = Order::rotation(alloc, network.parts(), 0)?;
    let mut text = Vec::from_slice(alloc, b"cycle,link,header,first,second\n")?;
    push_cycles(&mut text, inputs, network, &order)?;
    Ok(text)
}

// Appends the lines of all cycles.
fn push_cycles(
    text: &mut Vec<u8>,
    inputs: &RunInputs,
    network: &mut RoutedNetwork,
    order: &Order,
) -> Result<(), NoMemory>
    requires network { IsNetworkOf inputs.now network.old }
    requires first { network.old.time ≡ 0 }
    requires order { length order.now ≡ length network.old.components.parts }
    ensures { OnOk result (text.new.items
        ≡ text.old.items ++ lines_of (carried_rows (run_of inputs.now))) }
{
    aeth_running::laws::networks_run();
    let links = inputs.chip().links();
    for cycle in 0..inputs.cycles() {
        network.cycle(order);
        push_rows(text, network.wires(), links, cycle)?;
    }
    Ok(())
}

// Appends the lines of what so many links carry in a cycle, by the wires of these numbers.
fn push_rows(text: &mut Vec<u8>, wires: &Wires, links: u32, cycle: u32) -> Result<(), NoMemory>
    requires { links ≤ length wires.now }
    ensures { OnOk result (text.new.items
        ≡ text.old.items ++ lines_of (rows_seen wires.now links cycle)) }
{
    let mut link = wires.next(0);
    'rows: while link < links {
        push_flit(text, wires, LinkId(link), cycle)?;
        link = wires.next(link + 1);
    }
    Ok(())
}

// Appends the line of the flit on a wire, where it has one.
fn push_flit(text: &mut Vec<u8>, wires: &Wires, link: LinkId, cycle: u32) -> Result<(), NoMemory>
    requires { link.0 < length wires.now }
    ensures { OnOk result (text.new.items
        ≡ text.old.items ++ lines_of (rows_at wires.now cycle link.0)) }
{
    match wires.get(link) {
        Some(flit) => push_row(text, &LinkRow { cycle, link, flit }),
        None => Ok(()),
    }
}

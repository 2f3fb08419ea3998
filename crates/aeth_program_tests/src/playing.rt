// Whether the network of files is busy in given cycles. Each step makes one thing and hands it on,
// since the proof of a function grows fast with what it owns.
ghost use Rattle.std.specs.Prelude.{◌≡◌, ◌≤◌, length};
ghost use Rattle.aeth_accepted.specs.Inputs.{AreAccepted};
ghost use Rattle.aeth_app.specs.App.{IsAppOf};
ghost use Rattle.aeth_base.specs.Limits.{max_cycles};
ghost use Rattle.aeth_group.specs.Members.{groups_of};
ghost use Rattle.aeth_machine.specs.RunInputs.{inputs_of};

use crate::busy_files::{Texts, names, shelf_of};
use aeth_accepted::RunInputs;
use aeth_base::NoMemory;
use aeth_clocked::Order;
use aeth_files::read_design;
use aeth_io::MemShelf;
use aeth_network::RoutedNetwork;
use aeth_plan::Design;
use aeth_run_files::{Run, RunFiles, read_run};
use aeth_scheduling::schedule_of;
use std::alloc::Global;
use std::test::Fail;

/// Whether the network of a run of so many cycles is busy in just these, behind which the number of
/// cycles stands.
pub(crate) fn is_busy_in(
    alloc: Global,
    texts: &Texts,
    cycles: u32,
    busy: &[u32],
) -> Result<bool, Fail>
    requires { cycles ≤ max_cycles }
{
    let Some(files) = names() else {
        return Err(Fail::from("names"));
    };
    let mut shelf = shelf_of(alloc, texts)?;
    is_busy_with(alloc, &files, &mut shelf, cycles, busy)
}

fn is_busy_with(
    alloc: Global,
    files: &RunFiles,
    shelf: &mut MemShelf,
    cycles: u32,
    busy: &[u32],
) -> Result<bool, Fail>
    requires { cycles ≤ max_cycles }
{
    match read_design(alloc, &files.chip, &files.app, shelf) {
        Ok(design) => is_busy_on(alloc, &design, files, shelf, cycles, busy),
        Err(_) => Err(Fail::from("design")),
    }
}

fn is_busy_on(
    alloc: Global,
    design: &Design,
    files: &RunFiles,
    shelf: &mut MemShelf,
    cycles: u32,
    busy: &[u32],
) -> Result<bool, Fail>
    requires of_chip { IsAppOf design.now.chip design.now.app }
    requires cycles { cycles ≤ max_cycles }
{
    match read_run(alloc, design, files, shelf) {
        Ok(run) => is_run_busy(alloc, design, &run, cycles, busy),
        Err(_) => Err(Fail::from("run")),
    }
}

fn is_run_busy(
    alloc: Global,
    design: &Design,
    run: &Run,
    cycles: u32,
    busy: &[u32],
) -> Result<bool, Fail>
    requires groups { run.now.planned.groups ≡ groups_of design.now.app }
    requires accepted { AreAccepted
        (inputs_of design.now run.now.planned.plan run.now.traces cycles) }
{
    let traces = run.traces.borrowed();
    let inputs = RunInputs::of(
        &design.chip,
        &design.app,
        &run.planned.groups,
        &run.planned.plan,
        traces,
        cycles,
    );
    Ok(is_busy_by(alloc, &inputs, busy)?)
}

fn is_busy_by(alloc: Global, inputs: &RunInputs, busy: &[u32]) -> Result<bool, NoMemory> {
    let schedule = schedule_of(alloc, inputs)?;
    match RoutedNetwork::new(alloc, inputs, schedule) {
        Ok(mut network) => is_network_busy(alloc, &mut network, busy),
        Err(fault) => Err(fault),
    }
}

fn is_network_busy(
    alloc: Global,
    network: &mut RoutedNetwork,
    busy: &[u32],
) -> Result<bool, NoMemory> {
    let order = Order::rotation(alloc, network.parts(), 0)?;
    Ok(is_busy_from(network, &order, busy))
}

/// Whether the busy cycles that are left, and then the number of cycles, are these.
fn is_busy_from(network: &mut RoutedNetwork, order: &Order, busy: &[u32]) -> bool
    requires { length order.now ≡ length network.old.components.parts }
{
    let mut is_over = false;
    for cycle in busy {
        let next = network.next_busy();
        if is_over || next != *cycle {
            return false;
        }
        network.skip(next);
        if network.time() >= network.cycles() {
            is_over = true;
        } else {
            network.cycle(order);
        }
    }
    is_over
}

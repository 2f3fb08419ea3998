// Runs, as a machine plays them.
ghost use Rattle.aeth_accepted.specs.Inputs.{AreAccepted};
ghost use Rattle.aeth_group.specs.Members.{groups_of};
ghost use Rattle.aeth_machine.specs.RunInputs.{inputs_of};
ghost use Rattle.aeth_report.specs.Regular.{IsRegular};
ghost use Rattle.std.specs.Prelude.{◌≡◌, ◌≤◌, ◌<◌, IfOk};

use crate::machine::Machine;
use crate::traces::Traces;
use aeth_base::NoMemory;
use aeth_clocked::Order;
use aeth_plan::{Design, Planned};
use aeth_report::SimLog;
use std::alloc::Global;

/// The log of accepted inputs, once a machine has played them. Its components take their turns in the
/// order that begins with this turn. The machine is handed the traces, so that the run and its log have their
/// memory.
pub fn played<M: Machine>(
    alloc: Global,
    design: &Design,
    planned: &Planned,
    traces: Traces,
    cycles: u32,
    turn: u32,
) -> Result<SimLog, NoMemory>
    requires groups { planned.now.groups ≡ groups_of design.now.app }
    requires accepted { AreAccepted (inputs_of design.now planned.now.plan traces cycles) }
    requires least { 1 ≤ cycles }
    ensures log { IfOk result
        (λ log. log ≡ M.outcome (inputs_of design.now planned.now.plan traces cycles)) }
    ensures regular { IfOk result (IsRegular design.now.app) }
{
    M::regular();
    let mut machine = M::make_of(alloc, design, planned, traces, cycles)?;
    let order = Order::rotation(alloc, machine.components(), turn)?;
    machine.play(&order);
    Ok(machine.result())
}

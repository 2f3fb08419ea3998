// Machines.
ghost use Rattle.std.specs.Prelude.{◌≡◌, ◌≤◌, ◌<◌, ℕ, IfOk, length};
ghost use Rattle.aeth_accepted.specs.Inputs.{AreAccepted, Inputs, inputs_with};
ghost use Rattle.aeth_group.specs.Members.{groups_of};
ghost use Rattle.aeth_machine.specs.RunInputs.{inputs_of};
ghost use Rattle.aeth_report.specs.Log.{LogData};
ghost use Rattle.aeth_report.specs.Regular.{IsRegular};

use crate::traces::Traces;
use aeth_app::App;
use aeth_base::NoMemory;
use aeth_chip::Chip;
use aeth_clocked::Order;
use aeth_group::Groups;
use aeth_plan::{Design, Plan, Planned};
use aeth_report::SimLog;
use aeth_trace::{Receivers, Switches, Words};
use std::alloc::Global;

/// What a run is simulated with. A machine is made of the inputs of a run, plays all its cycles, and
/// then gives the log.
///
/// Which log that is, the type says by its `outcome`. A caller who doesn't know the type learns the
/// log of its inputs only by making a machine, playing it to its end and taking its result.
pub trait Machine: Drop {
    /// The log that inputs give.
    ghost outcome: { Inputs → LogData };

    /// The log that this machine gives.
    ghost plays: { Self → LogData };

    /// How many cycles it has still to play.
    ghost left: { Self → ℕ };

    /// How many components it has.
    ghost count: { Self → ℕ };

    /// The law that the log of accepted inputs is regular for their application. It does nothing.
    fn regular()
        ensures { (inputs : Inputs) → AreAccepted inputs → 1 ≤ inputs.cycles
            → IsRegular inputs.app (outcome inputs) };

    /// The machine of accepted inputs, before the first of their cycles, of which there is one at
    /// least. The groups are those of the application. It takes all memory of the run: `Err` where
    /// there was none.
    fn make(
        alloc: Global,
        chip: &Chip,
        app: &App,
        groups: &Groups,
        plan: &Plan,
        words: &Words,
        receivers: &Receivers,
        switches: &Switches,
        cycles: u32,
    ) -> Result<Self, NoMemory>
        requires groups { groups.now ≡ groups_of app.now }
        requires accepted { AreAccepted (inputs_with chip.now app.now plan.now words.now
            receivers.now switches.now cycles) }
        requires some { 1 ≤ cycles }
        ensures plays { IfOk result (λ machine. plays machine ≡ outcome (inputs_with chip.now
            app.now plan.now words.now receivers.now switches.now cycles)) }
        ensures left { IfOk result (λ machine. left machine ≡ cycles) }
        ensures count { IfOk result (λ machine. 0 < count machine) };

    /// The machine of accepted inputs as `make` gives it. It is handed their traces, so it may let go of what
    /// it no longer needs of them before it takes its last memory.
    fn make_of(
        alloc: Global,
        design: &Design,
        planned: &Planned,
        traces: Traces,
        cycles: u32,
    ) -> Result<Self, NoMemory>
        requires groups { planned.now.groups ≡ groups_of design.now.app }
        requires accepted { AreAccepted (inputs_of design.now planned.now.plan traces cycles) }
        requires some { 1 ≤ cycles }
        ensures plays { IfOk result (λ machine.
            plays machine ≡ outcome (inputs_of design.now planned.now.plan traces cycles)) }
        ensures left { IfOk result (λ machine. left machine ≡ cycles) }
        ensures count { IfOk result (λ machine. 0 < count machine) }
    {
        Self::make(
            alloc,
            &design.chip,
            &design.app,
            &planned.groups,
            &planned.plan,
            &traces.words,
            &traces.receivers,
            &traces.switches,
            cycles,
        )
    }

    /// The number of components, of which there is one at least.
    fn components(&self) -> u32
        ensures count { result ≡ count self.now }
        ensures some { 0 < result };

    /// Plays all cycles that are left, each component in its place of the order.
    fn play(&mut self, order: &Order)
        requires { length order.now ≡ count self.old }
        ensures left { left self.new ≡ 0 }
        ensures plays { plays self.new ≡ plays self.old }
        ensures count { count self.new ≡ count self.old };

    /// The log, once no cycle is left.
    fn result(self) -> SimLog
        requires { left self ≡ 0 }
        ensures { result ≡ plays self };
}

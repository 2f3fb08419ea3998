// The network whose flits go by their headers.

ghost use Rattle.std.specs.Prelude.{◌≡◌, ◌≤◌, ◌<◌, ◌+◌, ◌-◌, ◌*◌, IfOk, length};
ghost use Rattle.aeth_group.specs.Members.{groups_of};
ghost use Rattle.aeth_machine.specs.RunInputs.{inputs_of};
ghost use Rattle.aeth_components.specs.FlitsOnWires.{flits_on};
ghost use Rattle.aeth_report.specs.RunLog.{log_of};
ghost use Rattle.aeth_accepted.specs.Inputs.{AreAccepted, Inputs, inputs_with, run_of};
ghost use Rattle.aeth_running.specs.Idle.{IsNextBusyOf};
ghost use Rattle.aeth_running.specs.Lossless.{LosesNothing};
ghost use Rattle.aeth_running.specs.Network.{first_network, played, stepped};
ghost use Rattle.aeth_running.specs.Routing.{ByHeaders};
ghost use Rattle.aeth_running.specs.Quiet.{AreStill, IsNextBusy};
ghost use Rattle.aeth_running.specs.Logged.{logged};
ghost use Rattle.aeth_network.specs.Carried.{carried_in};
ghost use Rattle.aeth_network.specs.Runs.{AreWiresOf, IsNetworkOf};
ghost use Rattle.aeth_network.specs.Unlogged.{logged_with};

use aeth_accepted::{BorrowedTraces, RunInputs};
use aeth_app::App;
use aeth_base::{NoMemory, Steps};
use aeth_chip::Chip;
use aeth_clocked::{Order, Wires};
use aeth_group::Groups;
use aeth_machine::Traces;
use aeth_network::{RoutedNetwork, UnloggedNetwork};
use aeth_plan::{Design, Plan, Planned};
use aeth_report::SimLog;
use aeth_scheduling::schedule_of;
use aeth_trace::{Receivers, Switches, Words};
use std::alloc::Global;
use std::marker::Model;
use std::sync::ledger::Ledger;

/// A network with what its run is given, in which each flit goes by its header: its components, how its
/// channels stood before each session that has gone, and the log, of which nothing has landed. It is
/// seen without the places that it has come to in what it is given.
#[derive(Drop)]
pub struct Network {
    routed: RoutedNetwork,
}

impl Model for Network {
    ghost use Rattle.aeth_running.specs.Network.{NetworkState};

    ghost Value = { NetworkState };

    ghost view = { λ network. network.routed };
}

impl Network {
    /// The network of accepted inputs, with the tables of the first use case, before the first of so
    /// many cycles. The groups are those of the application. It takes all memory of the run: `Err`
    /// where there was none.
    pub fn new(
        alloc: Global,
        chip: &Chip,
        app: &App,
        groups: &Groups,
        plan: &Plan,
        words: &Words,
        receivers: &Receivers,
        switches: &Switches,
        cycles: u32,
    ) -> Result<Network, NoMemory>
        requires groups { groups.now ≡ groups_of app.now }
        requires accepted { AreAccepted (inputs_with chip.now app.now plan.now words.now
            receivers.now switches.now cycles) }
        ensures first { IfOk result (λ network. network ≡ first_network (inputs_with chip.now
            app.now plan.now words.now receivers.now switches.now cycles) ByHeaders) }
        ensures run { IfOk result (IsNetworkOf (inputs_with chip.now app.now plan.now words.now
            receivers.now switches.now cycles)) }
    {
        let traces = BorrowedTraces {
            words,
            receivers,
            switches,
        };
        let inputs = RunInputs::of(chip, app, groups, plan, traces, cycles);
        let schedule = schedule_of(alloc, &inputs)?;
        let routed = RoutedNetwork::new(alloc, &inputs, schedule)?;
        Ok(Network { routed })
    }

    /// The same network of a design, a plan for it and traces. It is handed the traces, and lets the rows of
    /// receivers go before its log is made.
    pub fn of_traces(
        alloc: Global,
        design: &Design,
        planned: &Planned,
        traces: Traces,
        cycles: u32,
    ) -> Result<Network, NoMemory>
        requires groups { planned.now.groups ≡ groups_of design.now.app }
        requires accepted { AreAccepted (inputs_of design.now planned.now.plan traces cycles) }
        ensures first { IfOk result (λ network. network ≡ first_network
            (inputs_of design.now planned.now.plan traces cycles) ByHeaders) }
        ensures run { IfOk result
            (IsNetworkOf (inputs_of design.now planned.now.plan traces cycles)) }
    {
        let Traces {
            words,
            receivers,
            switches,
        } = traces;
        let inputs = RunInputs::of(
            &design.chip,
            &design.app,
            &planned.groups,
            &planned.plan,
            BorrowedTraces {
                words: &words,
                receivers: &receivers,
                switches: &switches,
            },
            cycles,
        );
        let unlogged = unlogged(alloc, &inputs)?;
        drop(receivers);
        let routed = unlogged.with_log(alloc, &design.chip, &design.app, &words, cycles)?;
        Ok(Network { routed })
    }

    /// The number of components.
    pub fn parts(&self) -> u32
        ensures count { result ≡ length self.now.components.parts }
        ensures some { 0 < result }
    {
        self.routed.parts()
    }

    /// The number of cycles that are done.
    pub fn time(&self) -> u32
        ensures { result ≡ self.now.time }
    {
        self.routed.time()
    }

    /// The number of cycles of the run.
    pub fn cycles(&self) -> u32
        ensures { result ≡ self.now.log.cycles }
    {
        self.routed.cycles()
    }

    /// The wires, as the last cycle drove them. Of a network of accepted inputs they carry what the
    /// private servers of its run send.
    pub fn wires(&self) -> &Wires
        ensures wires { result.now ≡ self.now.components.wires }
        ensures run { (inputs : Inputs) → IsNetworkOf inputs self.now
            → AreWiresOf inputs self.now.time result.now }
    {
        self.routed.wires()
    }

    /// One more cycle of the run: sessions go, words are offered, receivers take as their rows say,
    /// and the components do a cycle with its events. It takes no memory and can't fail. Of accepted inputs it
    /// loses no flit and no word.
    pub fn cycle(&mut self, order: &Order)
        requires order { length order.now ≡ length self.old.components.parts }
        requires time { self.old.time < self.old.log.cycles }
        ensures steps { self.new ≡ stepped self.old }
        ensures parts { length self.new.components.parts ≡ length self.old.components.parts }
        ensures run { (inputs : Inputs) → IsNetworkOf inputs self.old
            → IsNetworkOf inputs self.new }
        ensures lossless { (inputs : Inputs) → IsNetworkOf inputs self.old
            → LosesNothing inputs self.new.time self.old.components self.new.components }
    {
        self.routed.cycle(order);
    }

    /// The same, which counts the steps: each flit that comes to a component, and each interface that sends. All
    /// others rest, so there are at most two for each wire that had a flit before, and two for each that has one
    /// behind.
    pub fn cycle_counted<L: Ledger>(&mut self, order: &Order, steps: &mut Steps<L>)
        requires order { length order.now ≡ length self.old.components.parts }
        requires time { self.old.time < self.old.log.cycles }
        ensures steps { self.new ≡ stepped self.old }
        ensures parts { length self.new.components.parts ≡ length self.old.components.parts }
        ensures run { (inputs : Inputs) → IsNetworkOf inputs self.old
            → IsNetworkOf inputs self.new }
        ensures lossless { (inputs : Inputs) → IsNetworkOf inputs self.old
            → LosesNothing inputs self.new.time self.old.components self.new.components }
        ensures counted { steps.new ≤ steps.old + 2 * flits_on self.old.components.wires
            + 2 * flits_on self.new.components.wires }
    {
        self.routed.cycle_counted(order, steps);
    }

    /// The next cycle in which something happens: a flit is on a wire or is sent, a word is offered or
    /// taken, or a switch does something. All cycles before it leave the network as it is. Where there
    /// is none it is the number of cycles of the run. Of accepted inputs it is the next cycle of their run that
    /// isn't idle.
    pub fn next_busy(&self) -> u32
        ensures next { IsNextBusy self.now result }
        ensures run { (inputs : Inputs) → IsNetworkOf inputs self.now
            → IsNextBusyOf (run_of inputs) self.now.time inputs.cycles result }
    {
        self.routed.next_busy()
    }

    /// Passes over cycles that leave the network as it is, up to this one: only the rows of receivers
    /// count, and the sessions that go in cycle 0.
    pub fn skip(&mut self, to: u32)
        requires from { self.old.time ≤ to }
        requires to { to ≤ self.old.log.cycles }
        requires still { AreStill (to - self.old.time) self.old }
        ensures played { self.new ≡ played (to - self.old.time) self.old }
        ensures parts { length self.new.components.parts ≡ length self.old.components.parts }
        ensures wires { self.new.components.wires ≡ self.old.components.wires }
        ensures run { (inputs : Inputs) → IsNetworkOf inputs self.old
            → IsNetworkOf inputs self.new }
    {
        self.routed.skip(to);
    }

    /// The log of the cycles that are done. Of a network of accepted inputs that has done all their
    /// cycles it is the log of their run.
    pub fn log(self) -> SimLog
        ensures logged { result ≡ logged self }
        ensures run { (inputs : Inputs) → IsNetworkOf inputs self → self.time ≡ inputs.cycles
            → result ≡ log_of (run_of inputs) }
    {
        self.routed.log()
    }
}

// The network of accepted inputs before the first of their cycles, but for its log.
fn unlogged(alloc: Global, inputs: &RunInputs) -> Result<UnloggedNetwork, NoMemory>
    ensures first { IfOk result (λ network. logged_with inputs.now network
        ≡ first_network inputs.now ByHeaders) }
    ensures run { IfOk result (λ network. IsNetworkOf inputs.now
        (logged_with inputs.now network)) }
{
    let schedule = schedule_of(alloc, inputs)?;
    UnloggedNetwork::new(alloc, inputs, schedule)
}

/// Plays all cycles of the run that are left.
pub fn simulate(network: &mut Network, order: &Order)
    requires { length order.now ≡ length network.old.components.parts }
    ensures played { network.new
        ≡ played (network.old.log.cycles - network.old.time) network.old }
    ensures parts { length network.new.components.parts
        ≡ length network.old.components.parts }
    ensures run { (inputs : Inputs) → IsNetworkOf inputs network.old
        → IsNetworkOf inputs network.new × (network.new.time ≡ inputs.cycles) }
{
    aeth_network::simulate(&mut network.routed, order);
}

/// The same, which counts the steps of components. They are at most four for each flit on a wire behind
/// each of these cycles, and two for each flit on a wire before them.
pub fn simulate_counted<L: Ledger>(network: &mut Network, order: &Order, steps: &mut Steps<L>)
    requires { length order.now ≡ length network.old.components.parts }
    ensures played { network.new
        ≡ played (network.old.log.cycles - network.old.time) network.old }
    ensures parts { length network.new.components.parts
        ≡ length network.old.components.parts }
    ensures run { (inputs : Inputs) → IsNetworkOf inputs network.old
        → IsNetworkOf inputs network.new × (network.new.time ≡ inputs.cycles) }
    ensures counted { steps.new ≤ steps.old
        + 4 * carried_in (network.old.log.cycles - network.old.time) network.old
        + 2 * flits_on network.old.components.wires }
{
    aeth_network::simulate_counted(&mut network.routed, order, steps);
}

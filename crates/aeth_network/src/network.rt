// A network, cycle by cycle.

ghost use Rattle.std.specs.Prelude.{◌≡◌, ◌≤◌, ◌<◌, ◌+◌, ◌-◌, ◌*◌, length};
ghost use Rattle.aeth_report.specs.RunLog.{log_of};
ghost use Rattle.aeth_components.specs.FlitsOnWires.{flits_on};
ghost use Rattle.aeth_accepted.specs.Inputs.{Inputs, run_of};
ghost use Rattle.aeth_running.specs.Idle.{IsNextBusyOf};
ghost use Rattle.aeth_running.specs.Lossless.{LosesNothing};
ghost use Rattle.aeth_running.specs.Network.{played, stepped};
ghost use Rattle.aeth_running.specs.Quiet.{AreStill, IsNextBusy};
ghost use Rattle.aeth_running.specs.Still.{IsStill};
ghost use Rattle.aeth_running.specs.Logged.{logged};
ghost use Rattle.aeth_network.specs.Brought.{BringsWords, IsCalm};
ghost use Rattle.aeth_network.specs.Runs.{AreWiresOf, IsNetworkOf};

use crate::given::{Cursors, Given};
use crate::giving::{offer, take};
use crate::logging::log_sessions;
use crate::next::{next_own, next_taking, place_before};
use crate::places::behind;
use crate::routing::enter;
use crate::state::{State, run};
use aeth_base::Steps;
use aeth_clocked::{Order, Wires};
use aeth_report::SimLog;
use std::marker::{Brand, Model};
use std::sync::ledger::{Blank, Ledger};

/// A network with what its run is given: its components, how its channels stood before each session
/// that has gone, and the log, of which nothing has landed. It is seen without the places that it
/// has come to in what it is given.
#[derive(Drop)]
pub struct RoutedNetwork {
    pub(crate) given: Given,
    pub(crate) cursors: Cursors,
    pub(crate) state: State,
    pub(crate) log: SimLog,
    pub(crate) time: u32,
}

impl Model for RoutedNetwork {
    ghost use Rattle.std.specs.Prelude.{vec_capacity};
    ghost use Rattle.aeth_running.specs.Network.{NetworkState};
    ghost use Rattle.aeth_network.specs.Cursors.{AreCursors, routing_with, stimuli_with};
    ghost use Rattle.aeth_network.specs.Networks.{IsNetwork, network_of};
    ghost use Rattle.aeth_network.specs.Runs.{HasInputs};

    ghost Value = { NetworkState };

    ghost view = { λ all. network_of (stimuli_with all.given) (routing_with all.given) all.state
        all.log all.time };

    ghost invariant = { λ all. IsNetwork (vec_capacity all.state.replaced)
        (network_of (stimuli_with all.given) (routing_with all.given) all.state all.log all.time)
        × AreCursors all.cursors all.time (stimuli_with all.given) (routing_with all.given)
        × HasInputs (network_of (stimuli_with all.given) (routing_with all.given) all.state all.log
        all.time) };
}

impl RoutedNetwork {
    /// The number of components.
    pub fn parts(&self) -> u32
        ensures count { result ≡ length self.now.components.parts }
        ensures some { 0 < result }
    {
        self.state.components.len() as u32
    }

    /// The number of cycles that are done.
    pub fn time(&self) -> u32
        ensures { result ≡ self.now.time }
    {
        self.time
    }

    /// The number of cycles of the run.
    pub fn cycles(&self) -> u32
        ensures { result ≡ self.now.log.cycles }
    {
        self.log.cycles
    }

    /// The wires, as the last cycle drove them. Of a network of accepted inputs they carry what the
    /// private servers of its run send.
    pub fn wires(&self) -> &Wires
        ensures wires { result.now ≡ self.now.components.wires }
        ensures run { (inputs : Inputs) → IsNetworkOf inputs self.now
            → AreWiresOf inputs self.now.time result.now }
    {
        aeth_running::laws::networks_carry();
        aeth_running::laws::networks_lose_nothing();
        self.state.components.wires()
    }

    /// One more cycle of the run: sessions go, words are offered, receivers take as their rows say, rows
    /// enter the tables of routers, and the components do a cycle with its events. It takes no memory and
    /// can't fail. Of accepted inputs it loses no flit and no word.
    pub fn cycle(&mut self, order: &Order)
        requires order { length order.now ≡ length self.old.components.parts }
        requires time { self.old.time < self.old.log.cycles }
        ensures steps { self.new ≡ stepped self.old }
        ensures parts { length self.new.components.parts ≡ length self.old.components.parts }
        ensures run { (inputs : Inputs) → IsNetworkOf inputs self.old
            → IsNetworkOf inputs self.new }
        ensures lossless { (inputs : Inputs) → IsNetworkOf inputs self.old
            → LosesNothing inputs self.new.time self.old.components self.new.components }
    {
        self.cycle_from::<Brand>(order, Blank::new(1));
    }

    /// The same, which counts the steps of components: each that sends, each flit that comes to one, and
    /// each whose way a router's table has. All others rest.
    pub fn cycle_counted<L: Ledger>(&mut self, order: &Order, steps: &mut Steps<L>)
        requires order { length order.now ≡ length self.old.components.parts }
        requires time { self.old.time < self.old.log.cycles }
        ensures steps { self.new ≡ stepped self.old }
        ensures parts { length self.new.components.parts ≡ length self.old.components.parts }
        ensures run { (inputs : Inputs) → IsNetworkOf inputs self.old
            → IsNetworkOf inputs self.new }
        ensures lossless { (inputs : Inputs) → IsNetworkOf inputs self.old
            → LosesNothing inputs self.new.time self.old.components self.new.components }
        ensures counted { steps.new ≤ steps.old + 2 * flits_on self.old.components.wires
            + 2 * flits_on self.new.components.wires }
    {
        aeth_running::laws::cycles_lose_nothing();
        if self.time < self.cursors.quiet_until {
            self.cycle_with_words(order, steps);
        } else if self.time < self.cursors.calm_until {
            self.cycle_with_events(order, steps);
        } else {
            self.cycle_with_rows(order, steps);
        }
    }

    // One more cycle, which brings nothing but words. No other place moves.
    fn cycle_with_words<L: Ledger>(&mut self, order: &Order, steps: &mut Steps<L>)
        requires order { length order.now ≡ length self.old.components.parts }
        requires time { self.old.time < self.old.log.cycles }
        requires words { BringsWords self.old }
        ensures steps { self.new ≡ stepped self.old }
        ensures parts { length self.new.components.parts ≡ length self.old.components.parts }
        ensures counted { steps.new ≤ steps.old + 2 * flits_on self.old.components.wires
            + 2 * flits_on self.new.components.wires }
    {
        let first = self.cursors.offer;
        let last = behind(&self.given.offers, first, self.time);
        offer(
            &mut self.state.components,
            &self.state.untils,
            &mut self.state.outside,
            &self.given.offers[first..last],
            self.time,
        );
        self.state
            .components
            .step_counted(order, self.time, &[], steps);
        self.cursors.offer = last;
        self.time += 1;
    }

    // One more cycle, which brings nothing but words and events.
    fn cycle_with_events<L: Ledger>(&mut self, order: &Order, steps: &mut Steps<L>)
        requires order { length order.now ≡ length self.old.components.parts }
        requires time { self.old.time < self.old.log.cycles }
        requires calm { IsCalm self.old.stimuli self.old.routing self.old.time }
        ensures steps { self.new ≡ stepped self.old }
        ensures parts { length self.new.components.parts ≡ length self.old.components.parts }
        ensures counted { steps.new ≤ steps.old + 2 * flits_on self.old.components.wires
            + 2 * flits_on self.new.components.wires }
    {
        let rows = self.given.calm_rows(self.cursors, self.time);
        offer(
            &mut self.state.components,
            &self.state.untils,
            &mut self.state.outside,
            rows.offers,
            self.time,
        );
        self.state
            .components
            .step_counted(order, self.time, rows.events, steps);
        self.cursors = rows.behind;
        self.time += 1;
    }

    // One more cycle, whatever it brings.
    fn cycle_with_rows<L: Ledger>(&mut self, order: &Order, steps: &mut Steps<L>)
        requires order { length order.now ≡ length self.old.components.parts }
        requires time { self.old.time < self.old.log.cycles }
        ensures steps { self.new ≡ stepped self.old }
        ensures parts { length self.new.components.parts ≡ length self.old.components.parts }
        ensures counted { steps.new ≤ steps.old + 2 * flits_on self.old.components.wires
            + 2 * flits_on self.new.components.wires }
    {
        let rows = self.given.rows(self.cursors, self.time);
        self.state.bring(&rows, self.time);
        enter(
            rows.tables,
            &mut self.state.components,
            self.cursors.entering,
            rows.behind.entering,
        );
        run(&mut self.state.components, order, &rows, self.time, steps);
        self.cursors = rows.behind;
        self.time += 1;
    }

    // One more cycle, with a counter of its own.
    fn cycle_from<L: Ledger>(&mut self, order: &Order, blank: Blank)
        requires name { blank.name ≡ L.name }
        requires ledger { blank.parts ≡ L.parts }
        requires one { L.parts ≡ 1 }
        requires order { length order.now ≡ length self.old.components.parts }
        requires time { self.old.time < self.old.log.cycles }
        ensures steps { self.new ≡ stepped self.old }
        ensures parts { length self.new.components.parts ≡ length self.old.components.parts }
        ensures run { (inputs : Inputs) → IsNetworkOf inputs self.old
            → IsNetworkOf inputs self.new }
        ensures lossless { (inputs : Inputs) → IsNetworkOf inputs self.old
            → LosesNothing inputs self.new.time self.old.components self.new.components }
    {
        let mut steps = Steps::<L>::open(blank);
        self.cycle_counted(order, &mut steps);
    }

    /// The next cycle in which something happens: a flit is on a wire or is sent, a word is offered or
    /// taken, or a switch does something. All cycles before it leave the network as it is. Where there
    /// is none it is the number of cycles of the run. Of a network of accepted inputs it is the next cycle
    /// of their run that isn't idle.
    ///
    /// The cycles that are passed over cost no time. Rows of receivers are looked at up to the next word, switch or
    /// slot in which an interface sends, and no further.
    pub fn next_busy(&self) -> u32
        ensures next { IsNextBusy self.now result }
        ensures run { (inputs : Inputs) → IsNetworkOf inputs self.now
            → IsNextBusyOf (run_of inputs) self.now.time inputs.cycles result }
    {
        aeth_running::laws::idle_cycles_are_still();
        self.next_unstill()
    }

    // The next cycle that doesn't leave the network as it is. What components send by themselves bounds how far
    // receivers' rows are looked at.
    fn next_unstill(&self) -> u32
        ensures { IsNextBusy self.now result }
    {
        aeth_running::laws::quiet_cycles_are_still();
        let time = self.time();
        if self.given.has_event(self.cursors, time) {
            time
        } else if self.state.components.are_wires_empty() {
            let next = self.given.next(self.cursors, time, self.cycles());
            let components = &self.state.components;
            let next = next_own(components, time, next);
            next_taking(components, &self.given.takes, self.cursors.take, time, next)
        } else {
            time
        }
    }

    /// Passes over cycles that leave the network as it is, up to this one: only the rows of receivers
    /// count, and the sessions that go in cycle 0.
    pub fn skip(&mut self, to: u32)
        requires from { self.old.time ≤ to }
        requires to { to ≤ self.old.log.cycles }
        requires still { AreStill (to - self.old.time) self.old }
        ensures played { self.new ≡ played (to - self.old.time) self.old }
        ensures parts { length self.new.components.parts ≡ length self.old.components.parts }
        ensures wires { self.new.components.wires ≡ self.old.components.wires }
        ensures run { (inputs : Inputs) → IsNetworkOf inputs self.old
            → IsNetworkOf inputs self.new }
    {
        if self.time < to {
            if self.time == 0 {
                self.begin();
            }
            self.rest(to);
        }
    }

    // Passes over cycle 0, in which sessions go.
    fn begin(&mut self)
        requires time { self.old.time ≡ 0 }
        requires some { 0 < self.old.log.cycles }
        requires still { IsStill self.old }
        ensures steps { self.new ≡ stepped self.old }
        ensures parts { length self.new.components.parts ≡ length self.old.components.parts }
        ensures wires { self.new.components.wires ≡ self.old.components.wires }
    {
        aeth_running::laws::networks_rest();
        let rows = self.given.rows(self.cursors, self.time);
        self.state.bring(&rows, self.time);
        self.cursors = rows.behind;
        self.time += 1;
    }

    // Passes over later cycles, up to this one.
    fn rest(&mut self, to: u32)
        requires from { self.old.time ≤ to }
        requires to { to ≤ self.old.log.cycles }
        requires late { 0 < to → 0 < self.old.time }
        requires still { AreStill (to - self.old.time) self.old }
        ensures played { self.new ≡ played (to - self.old.time) self.old }
        ensures parts { length self.new.components.parts ≡ length self.old.components.parts }
        ensures wires { self.new.components.wires ≡ self.old.components.wires }
    {
        aeth_running::laws::networks_rest();
        let first = self.cursors.take;
        let last = place_before(&self.given.takes, first, to);
        take(&mut self.state.components, &self.given.takes[first..last]);
        self.cursors.take = last;
        self.time = to;
    }

    /// The log of the cycles that are done. Of a network of accepted inputs that has done all their
    /// cycles it is the log of their run.
    pub fn log(mut self) -> SimLog
        ensures logged { result ≡ logged self }
        ensures run { (inputs : Inputs) → IsNetworkOf inputs self → self.time ≡ inputs.cycles
            → result ≡ log_of (run_of inputs) }
    {
        aeth_running::laws::networks_log();
        log_sessions(
            &mut self.log,
            &self.state.components,
            &self.state.outside,
            &self.given.schedule.session_starts(),
            &self.state.replaced,
            &mut self.state.untils,
        );
        self.log
    }
}

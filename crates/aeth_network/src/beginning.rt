// The network of accepted inputs before its first cycle. Its log is made last: of the traces it wants the words
// alone, so a caller may let the rows of receivers go before.

ghost use Rattle.std.specs.Prelude.{◌≡◌, IfOk};
ghost use Rattle.aeth_report.specs.Log.{LogData};
ghost use Rattle.aeth_schedule.specs.Schedule.{schedule_of};
ghost use Rattle.aeth_stimuli.specs.Stimuli.{stimuli_of};
ghost use Rattle.aeth_running.specs.Network.{first_network};
ghost use Rattle.aeth_running.specs.Routing.{ByHeaders, IsRoutingFor};
ghost use Rattle.aeth_network.specs.Cursors.{routing_with, stimuli_with};
ghost use Rattle.aeth_network.specs.Routes.{routing_in};
ghost use Rattle.aeth_network.specs.Runs.{HasInputs, IsNetworkOf};
ghost use Rattle.aeth_network.specs.Unlogged.{HasInputsWith, logged_by, logged_with, no_log};

use crate::given::{Cursors, Given};
use crate::making_log::first_log;
use crate::network::RoutedNetwork;
use crate::state::State;
use crate::tables::UseTables;
use aeth_accepted::RunInputs;
use aeth_app::App;
use aeth_base::NoMemory;
use aeth_chip::Chip;
use aeth_report::SimLog;
use aeth_schedule::Schedule;
use aeth_trace::Words;
use std::alloc::Global;
use std::marker::Model;

/// A network of accepted inputs before their first cycle, whose log isn't made yet. It is seen with a log of
/// nothing.
#[derive(Drop)]
pub struct UnloggedNetwork {
    given: Given,
    state: State,
}

impl Model for UnloggedNetwork {
    ghost use Rattle.std.specs.Prelude.{◌≤◌, length, vec_capacity};
    ghost use Rattle.aeth_running.specs.Network.{NetworkState};
    ghost use Rattle.aeth_network.specs.Cursors.{routing_with, stimuli_with};
    ghost use Rattle.aeth_network.specs.Networks.{network_of};
    ghost use Rattle.aeth_network.specs.Unlogged.{no_log};

    ghost Value = { NetworkState };

    ghost view = { λ all. network_of (stimuli_with all.given) (routing_with all.given) all.state
        no_log 0 };

    ghost invariant = { λ all. length (stimuli_with all.given).schedule.session_starts
        ≤ vec_capacity all.state.replaced };
}

impl UnloggedNetwork {
    /// The network of accepted inputs by their schedule, whose routers read headers, with the tables of the
    /// first use case in its interfaces, before the first of their cycles and but for its log. It takes all
    /// other memory of the run: `Err` where there was none.
    pub fn new(
        alloc: Global,
        inputs: &RunInputs,
        schedule: Schedule,
    ) -> Result<UnloggedNetwork, NoMemory>
        requires { schedule ≡ schedule_of inputs.now }
        ensures first { IfOk result (λ network. logged_with inputs.now network
            ≡ first_network inputs.now ByHeaders) }
        ensures run { IfOk result (λ network. IsNetworkOf inputs.now
            (logged_with inputs.now network)) }
        ensures log { IfOk result (λ network. network.log ≡ no_log) }
    {
        with_routes(alloc, inputs, schedule, None)
    }

    /// The same with routers that have these tables. In the cycle in which rows enter, all of them have
    /// these before any component drives.
    pub fn with_tables(
        alloc: Global,
        inputs: &RunInputs,
        schedule: Schedule,
        tables: UseTables,
    ) -> Result<UnloggedNetwork, NoMemory>
        requires schedule { schedule ≡ schedule_of inputs.now }
        requires routed { IsRoutingFor inputs.now tables }
        ensures first { IfOk result (λ network. logged_with inputs.now network
            ≡ first_network inputs.now tables) }
        ensures run { IfOk result (λ network. IsNetworkOf inputs.now
            (logged_with inputs.now network)) }
        ensures log { IfOk result (λ network. network.log ≡ no_log) }
    {
        with_routes(alloc, inputs, schedule, Some(tables))
    }

    /// The network with its log, which has a row for each word that a session accepts. The words are those
    /// of its inputs. It takes the memory of the log: `Err` where there was none.
    pub fn with_log(
        self,
        alloc: Global,
        chip: &Chip,
        app: &App,
        words: &Words,
        cycles: u32,
    ) -> Result<RoutedNetwork, NoMemory>
        requires { HasInputsWith words.now (logged_by chip.now app.now words.now cycles self) }
        ensures { IfOk result (λ network.
            network ≡ logged_by chip.now app.now words.now cycles self) }
    {
        aeth_stimuli::laws::stimuli_are_stimuli();
        let log = first_log(
            alloc,
            chip,
            app,
            words,
            &self.given.schedule.session_starts(),
            cycles,
        )?;
        Ok(begun(self, log))
    }
}

impl RoutedNetwork {
    /// The network of accepted inputs by their schedule, whose routers read headers, with the tables of the
    /// first use case in its interfaces, before the first of their cycles. It takes all memory of the run:
    /// `Err` where there was none.
    pub fn new(
        alloc: Global,
        inputs: &RunInputs,
        schedule: Schedule,
    ) -> Result<RoutedNetwork, NoMemory>
        requires { schedule ≡ schedule_of inputs.now }
        ensures first { IfOk result (λ network. network ≡ first_network inputs.now ByHeaders) }
        ensures run { IfOk result (IsNetworkOf inputs.now) }
    {
        let network = UnloggedNetwork::new(alloc, inputs, schedule)?;
        let (chip, app, words) = (inputs.chip(), inputs.app(), inputs.words());
        network.with_log(alloc, chip, app, words, inputs.cycles())
    }

    /// The same with routers that have these tables. In the cycle in which rows enter, all of them have
    /// these before any component drives.
    pub fn with_tables(
        alloc: Global,
        inputs: &RunInputs,
        schedule: Schedule,
        tables: UseTables,
    ) -> Result<RoutedNetwork, NoMemory>
        requires schedule { schedule ≡ schedule_of inputs.now }
        requires routed { IsRoutingFor inputs.now tables }
        ensures first { IfOk result (λ network. network ≡ first_network inputs.now tables) }
        ensures run { IfOk result (IsNetworkOf inputs.now) }
    {
        let network = UnloggedNetwork::with_tables(alloc, inputs, schedule, tables)?;
        let (chip, app, words) = (inputs.chip(), inputs.app(), inputs.words());
        network.with_log(alloc, chip, app, words, inputs.cycles())
    }
}

// The network of accepted inputs by their schedule, with these tables, or whose routers read headers, but for
// its log.
fn with_routes(
    alloc: Global,
    inputs: &RunInputs,
    schedule: Schedule,
    tables: Option<UseTables>,
) -> Result<UnloggedNetwork, NoMemory>
    requires schedule { schedule ≡ schedule_of inputs.now }
    requires routed { IsRoutingFor inputs.now (routing_in tables) }
    ensures first { IfOk result (λ network. logged_with inputs.now network
        ≡ first_network inputs.now (routing_in tables)) }
    ensures run { IfOk result (λ network. IsNetworkOf inputs.now
        (logged_with inputs.now network)) }
    ensures log { IfOk result (λ network. network.log ≡ no_log) }
{
    inputs.are_accepted();
    let given = Given::of(alloc, inputs, schedule, tables)?;
    with_given(alloc, inputs, given)
}

// The network of accepted inputs that is given this, but for its log.
fn with_given(alloc: Global, inputs: &RunInputs, given: Given) -> Result<UnloggedNetwork, NoMemory>
    requires given { stimuli_with given ≡ stimuli_of inputs.now }
    requires routed { IsRoutingFor inputs.now (routing_with given) }
    ensures first { IfOk result (λ network. logged_with inputs.now network
        ≡ first_network inputs.now (routing_with given)) }
    ensures log { IfOk result (λ network. network.log ≡ no_log) }
{
    let state = State::of(alloc, inputs, &given.schedule, &given.tables)?;
    Ok(UnloggedNetwork { given, state })
}

// The network with this log, where that is the network of accepted inputs before their first cycle.
fn begun(network: UnloggedNetwork, log: SimLog) -> RoutedNetwork
    requires { HasInputs (record network { log = log }) }
    ensures { result ≡ record network { log = log } }
{
    aeth_stimuli::laws::stimuli_are_stimuli();
    let UnloggedNetwork { given, state } = network;
    RoutedNetwork {
        given,
        cursors: Cursors {
            event: 0,
            session_start: 0,
            offer: 0,
            take: 0,
            window: 0,
            entering: 0,
            quiet_until: 0,
            calm_until: 0,
        },
        state,
        log,
        time: 0,
    }
}

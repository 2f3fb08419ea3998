// What changes in a network from cycle to cycle.

ghost use Rattle.std.specs.Prelude.{◌≡◌, ◌<◌, ◌≤◌, ◌+◌, ◌*◌, All, IfOk, length, map, replicate};
ghost use Rattle.aeth_base.specs.Limits.{max_cycles};
ghost use Rattle.aeth_ni.specs.Limits.{queues_of_interface};
ghost use Rattle.aeth_components.specs.Changes.{switched};
ghost use Rattle.aeth_components.specs.Components.{ComponentsCycle, first_components, wirings_of};
ghost use Rattle.aeth_components.specs.Events.{IsDoable};
ghost use Rattle.aeth_components.specs.Wirings.{wiring_of};
ghost use Rattle.aeth_components.specs.Making.{new_parts};
ghost use Rattle.aeth_components.specs.FlitsOnWires.{flits_on};
ghost use Rattle.aeth_schedule.specs.Schedule.{schedule_of};
ghost use Rattle.aeth_schedule.specs.Values.{values_of};
ghost use Rattle.aeth_stimuli.specs.Loaded.{no_channel_state};
ghost use Rattle.aeth_network.specs.Brought.{CanBring, IsBrought};
ghost use Rattle.aeth_running.specs.Network.{routed_components};
ghost use Rattle.aeth_running.specs.Routing.{IsRoutingFor};
ghost use Rattle.aeth_network.specs.First.{IsFirstState};
ghost use Rattle.aeth_network.specs.Routes.{routing_in};

use crate::given::CycleRows;
use crate::giving::{note, offer, start, take};
use crate::routing::{enter_first, kind_of};
use crate::tables::UseTables;
use aeth_accepted::RunInputs;
use aeth_app::App;
use aeth_base::{NiId, NoMemory, Steps};
use aeth_chip::Chip;
use aeth_clocked::Order;
use aeth_components::{ChannelEnd, ChannelState, Components, RouterKind};
use aeth_schedule::{Schedule, values};
use aeth_trace::Words;
use std::alloc::Global;
use std::sync::ledger::Ledger;

// What a receiver takes in a cycle at most where no row says it.
const USUAL_PULL: u32 = 2;

// The components of a network; for each channel until when the session that went last accepts words,
// and how many words were offered outside of all sessions; and how the channel of each session that
// has gone stood before.
#[derive(Drop)]
pub(crate) struct State {
    pub components: Components,
    pub untils: Vec<u32>,
    pub outside: Vec<u32>,
    pub replaced: Vec<ChannelState>,
}

impl State {
    // That before the first cycle, with the tables of the first use case in interfaces, and in routers if
    // they have any.
    pub(crate) fn of(
        alloc: Global,
        inputs: &RunInputs,
        schedule: &Schedule,
        tables: &Option<UseTables>,
    ) -> Result<State, NoMemory>
        requires schedule { schedule.now ≡ schedule_of inputs.now }
        requires routed { IsRoutingFor inputs.now (routing_in tables.now) }
        ensures { IfOk result (IsFirstState inputs.now (routing_in tables.now)) }
    {
        // The components come last: what owns them has no way out behind them.
        let channels = 2 * inputs.app().connections() as usize;
        let untils = vec![in alloc; 0; channels]?;
        let outside = vec![in alloc; 0; channels]?;
        let replaced = Vec::with_capacity(alloc, schedule.session_starts().len())?;
        let components = routed_components(alloc, inputs, schedule, tables)?;
        Ok(State {
            components,
            untils,
            outside,
            replaced,
        })
    }

    // What a cycle brings: sessions go, words are offered, and receivers take as their rows say.
    pub(crate) fn bring(&mut self, rows: &CycleRows, time: u32)
        requires { CanBring self.old rows.now time }
        ensures { IsBrought rows.now time self.old self.new }
    {
        note(
            &mut self.replaced,
            self.components.channel_states(),
            &rows.session_starts,
        );
        start(&mut self.components, &mut self.untils, &rows.session_starts);
        offer(
            &mut self.components,
            &self.untils,
            &mut self.outside,
            rows.offers,
            time,
        );
        take(&mut self.components, rows.takes);
    }
}

// The components do a cycle, with its events, and count their steps.
pub(crate) fn run<L: Ledger>(
    components: &mut Components,
    order: &Order,
    rows: &CycleRows,
    time: u32,
    steps: &mut Steps<L>,
)
    requires order { length order.now ≡ length components.old.parts }
    requires time { time < max_cycles }
    requires events { All (IsDoable (wirings_of components.old)) rows.now.events.now }
    ensures cycle { ComponentsCycle rows.now.events.now time components.old components.new }
    ensures steps { steps.new
        ≤ steps.old + 2 * flits_on components.old.wires + 2 * flits_on components.new.wires }
{
    components.step_counted(order, time, rows.events, steps);
}

// The components of a run before its first cycle, where the first rows have entered the tables of routers, if
// these have any.
fn routed_components(
    alloc: Global,
    inputs: &RunInputs,
    schedule: &Schedule,
    tables: &Option<UseTables>,
) -> Result<Components, NoMemory>
    requires schedule { schedule.now ≡ schedule_of inputs.now }
    requires routed { IsRoutingFor inputs.now (routing_in tables.now) }
    ensures { IfOk result (λ components. components
        ≡ routed_components inputs.now (routing_in tables.now)) }
{
    aeth_stimuli::laws::stimuli_are_stimuli();
    inputs.are_accepted();
    let (chip, app, words) = (inputs.chip(), inputs.app(), inputs.words());
    let mut components = loaded(alloc, chip, app, words, schedule, kind_of(tables))?;
    enter_first(tables, &mut components);
    Ok(components)
}

// The components of a chip, once they are loaded. No rows have entered the tables of routers yet.
fn loaded(
    alloc: Global,
    chip: &Chip,
    app: &App,
    words: &Words,
    schedule: &Schedule,
    kind: RouterKind,
) -> Result<Components, NoMemory>
    requires rooms { length schedule.now.rooms ≡ queues_of_interface * length chip.now.nis }
    requires some { 0 < length chip.now.nis }
    requires loaded { All (IsDoable (map wiring_of (new_parts chip.now
        kind schedule.now.rooms))) schedule.now.loaded }
    ensures { IfOk result (λ components. let made = first_components chip.now
        kind schedule.now.rooms
        (replicate (2 * length app.now.connections) no_channel_state)
        (values_of words.now (length app.now.connections)) in
        components ≡ record made { parts = switched schedule.now.loaded made.parts }) }
{
    let channels = 2 * app.connections() as usize;
    let channel_states = vec![in alloc; no_channel_state(); channels]?;
    let values = values(alloc, app, words)?;
    let mut components = Components::new(
        alloc,
        chip,
        kind,
        schedule.rooms(),
        channel_states,
        values,
    )?;
    components.prepare(schedule.loaded());
    Ok(components)
}

// A channel of which no session has gone.
fn no_channel_state() -> ChannelState
    ensures { result ≡ no_channel_state }
{
    let nowhere = ChannelEnd {
        ni: NiId(0),
        queue: 0,
    };
    ChannelState {
        sender: nowhere,
        receiver: nowhere,
        go: 0,
        fin: 0,
        first: 0,
        accepted: 0,
        pull: USUAL_PULL,
        enqueued: 0,
        landed: 0,
        taken: 0,
    }
}

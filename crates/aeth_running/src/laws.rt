//! What holds of the network of accepted inputs, over the definitions alone.
ghost use Rattle.std.specs.Prelude.{◌≡◌, ℕ, Some, length, ◌≤◌, ◌<◌, ◌+◌, ◌-◌, ◌↔◌, None};
ghost use Rattle.aeth_invariant.specs.RoutedSessions.{AtRouter, Owns, flow_at, server_at};
ghost use Rattle.aeth_invariant.specs.Carried.{IsPassed, words_from};
ghost use Rattle.aeth_accepted.specs.Inputs.{AreAccepted, Inputs, run_of};
ghost use Rattle.aeth_routed_sessions.specs.RoutedSessions.{routed_sessions_of};
ghost use Rattle.aeth_running.specs.Idle.{IsIdleCycle};
ghost use Rattle.aeth_running.specs.Lossless.{LosesNothing};
ghost use Rattle.aeth_running.specs.Network.{first_network, played, ready_in};
ghost use Rattle.aeth_running.specs.Quiet.{IsQuiet, brought_over, rested};
ghost use Rattle.aeth_running.specs.Routing.{IsRoutingFor, Routing};
ghost use Rattle.aeth_running.specs.Running.{HoldsBefore, IsServing};
ghost use Rattle.aeth_running.specs.Still.{IsStill, passed_over};
ghost use Rattle.aeth_running.specs.Logged.{network_log};
ghost use Rattle.aeth_report.specs.RunLog.{log_of};
ghost use Rattle.std.specs.Option.{option_to_list};
ghost use Rattle.aeth_base.specs.declared.ids.LinkId.{LinkId};
ghost use Rattle.aeth_chip.specs.Paths.{delay_of};
ghost use Rattle.aeth_chip.specs.Wires.{wire_at};
ghost use Rattle.aeth_clocked.specs.Wires.{flit_on};
ghost use Rattle.aeth_clocked.specs.declared.flit.Flit.{Flit};
ghost use Rattle.aeth_ni.specs.Component.{Arrival, arrival_of};
ghost use Rattle.aeth_server.specs.PrivateServer.{landed, taken};
ghost use Rattle.aeth_report.specs.Carries.{carries};
ghost use Rattle.aeth_components.specs.View.{queue_of};

/// The network of accepted inputs runs before each cycle, and behind the last.
pub fn networks_run()
    ensures { (inputs : Inputs) → AreAccepted inputs → (routing : Routing)
        → IsRoutingFor inputs routing → (t : ℕ) → t ≤ inputs.cycles
        → HoldsBefore inputs t (played t (first_network inputs routing)).components }
{
    aeth_stimuli::laws::chips_begin();
    aeth_stimuli::laws::sessions_go();
    aeth_stimuli::laws::sessions_are_apart();
    aeth_stimuli::laws::words_are_placed();
    aeth_stimuli::laws::routed_sessions_are_over_chips();
    aeth_stimuli::laws::events_are_events();
    aeth_stimuli::laws::stimuli_are_stimuli();
    aeth_tables::laws::switches();
    aeth_routed_sessions::laws::runs_have_routed_sessions();
    aeth_refinement::laws::runs_begin();
    aeth_refinement::laws::components_are_prepared();
    aeth_refinement::laws::cycles_are_cycles();
    aeth_refinement::laws::cycles_keep_running();
    aeth_refinement::laws::flits_are_counted();
    aeth_refinement::laws::sessions_are_logged();
    aeth_refinement::laws::landings_are_noted();
}

/// Once it is ready for a cycle each session in use has its channel, with the counts of its private server, and
/// no other channel is open.
pub fn networks_serve()
    ensures { (inputs : Inputs) → AreAccepted inputs → (routing : Routing)
        → IsRoutingFor inputs routing → (t : ℕ) → t < inputs.cycles
        → let all = played t (first_network inputs routing) in
        IsServing inputs t all.components (ready_in all) }
{
    aeth_stimuli::laws::chips_begin();
    aeth_stimuli::laws::sessions_go();
    aeth_stimuli::laws::sessions_are_apart();
    aeth_stimuli::laws::words_are_placed();
    aeth_stimuli::laws::routed_sessions_are_over_chips();
    aeth_stimuli::laws::events_are_events();
    aeth_stimuli::laws::stimuli_are_stimuli();
    aeth_tables::laws::switches();
    aeth_routed_sessions::laws::runs_have_routed_sessions();
    aeth_refinement::laws::runs_begin();
    aeth_refinement::laws::components_are_prepared();
    aeth_refinement::laws::cycles_are_cycles();
    aeth_refinement::laws::cycles_keep_running();
    aeth_refinement::laws::flits_are_counted();
    aeth_refinement::laws::sessions_are_logged();
    aeth_refinement::laws::landings_are_noted();
}

/// The cycles of a run that leave its network as it is, but for sessions that go in cycle 0 and for how
/// receivers take, are its idle cycles.
pub fn idle_cycles_are_still()
    ensures { (inputs : Inputs) → AreAccepted inputs → (routing : Routing)
        → IsRoutingFor inputs routing → (t : ℕ) → t < inputs.cycles
        → IsStill (played t (first_network inputs routing)) ↔ IsIdleCycle (run_of inputs) t }
{
    networks_run();
    networks_serve();
    networks_carry();
    aeth_routed_sessions::laws::runs_have_routed_sessions();
    aeth_tables::laws::switches();
}

/// A cycle that leaves a network leaves its components just as they are once they are ready for it: sessions
/// have gone, which they do in cycle 0 alone, and receivers take as their rows say.
///
/// Behind cycle 0 it leaves all else of the network too.
pub fn still_cycles_rest()
    ensures components { (inputs : Inputs) → AreAccepted inputs → (routing : Routing)
        → IsRoutingFor inputs routing → (t : ℕ) → t < inputs.cycles
        → IsStill (played t (first_network inputs routing))
        → (played (t + 1) (first_network inputs routing)).components
        ≡ ready_in (played t (first_network inputs routing)) }
    ensures later { (inputs : Inputs) → AreAccepted inputs → (routing : Routing)
        → IsRoutingFor inputs routing → (t : ℕ) → t < inputs.cycles → 0 < t
        → IsStill (played t (first_network inputs routing))
        → played (t + 1) (first_network inputs routing) ≡ passed_over (played t (first_network inputs routing)) }
{
    networks_run();
    networks_serve();
    idle_cycles_are_still();
    aeth_stimuli::laws::events_are_events();
    aeth_routed_sessions::laws::runs_have_routed_sessions();
    aeth_refinement::laws::switches_are_made();
    aeth_refinement::laws::cycles_are_cycles();
}

/// Where the wires of a network are empty and so many cycles leave it, the next one leaves it too just
/// where it is quiet: no word is offered in it, it is in no switch's window, no component sends in it as
/// it stands now, and no open channel has a word that its receiver takes.
pub fn quiet_cycles_are_still()
    ensures { (inputs : Inputs) → AreAccepted inputs → (routing : Routing)
        → IsRoutingFor inputs routing → (t k : ℕ) → t + k < inputs.cycles
        → ((l : ℕ) → flit_on (played t (first_network inputs routing)).components.wires l ≡ None)
        → ((j : ℕ) → j < k → IsStill (played (t + j) (first_network inputs routing)))
        → IsStill (played (t + k) (first_network inputs routing))
        ↔ IsQuiet (played t (first_network inputs routing)) k }
{
    networks_run();
    networks_serve();
    still_cycles_rest();
    aeth_stimuli::laws::events_are_events();
    aeth_routed_sessions::laws::runs_have_routed_sessions();
    aeth_refinement::laws::switches_are_made();
    aeth_refinement::laws::cycles_are_cycles();
    aeth_tables::laws::switches();
}

/// Behind a cycle that leaves a network its sessions have gone and its receivers take as their rows say,
/// and else it is as it was. Behind so many later ones its receivers take as the rows of all of these
/// say, and nothing else has changed.
pub fn networks_rest()
    ensures one { (inputs : Inputs) → AreAccepted inputs → (routing : Routing)
        → IsRoutingFor inputs routing → (t : ℕ) → t < inputs.cycles
        → IsStill (played t (first_network inputs routing))
        → played (t + 1) (first_network inputs routing) ≡ brought_over (played t (first_network inputs routing)) }
    ensures later { (inputs : Inputs) → AreAccepted inputs → (routing : Routing)
        → IsRoutingFor inputs routing → (t k : ℕ) → t + k ≤ inputs.cycles
        → 0 < t → ((j : ℕ) → j < k → IsStill (played (t + j) (first_network inputs routing)))
        → played (t + k) (first_network inputs routing) ≡ rested k (played t (first_network inputs routing)) }
{
    still_cycles_rest();
}

/// The wires of the network of accepted inputs carry in each cycle what the run of the private servers
/// says. The first wire of a link has the one flit that the link carries in that cycle, or none. Each
/// further wire has what the link carried as many cycles before, and nothing before that. Before the
/// first cycle no wire has a flit.
pub fn networks_carry()
    ensures first { (inputs : Inputs) → AreAccepted inputs → (routing : Routing)
        → IsRoutingFor inputs routing → (l t : ℕ) → t < inputs.cycles
        → l < length inputs.chip.links
        → option_to_list (flit_on (played (t + 1) (first_network inputs routing)).components.wires l)
        ≡ carries (run_of inputs) l t }
    ensures behind { (inputs : Inputs) → AreAccepted inputs → (routing : Routing)
        → IsRoutingFor inputs routing → (link : LinkId) (k : ℕ)
        → k < delay_of inputs.chip.links link → (t : ℕ) → t + k < inputs.cycles
        → option_to_list (flit_on (played (t + k + 1) (first_network inputs routing)).components.wires
        (wire_at inputs.chip.links link.0 k))
        ≡ carries (run_of inputs) link.0 t }
    ensures early { (inputs : Inputs) → AreAccepted inputs → (routing : Routing)
        → IsRoutingFor inputs routing → (link : LinkId) (k : ℕ)
        → k < delay_of inputs.chip.links link → (t : ℕ) → t < k → t < inputs.cycles
        → flit_on (played (t + 1) (first_network inputs routing)).components.wires
        (wire_at inputs.chip.links link.0 k) ≡ None }
    ensures empty { (inputs : Inputs) → AreAccepted inputs → (routing : Routing)
        → IsRoutingFor inputs routing → (l : ℕ)
        → flit_on (played 0 (first_network inputs routing)).components.wires l ≡ None }
{
    networks_run();
    aeth_routed_sessions::laws::runs_have_routed_sessions();
    aeth_routed_sessions::laws::routed_sessions_carry();
    aeth_invariant::laws::wires_carry();
}

/// The network of accepted inputs loses nothing. In each cycle a flit on a wire that ends at a router
/// names one of its ports, and no other flit that comes there names that port. No flit on a wire has a
/// payload count of 3. No receive queue ever holds more words than the buffer of the session that lands
/// there, and it holds all of its words that have landed and were not taken, in their order.
pub fn networks_lose_nothing()
    ensures passed { (inputs : Inputs) → AreAccepted inputs → (routing : Routing)
        → IsRoutingFor inputs routing → (t : ℕ) → t < inputs.cycles
        → (m r : ℕ) (flit : Flit) → (routed_sessions_of inputs).end m ≡ AtRouter r
        → flit_on (played (t + 1) (first_network inputs routing)).components.wires m ≡ Some flit
        → IsPassed (routed_sessions_of inputs)
        (flit_on (played (t + 1) (first_network inputs routing)).components.wires) m r flit }
    ensures read { (inputs : Inputs) → AreAccepted inputs → (routing : Routing)
        → IsRoutingFor inputs routing → (t : ℕ) → t < inputs.cycles
        → (l : ℕ) (flit : Flit)
        → flit_on (played (t + 1) (first_network inputs routing)).components.wires l ≡ Some flit
        → (arrival : Arrival) × (arrival_of (Some flit) ≡ Some arrival) }
    ensures room { (inputs : Inputs) → AreAccepted inputs → (routing : Routing)
        → IsRoutingFor inputs routing → (t : ℕ) → t ≤ inputs.cycles
        → (c : ℕ) → c < (routed_sessions_of inputs).count → Owns (routed_sessions_of inputs) c t
        → length (queue_of (played t (first_network inputs routing)).components.parts
        ((routed_sessions_of inputs).routed_session c).ni
        ((routed_sessions_of inputs).routed_session c).queue).received
        ≤ (server_at (routed_sessions_of inputs) ((routed_sessions_of inputs).opposite c)).buffer }
    ensures kept { (inputs : Inputs) → AreAccepted inputs → (routing : Routing)
        → IsRoutingFor inputs routing → (t : ℕ) → t ≤ inputs.cycles
        → (c : ℕ) → c < (routed_sessions_of inputs).count → Owns (routed_sessions_of inputs) c t
        → let d = (routed_sessions_of inputs).opposite c in
        (queue_of (played t (first_network inputs routing)).components.parts
        ((routed_sessions_of inputs).routed_session c).ni
        ((routed_sessions_of inputs).routed_session c).queue).received
        ≡ words_from (flow_at (routed_sessions_of inputs) d).values
        (taken (server_at (routed_sessions_of inputs) d) t)
        (landed (server_at (routed_sessions_of inputs) d) (t + 1)
        - taken (server_at (routed_sessions_of inputs) d) t) }
{
    networks_run();
    aeth_routed_sessions::laws::runs_have_routed_sessions();
    aeth_invariant::laws::no_flit_is_lost();
    aeth_invariant::laws::queues_fit();
}

/// In no cycle does the network of accepted inputs lose anything, by whatever its routers send on. Each flit that came
/// to a router in the cycle before goes on, behind its hop. Behind the cycle each receive queue in use has all words of
/// its session that have landed and weren't taken, so it wasn't full when one came.
pub fn cycles_lose_nothing()
    ensures { (inputs : Inputs) → AreAccepted inputs → (routing : Routing)
        → IsRoutingFor inputs routing → (t : ℕ) → t < inputs.cycles
        → LosesNothing inputs (t + 1) (played t (first_network inputs routing)).components
        (played (t + 1) (first_network inputs routing)).components }
{
    networks_run();
    aeth_routed_sessions::laws::runs_have_routed_sessions();
    aeth_invariant::laws::queues_fit();
}

/// The log of the network of accepted inputs is that of their run: each word lands in the cycle in which it
/// does on the private server of its session, whatever all other channels do, and each link carries as many
/// flits.
pub fn networks_log()
    ensures { (inputs : Inputs) → AreAccepted inputs → (routing : Routing)
        → IsRoutingFor inputs routing → network_log inputs routing ≡ log_of (run_of inputs) }
{
    networks_run();
    aeth_stimuli::laws::sessions_go();
    aeth_stimuli::laws::sessions_are_apart();
    aeth_accepted::laws::runs_are_sound();
    aeth_routed_sessions::laws::routed_sessions_carry();
}

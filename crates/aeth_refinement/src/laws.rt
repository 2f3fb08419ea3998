//! What holds of the components of a network over routed sessions, over the definitions alone.
ghost use Rattle.std.specs.Prelude.{◌≡◌, ◌≤◌, ◌<◌, ◌-◌, ◌+◌, ℕ, suc, List, None, Option, length, map};
ghost use Rattle.aeth_clocked.specs.Wires.{flit_on};
ghost use Rattle.aeth_clocked.specs.declared.flit.Flit.{Flit};
ghost use Rattle.aeth_router.specs.Part.{absorb_of};
ghost use Rattle.aeth_router.specs.declared.part.Part.{Part};
ghost use Rattle.aeth_components.specs.Changes.{switched};
ghost use Rattle.aeth_base.specs.Limits.{max_cycles};
ghost use Rattle.aeth_components.specs.Components.{ComponentsState, IsComponents, wires_driven};
ghost use Rattle.aeth_components.specs.Components.{ComponentsCycle};
ghost use Rattle.aeth_components.specs.Wirings.{IsWired, wiring_of};
ghost use Rattle.aeth_components.specs.Phases.{Moment, in_turn, pulled, refilled};
ghost use Rattle.aeth_components.specs.View.{queue_of as queue_in};
ghost use Rattle.aeth_components.specs.Switching.{entry_of};
ghost use Rattle.aeth_components.specs.declared.event.Event.{Event};
ghost use Rattle.aeth_server.specs.PrivateServer.{arrived, landed, taken};
ghost use Rattle.aeth_invariant.specs.WellRouted.{AreWellRouted};
ghost use Rattle.aeth_invariant.specs.Carried.{Exact};
ghost use Rattle.aeth_invariant.specs.Components.{Net, driven, queue_of};
ghost use Rattle.aeth_invariant.specs.Cycle.{NetCycle, Latched, Refilled, Took};
ghost use Rattle.aeth_invariant.specs.RoutedSessions.{RoutedSessions, IsOpenSession, server_at};
ghost use Rattle.aeth_invariant.specs.Switches.{Switched};
ghost use Rattle.aeth_refinement.specs.Beginning.{AreEmpty, loaded_with};
ghost use Rattle.aeth_refinement.specs.Events.{AreEvents};
ghost use Rattle.aeth_refinement.specs.Following.{Follows};
ghost use Rattle.aeth_refinement.specs.WiredFor.{IsWiredFor};
ghost use Rattle.aeth_refinement.specs.Places.{ArePlaced, HavePlaces};
ghost use Rattle.aeth_refinement.specs.Routed.{AreRoutedBy};
ghost use Rattle.aeth_refinement.specs.Running.{Prepares, Runs, Starts};
ghost use Rattle.aeth_refinement.specs.Served.{AreServed, enqueued_after};
ghost use Rattle.aeth_refinement.specs.Logging.{CountsFlits, HasLogged, NotesLandings};
ghost use Rattle.aeth_refinement.specs.View.{HaveLatched, net_of};

/// The events of a cycle make what the law on networks says, where they are those of routed
/// sessions.
pub fn switches_are_made()
    ensures { (sessions : RoutedSessions) (e : ℕ) (events : List Event) (parts : List Part)
        (enqueued : ℕ → ℕ) (wires : List (Option Flit)) (count : ℕ)
        → IsWiredFor sessions (map wiring_of parts) count → AreEvents sessions e events
        → Switched sessions e (net_of enqueued parts wires)
        (net_of enqueued (switched events parts) wires) }
{
    aeth_components::laws::events_change_their_own();
}

/// The source queues are refilled as in the law on networks, where each channel in use is that of a
/// session, which has enqueued no more than has arrived.
pub fn queues_are_refilled()
    ensures { (sessions : RoutedSessions) → AreWellRouted sessions
        → (channel : ℕ → ℕ) (words : List ℕ)
        (t lands takes : ℕ) (enqueued : ℕ → ℕ) (moment : Moment) (wires : List (Option Flit))
        (count : ℕ) → IsWiredFor sessions (map wiring_of moment.parts) count
        → AreServed sessions channel words t lands takes enqueued moment.channel_states
        → ((c : ℕ) → c < sessions.count → IsOpenSession sessions c t
        → enqueued c ≤ arrived (server_at sessions c) (t + 1))
        → Refilled sessions t (net_of enqueued moment.parts wires)
        (net_of (enqueued_after sessions (net_of enqueued moment.parts wires) t)
        (in_turn (refilled words t) moment).parts wires) }
{
    aeth_components::laws::turns_are_taken_alone();
}

/// The receivers take as in the law on networks, where no queue holds more than has landed of its
/// session and wasn't taken.
pub fn words_are_taken()
    ensures { (sessions : RoutedSessions) → AreWellRouted sessions
        → (channel : ℕ → ℕ) (words : List ℕ)
        (t lands takes : ℕ) (enqueued : ℕ → ℕ) (moment : Moment) (wires : List (Option Flit))
        (count : ℕ) → IsWiredFor sessions (map wiring_of moment.parts) count
        → AreServed sessions channel words t lands takes enqueued moment.channel_states
        → (old : Net)
        → ((n x : ℕ) → old.entry n x ≡ entry_of moment.parts n x)
        → ((c : ℕ) → c < sessions.count → queue_of sessions old c
        ≡ queue_in moment.parts (sessions.routed_session c).ni (sessions.routed_session c).queue)
        → ((c : ℕ) → c < sessions.count → IsOpenSession sessions c t
        → length (queue_of sessions old c).received
        ≤ landed (server_at sessions (sessions.opposite c)) lands
        - taken (server_at sessions (sessions.opposite c)) takes)
        → Took sessions t old (net_of enqueued (in_turn (pulled t) moment).parts wires) }
{
    aeth_components::laws::turns_are_taken_alone();
}

/// The components of routed sessions drive on each wire what the law on networks says, by headers
/// or by tables: where they hold what the routed sessions carried in the cycle before, or nothing
/// in the first cycle, and tables have the sessions of the cycle.
pub fn wires_are_driven()
    ensures { (sessions : RoutedSessions) → AreWellRouted sessions → (parts : List Part)
        (old : List (Option Flit)) (t : ℕ) (enqueued : ℕ → ℕ)
        → IsWired (map wiring_of parts) (length old)
        → IsWiredFor sessions (map wiring_of parts) (length old) → HaveLatched parts old
        → AreRoutedBy sessions t parts → ((v : ℕ) → suc v ≡ t → Exact sessions v (flit_on old))
        → (t ≡ 0 → (l : ℕ) → flit_on old l ≡ None) → (l : ℕ)
        → flit_on (wires_driven parts (length old) t) l
        ≡ driven sessions (net_of enqueued parts old) t l }
{}

/// They latch as it says, and hold then what the wires had.
pub fn wires_are_latched()
    ensures latched { (sessions : RoutedSessions) → AreWellRouted sessions → (parts : List Part)
        (wires : List (Option Flit)) (count : ℕ) → IsWiredFor sessions (map wiring_of parts) count
        → (enqueued : ℕ → ℕ) (old : List (Option Flit))
        → Latched sessions (flit_on wires) (net_of enqueued parts old)
        (net_of enqueued (map (λ part. absorb_of part wires) parts) wires) }
    ensures held { (parts : List Part) (wires : List (Option Flit))
        → HaveLatched (map (λ part. absorb_of part wires) parts) wires }
{}

/// One cycle of components that follow the private servers of routed sessions, with the events that
/// the routed sessions have in that cycle, is a cycle of the law on networks, and they follow them
/// still.
pub fn cycles_are_cycles()
    ensures cycle { (sessions : RoutedSessions) → AreWellRouted sessions → (channel : ℕ → ℕ)
        (events : List Event) (t : ℕ) (enqueued : ℕ → ℕ) (old new : ComponentsState)
        → Follows sessions channel t t enqueued old → AreEvents sessions (t + 1) events
        → ComponentsCycle events t old new
        → NetCycle sessions t (net_of enqueued old.parts old.wires) (flit_on new.wires)
        (net_of
        (enqueued_after sessions (net_of enqueued (switched events old.parts) old.wires) t)
        new.parts new.wires) }
    ensures follows { (sessions : RoutedSessions) → AreWellRouted sessions → (channel : ℕ → ℕ)
        (events : List Event) (t : ℕ) (enqueued : ℕ → ℕ) (old new : ComponentsState)
        → Follows sessions channel t t enqueued old → AreEvents sessions (t + 1) events
        → ComponentsCycle events t old new
        → Follows sessions channel t (t + 1)
        (enqueued_after sessions (net_of enqueued (switched events old.parts) old.wires) t) new }
    ensures exact { (sessions : RoutedSessions) → AreWellRouted sessions → (channel : ℕ → ℕ)
        (events : List Event) (t : ℕ) (enqueued : ℕ → ℕ) (old new : ComponentsState)
        → Follows sessions channel t t enqueued old → AreEvents sessions (t + 1) events
        → ComponentsCycle events t old new → Exact sessions t (flit_on new.wires) }
{
    switches_are_made();
    aeth_components::laws::turns_are_taken_alone();
}

/// Components between two cycles follow the private servers, once they are prepared.
pub fn components_are_prepared()
    ensures { (sessions : RoutedSessions) → AreWellRouted sessions
        → (channel : ℕ → ℕ) (t : ℕ) (enqueued : ℕ → ℕ)
        (old ready : ComponentsState) → Runs sessions channel t enqueued old
        → Prepares sessions channel t old ready → Follows sessions channel t t enqueued ready }
{}

/// From a cycle to the next components run on: they are prepared, and do the cycle with the events
/// that the routed sessions have in it.
pub fn cycles_keep_running()
    ensures { (sessions : RoutedSessions) → AreWellRouted sessions
        → (channel : ℕ → ℕ) (events : List Event)
        (t : ℕ) (enqueued : ℕ → ℕ) (old ready new : ComponentsState)
        → Runs sessions channel t enqueued old → Prepares sessions channel t old ready
        → AreEvents sessions (t + 1) events → ComponentsCycle events t ready new
        → Runs sessions channel (t + 1)
        (enqueued_after sessions (net_of enqueued (switched events ready.parts) ready.wires) t) new }
{
    cycles_are_cycles();
}

/// Empty components run before the first cycle, once the events are done that routed sessions have
/// before it.
pub fn runs_begin()
    ensures { (sessions : RoutedSessions) → AreWellRouted sessions
        → (channel : ℕ → ℕ) (events : List Event)
        (all : ComponentsState) → AreEmpty sessions all → AreEvents sessions 0 events
        → Runs sessions channel 0 (λ c. 0) (loaded_with events all) }
{
    aeth_components::laws::events_change_their_own();
}

/// A cycle whose wires have the flits of the private servers counts for each link the cycles in which
/// these have one there.
pub fn flits_are_counted()
    ensures { (sessions : RoutedSessions) → AreWellRouted sessions → (events : List Event) (t : ℕ)
        (old new : ComponentsState) → IsComponents old → ComponentsCycle events t old new
        → t < max_cycles → Exact sessions t (flit_on new.wires)
        → length new.wires ≡ length old.wires → CountsFlits sessions t old
        → CountsFlits sessions (t + 1) new }
{}

/// Behind each cycle the channel of a session that went tells what has landed and what was taken of it,
/// also once it is finished, until another session goes over the channel.
pub fn sessions_are_logged()
    ensures { (sessions : RoutedSessions) (channel : ℕ → ℕ) (events : List Event) (t : ℕ)
        (more : ℕ → ℕ)
        (old ready new : ComponentsState) → Prepares sessions channel t old ready
        → ComponentsCycle events t ready new → Follows sessions channel t (t + 1) more new → (c : ℕ)
        → c < sessions.count → (server_at sessions c).go ≤ t
        → (server_at sessions c).go < (server_at sessions c).finish
        → ((server_at sessions c).finish ≤ t → Starts sessions channel t (channel c) → ⊥)
        → ((server_at sessions c).go < t → HasLogged sessions channel t c old)
        → HasLogged sessions channel (t + 1) c new }
{
    aeth_components::laws::turns_are_taken_alone();
}

/// A cycle of components that follow the private servers notes for each word that lands the cycle in
/// which it lands there, at its place among all words, and leaves all others.
pub fn landings_are_noted()
    ensures { (sessions : RoutedSessions) → AreWellRouted sessions
        → (channel : ℕ → ℕ) (events : List Event)
        (t : ℕ) (enqueued : ℕ → ℕ) (old new : ComponentsState)
        → Follows sessions channel t t enqueued old → AreEvents sessions (t + 1) events
        → ComponentsCycle events t old new → (first : ℕ → ℕ)
        → HavePlaces sessions channel first t old.channel_states
        → ArePlaced sessions first (length old.landings)
        → NotesLandings sessions first t old → NotesLandings sessions first (t + 1) new }
{
    switches_are_made();
    aeth_components::laws::turns_are_taken_alone();
    aeth_components::laws::landings_are_noted_alone();
}

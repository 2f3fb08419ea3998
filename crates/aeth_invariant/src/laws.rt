//! What holds of every network whose sessions are those of an accepted plan, over the definitions
//! alone.
ghost use Rattle.std.specs.Prelude.{◌≡◌, ◌≤◌, ◌<◌, ◌+◌, ◌-◌, ◌++◌, ℕ, min, length, map};
ghost use Rattle.std.specs.Prelude.{None, Option, Some};
ghost use Rattle.std.specs.Option.{option_to_list};
ghost use Rattle.aeth_clocked.specs.declared.flit.Flit.{Flit};
ghost use Rattle.aeth_ni.specs.Component.{Arrival, arrival_of};
ghost use Rattle.aeth_router.specs.Ports.{flits_for, sole};
ghost use Rattle.aeth_invariant.specs.Tables.{AreEntries, GoesOnOnce, passed_on};
ghost use Rattle.aeth_server.specs.PrivateServer.{landed, pull_at, taken};
ghost use Rattle.aeth_invariant.specs.WellRouted.{AreWellRouted};
ghost use Rattle.aeth_invariant.specs.Carried.{Exact, IsPassed, words_from};
ghost use Rattle.aeth_invariant.specs.Carries.{carries};
ghost use Rattle.aeth_invariant.specs.Cycle.{NetCycle};
ghost use Rattle.aeth_invariant.specs.Components.{Net, after, queue_of, words_for};
ghost use Rattle.aeth_invariant.specs.RoutedSessions.{AtRouter, RoutedSessions, Owns, flow_at};
ghost use Rattle.aeth_invariant.specs.RoutedSessions.{server_at};
ghost use Rattle.aeth_invariant.specs.Runs.{Begins, History};
ghost use Rattle.aeth_invariant.specs.Standing.{Stands};

/// Before the first cycle the components stand as the private servers say, whose counts are 0.
pub fn runs_begin_standing()
    ensures { (sessions : RoutedSessions) → AreWellRouted sessions → (net : Net)
        → Begins sessions net
        → Stands sessions 0 0 net }
{}

/// One cycle leads from components that stand to components that stand, and its wires have the
/// flits that the private servers send, and nothing else.
pub fn cycles_keep_standing()
    ensures wires { (sessions : RoutedSessions) → AreWellRouted sessions → (t : ℕ) (old new : Net)
        (wires : ℕ → Option Flit) → Stands sessions t t old → NetCycle sessions t old wires new
        → Exact sessions t wires }
    ensures components { (sessions : RoutedSessions) → AreWellRouted sessions
        → (t : ℕ) (old new : Net)
        (wires : ℕ → Option Flit) → Stands sessions t t old → NetCycle sessions t old wires new
        → Stands sessions (t + 1) (t + 1) new }
{}

/// Before each cycle of a run the components stand as the private servers say, and in each the
/// wires have what these send.
pub fn components_stand()
    ensures components { (sessions : RoutedSessions) → AreWellRouted sessions → (nets : ℕ → Net)
        (wires : ℕ → ℕ → Option Flit) → History sessions nets wires → (t : ℕ)
        → Stands sessions t t (nets t) }
    ensures wires { (sessions : RoutedSessions) → AreWellRouted sessions → (nets : ℕ → Net)
        (wires : ℕ → ℕ → Option Flit) → History sessions nets wires → (t : ℕ)
        → Exact sessions t (wires t) }
{}

/// Each wire has the one flit that it carries, or none; it never carries two.
pub fn wires_carry()
    ensures { (sessions : RoutedSessions) → AreWellRouted sessions
        → (t : ℕ) (wires : ℕ → Option Flit)
        → Exact sessions t wires → (l : ℕ) → carries sessions l t ≡ option_to_list (wires l) }
{}

/// No receive queue ever holds more than its session's buffer, and in a cycle it keeps all that
/// comes.
pub fn queues_fit()
    ensures buffer { (sessions : RoutedSessions) → AreWellRouted sessions → (t : ℕ) (net : Net)
        → Stands sessions t t net → (c : ℕ) → c < sessions.count → Owns sessions c t
        → length (queue_of sessions net c).received
        ≤ (server_at sessions (sessions.opposite c)).buffer }
    ensures whole { (sessions : RoutedSessions) → AreWellRouted sessions → (t : ℕ) (old new : Net)
        (wires : ℕ → Option Flit) → Stands sessions t t old
        → (cycle : NetCycle sessions t old wires new)
        → (c : ℕ) → c < sessions.count → Owns sessions c (t + 1)
        → (queue_of sessions new c).received ≡ (queue_of sessions cycle.pulled c).received
        ++ words_for (sessions.routed_session c).queue
        (arrival_of (wires (sessions.entering (sessions.routed_session c).ni))) }
{}

/// What the wires of a cycle bring to a session's receiver are the words of its private server
/// that land in the next cycle, in their order.
pub fn words_land()
    ensures { (sessions : RoutedSessions) → AreWellRouted sessions
        → (t : ℕ) (wires : ℕ → Option Flit)
        → Exact sessions t wires → (c : ℕ) → c < sessions.count → Owns sessions c (t + 1)
        → words_for (sessions.routed_session (sessions.opposite c)).queue
        (arrival_of (wires (sessions.entering (sessions.routed_session (sessions.opposite c)).ni)))
        ≡ words_from (flow_at sessions c).values (landed (server_at sessions c) (t + 1))
        (landed (server_at sessions c) (t + 2) - landed (server_at sessions c) (t + 1)) }
{}

/// What a receiver takes in a cycle, of the words that are there behind the drive, is what its
/// private server takes.
pub fn words_are_taken()
    ensures { (sessions : RoutedSessions) → AreWellRouted sessions → (t : ℕ) (old new : Net)
        (wires : ℕ → Option Flit) → Stands sessions t t old
        → (cycle : NetCycle sessions t old wires new)
        → (c : ℕ) → c < sessions.count → Owns sessions c (t + 1)
        → taken (server_at sessions (sessions.opposite c)) (t + 1)
        ≡ taken (server_at sessions (sessions.opposite c)) t
        + min (pull_at (server_at sessions (sessions.opposite c)) t)
        (length (queue_of sessions (after sessions cycle.ready t) c).received) }
{}

/// A flit that a router holds names one of its ports, and no other flit that it holds names that
/// port. No flit on a wire has a payload count of 3.
pub fn no_flit_is_lost()
    ensures passed { (sessions : RoutedSessions) → AreWellRouted sessions
        → (t : ℕ) (held : ℕ → Option Flit)
        → Exact sessions t held → (m r : ℕ) (flit : Flit) → sessions.end m ≡ AtRouter r
        → held m ≡ Some flit → IsPassed sessions held m r flit }
    ensures read { (sessions : RoutedSessions) → AreWellRouted sessions
        → (t : ℕ) (wires : ℕ → Option Flit)
        → Exact sessions t wires → (l : ℕ) (flit : Flit) → wires l ≡ Some flit
        → (arrival : Arrival) × (arrival_of (Some flit) ≡ Some arrival) }
{}

/// Where routers hold what the routed sessions carried in the cycle before, or nothing in the first
/// cycle, tables that have just the entries of the sessions in them send on what headers do.
pub fn tables_forward()
    ensures after { (sessions : RoutedSessions) → AreWellRouted sessions → 0 < sessions.size
        → (t : ℕ)
        (held : ℕ → Option Flit) → Exact sessions t held → (from : ℕ → Option ℕ)
        → AreEntries sessions (t + 1) from → (l r : ℕ) → sessions.start l ≡ AtRouter r
        → passed_on from held l
        ≡ sole (flits_for (sessions.port l) (map held (sessions.incoming r))) }
    ensures first { (sessions : RoutedSessions) (held : ℕ → Option Flit) → ((l : ℕ) → held l ≡ None)
        → (from : ℕ → Option ℕ) (l r : ℕ) → passed_on from held l
        ≡ sole (flits_for (sessions.port l) (map held (sessions.incoming r))) }
{}

/// There each flit that a router holds goes on by one wire, and by no other.
pub fn tables_lose_nothing()
    ensures { (sessions : RoutedSessions) → AreWellRouted sessions → 0 < sessions.size → (t : ℕ)
        (held : ℕ → Option Flit) → Exact sessions t held → (from : ℕ → Option ℕ)
        → AreEntries sessions (t + 1) from → (m r : ℕ) (flit : Flit) → sessions.end m ≡ AtRouter r
        → held m ≡ Some flit → GoesOnOnce sessions from m r }
{}

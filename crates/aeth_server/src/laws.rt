// What holds of every server, over the definitions alone.
ghost use Rattle.std.specs.Prelude.{◌≡◌, ℕ, ◌+◌, ◌-◌, ◌*◌, ◌<◌, ◌≤◌, ◌↔◌, Bool, List, length};
ghost use Rattle.std.specs.Prelude.{min, slice_index};
ghost use Rattle.std.specs.List.Sorted.{IsNonDecreasing};
ghost use Rattle.aeth_slots.specs.SlotSet.{Ascends};
ghost use Rattle.aeth_server.specs.CountLaws.{FitsFlit, HasGrown, HasRoom, IsAlike, IsClosed};
ghost use Rattle.aeth_server.specs.CountLaws.{IsIdle, IsInOrder, IsStep};
ghost use Rattle.aeth_server.specs.FinishTimes.{due_cycle};
ghost use Rattle.aeth_server.specs.Landing.{IsDue, LandsAt, LandsBy, WaitsAlone, due_time};
ghost use Rattle.aeth_server.specs.Landing.{landing_cycle};
ghost use Rattle.aeth_server.specs.Latency.{BoundsService, latency_of};
ghost use Rattle.aeth_server.specs.PrivateServer.{PrivateServer, counts, landed, pull_at};
ghost use Rattle.aeth_server.specs.Progress.{after_word, progress_of};
ghost use Rattle.aeth_server.specs.Shape.{HasPaths, IsGranted, Shape, buffer_of, round_trip};
ghost use Rattle.aeth_server.specs.SlotCycles.{IsNextCycle};
ghost use Rattle.aeth_server.specs.SlotServer.{IsBusyPeriod, IsSentBy, KeepsRate, SendsInTurn};
ghost use Rattle.aeth_server.specs.SlotServer.{ServesAtRate, ServesInFull, SlotServer, own_finish};
ghost use Rattle.aeth_server.specs.AloneState.{FitsMemory, IsGivenAt, AloneState, IsStateAt};
ghost use Rattle.aeth_server.specs.AloneState.{after_cycle, first_state};
ghost use Rattle.aeth_server.specs.WordCycles.{IsCreditReady, IsOpenFor, IsReadyToGo, IsTakingFrom};
ghost use Rattle.aeth_server.specs.WordCycles.{crediting_cycle, sending_cycle, taking_cycle};

/// The latency of a slot set is the least that bounds its service.
pub fn least_latency()
    ensures enough { (size : ℕ) (slots : List ℕ) (cap rate : ℕ) → 1 ≤ rate
        → BoundsService size slots cap rate (latency_of size slots cap rate) }
    ensures least { (size : ℕ) (slots : List ℕ) (cap rate theta : ℕ) → 1 ≤ rate
        → BoundsService size slots cap rate theta → latency_of size slots cap rate ≤ theta }
{}

/// Each slot from some cycle up to `t` was served in full, and nothing waited before that cycle.
pub fn service()
    ensures { (size : ℕ) (slots : List ℕ) (cap : ℕ) (arrived : ℕ → ℕ) → arrived 0 ≡ 0
        → (t : ℕ) → ServesInFull size slots cap arrived t }
{}

/// A server sends each word by its finish time, and a busy period has the service of a latency-rate
/// server, in whole words. After Stiliadis and Varma (1998).
pub fn slot_server()
    ensures in_time { (server : SlotServer) → KeepsRate server
        → (i : ℕ) → 1 ≤ i → i ≤ length server.arrivals → IsSentBy server i (own_finish server i) }
    ensures busy { (server : SlotServer) → KeepsRate server
        → (first n : ℕ) → IsBusyPeriod server first n
        → (k : ℕ) → 1 ≤ k → k ≤ n → SendsInTurn server first k }
    ensures at_rate { (server : SlotServer) → KeepsRate server
        → (first n : ℕ) → IsBusyPeriod server first n
        → (t : ℕ) → ServesAtRate server first n t }
{}

/// The counts of a private server, from cycle to cycle. These are the only way to its history.
pub fn private_server()
    ensures first { (server : PrivateServer) → IsIdle server 0 }
    ensures step { (server : PrivateServer) → HasPaths server.shape → (t : ℕ) → IsStep server t }
{}

/// The order of a private server's counts: words go for credits alone, so the receiver never holds
/// more than the buffer, and has room for what lands in a cycle before it takes any of it; what goes in
/// a cycle fits in a flit; no count falls; nothing is done before the session goes, nothing is sent
/// from its stop on, and nothing is taken from its finish on.
pub fn count_order()
    ensures order { (server : PrivateServer) → HasPaths server.shape
        → (t : ℕ) → IsInOrder server t }
    ensures room { (server : PrivateServer) → HasPaths server.shape → (t : ℕ) → HasRoom server t }
    ensures flit { (server : PrivateServer) → HasPaths server.shape → (t : ℕ) → FitsFlit server t }
    ensures grown { (server : PrivateServer) → HasPaths server.shape
        → (s t : ℕ) → s ≤ t → HasGrown server s t }
    ensures idle { (server : PrivateServer) → HasPaths server.shape
        → (t : ℕ) → t ≤ server.go → IsIdle server t }
    ensures closed { (server : PrivateServer) → HasPaths server.shape
        → (t : ℕ) → IsClosed server t }
{}

/// The counts of a private server depend on nothing but what it is given up to then.
pub fn independence()
    ensures { (one other : PrivateServer) (t : ℕ) → IsAlike one other t
        → counts one t ≡ counts other t }
{}

/// What `Alone` remembers is the state of a private server: it is so before the first cycle, and
/// after each cycle that brings what the server is given.
pub fn alone_state()
    ensures first { (server : PrivateServer)
        → IsStateAt server 0 (first_state server.shape server.buffer) }
    ensures next { (server : PrivateServer) → FitsMemory server.shape
        → (t : ℕ) (s : AloneState) → IsStateAt server t s
        → (words pull : ℕ) (may_send : Bool) → IsGivenAt server t words pull may_send
        → IsStateAt server (t + 1) (after_cycle s words pull may_send) }
    ensures lands { (server : PrivateServer) → FitsMemory server.shape
        → (t : ℕ) (s : AloneState) → IsStateAt server t s
        → slice_index s.sent (s.shape.path_delay - 1) ≡ landed server (t + 1) }
{}

/// The buffer holds the words of a round trip at the rate, and two more.
pub fn buffer_room()
    ensures { (shape : Shape) → IsGranted shape
        → shape.rate * round_trip shape + 2 * shape.size ≤ buffer_of shape * shape.size }
{}

/// A word of a private server lands by its due time, while the receiver keeps its delay: the
/// credits never hold it back for longer, whatever arrives.
pub fn bound()
    ensures lands { (server : PrivateServer) → IsGranted server.shape
        → IsNonDecreasing server.offers → buffer_of server.shape ≤ server.buffer
        → (i t : ℕ) → IsDue server i t → LandsBy server i (due_time server i) }
    ensures landed { (server : PrivateServer) → IsGranted server.shape
        → IsNonDecreasing server.offers → buffer_of server.shape ≤ server.buffer
        → (i t : ℕ) → IsDue server i t → i ≤ landed server (t + 1) }
{}

/// A word that waits alone, with a credit left, lands within the latency for which the slots are
/// suitable, whatever the receiver does.
pub fn single_word()
    ensures { (server : PrivateServer) → HasPaths server.shape
        → Ascends 0 server.shape.size server.shape.slots → IsNonDecreasing server.offers
        → (need i a latency : ℕ) → WaitsAlone server need i a latency
        → i ≤ landed server (a + latency + 1) }
{}

/// A word that has landed landed in its landing cycle.
pub fn landing()
    ensures { (server : PrivateServer) (t i : ℕ) → 1 ≤ i → i ≤ landed server t
        → LandsAt server i (landing_cycle server t i) }
{}

/// The due cycle of a finish time has come exactly where the time has passed, and what was done by
/// that time was done by that cycle. Words one after the other have the finish times of all.
pub fn due_cycles()
    ensures passed { (rate finish t : ℕ) → 1 ≤ rate
        → (due_cycle rate finish ≤ t) ↔ (finish ≤ rate * t) }
    ensures in_time { (rate finish t : ℕ) → 1 ≤ rate → rate * t ≤ finish
        → t ≤ due_cycle rate finish }
    ensures next { (size rate latency : ℕ) (arrivals : List ℕ) (i : ℕ)
        → progress_of size rate latency arrivals (i + 1)
        ≡ after_word (progress_of size rate latency arrivals i) (slice_index arrivals i) }
{}

/// When a private server sends each word, lands it, takes it and sends its credit, from the words
/// before it alone, with no step from cycle to cycle. What isn't done in the first `cycles` cycles has
/// these for its cycle.
pub fn word_cycles()
    ensures sent { (server : PrivateServer) (cycles : ℕ) → IsOpenFor server cycles
        → (i m u : ℕ) → IsReadyToGo server cycles i m
        → IsNextCycle server.shape.size server.shape.slots m u
        → sending_cycle server cycles (i + 1) ≡ min u cycles }
    ensures lands { (server : PrivateServer) (cycles : ℕ) → IsOpenFor server cycles
        → (i : ℕ) → 1 ≤ i → landing_cycle server cycles i
        ≡ min (sending_cycle server cycles i + server.shape.path_delay) cycles }
    ensures waits { (server : PrivateServer) (cycles : ℕ) → IsOpenFor server cycles
        → (i t : ℕ) → landing_cycle server cycles (i + 1) ≡ t → t < cycles
        → (1 ≤ i → taking_cycle server cycles i < t) → IsTakingFrom server i t i }
    ensures taken { (server : PrivateServer) (cycles : ℕ) → IsOpenFor server cycles
        → (i t had : ℕ) → IsTakingFrom server i t had → t < cycles → i < had + pull_at server t
        → taking_cycle server cycles (i + 1) ≡ t }
    ensures later { (server : PrivateServer) (cycles : ℕ) → IsOpenFor server cycles
        → (i t had : ℕ) → IsTakingFrom server i t had → had + pull_at server t ≤ i
        → IsTakingFrom server i (t + 1) (had + pull_at server t) }
    ensures credited { (server : PrivateServer) (cycles : ℕ) → IsOpenFor server cycles
        → (i m u : ℕ) → IsCreditReady server cycles i m
        → IsNextCycle server.shape.size server.shape.back_slots m u
        → crediting_cycle server cycles (i + 1) ≡ min u cycles }
{}

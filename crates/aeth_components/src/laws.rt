// What a cycle does to the components, and its phases to a channel and its queue by itself.

ghost use Rattle.std.specs.Prelude.{◌≡◌, ◌≤◌, ◌+◌, ℕ, List, drop, length, min};
ghost use Rattle.aeth_ni.specs.Limits.{max_count};
ghost use Rattle.aeth_ni.specs.Queue.{QueueState, capped};
ghost use Rattle.aeth_router.specs.declared.part.Part.{Part};
ghost use Rattle.aeth_components.specs.Components.{ComponentsState, ComponentsCycle, IsStepped};
ghost use Rattle.aeth_components.specs.Laws.{NotesAlone, RefillsAlone, TakesAlone};
ghost use Rattle.aeth_components.specs.Phases.{Moment};
ghost use Rattle.aeth_components.specs.Queues.{dequeued};
ghost use Rattle.aeth_components.specs.Switching.{SwitchesAlone, WritesAlone};
ghost use Rattle.aeth_components.specs.declared.event.Event.{Event};
ghost use Rattle.aeth_components.specs.declared.channel_state.ChannelState.{ChannelState};

/// What `Components::step` leaves of the components is what simultaneous hardware would: each has
/// driven from its own state, and has latched what all drove.
pub fn components_are_stepped()
    ensures { (events : List Event) (cycle : ℕ) (old new : ComponentsState)
        → ComponentsCycle events cycle old new → IsStepped events cycle old new }
{}

/// In its turn a channel enqueues words, and takes them, as it would alone.
pub fn turns_are_taken_alone()
    ensures refilling { (words : List ℕ) (cycle : ℕ) (moment : Moment)
        → RefillsAlone words cycle moment }
    ensures taking { (cycle : ℕ) (moment : Moment) → TakesAlone cycle moment }
{}

/// An event changes its own queue alone, or writes its own slot alone.
pub fn events_change_their_own()
    ensures queues { (events : List Event) (parts : List Part) → SwitchesAlone events parts }
    ensures slots { (events : List Event) (parts : List Part) → WritesAlone events parts }
{}

/// What is taken from a receive queue, in numbers.
pub fn queues_in_numbers()
    ensures { (times : ℕ) (queue : QueueState) → queue.owed ≤ max_count
        → dequeued times queue ≡ record queue {
          received = drop times queue.received;
          owed = capped (queue.owed + min times (length queue.received));
        } }
{}

/// The cycles in which a channel's words land are noted at the places of its own words alone.
pub fn landings_are_noted_alone()
    ensures { (cycle : ℕ) (parts : List Part) (channel_states : List ChannelState)
        (landings : List ℕ)
        → NotesAlone cycle parts channel_states landings }
{}

//! What holds of the routed sessions of accepted inputs, over the definitions alone.
ghost use Rattle.std.specs.Prelude.{◌≡◌, ◌<◌, ◌+◌, ℕ, [], Option, length};
ghost use Rattle.std.specs.Option.{option_to_list};
ghost use Rattle.aeth_base.specs.declared.ids.LinkId.{LinkId};
ghost use Rattle.aeth_chip.specs.Chip.{ChipData, IsChip};
ghost use Rattle.aeth_chip.specs.Paths.{delay_of};
ghost use Rattle.aeth_chip.specs.Wires.{wire_at};
ghost use Rattle.aeth_clocked.specs.declared.flit.Flit.{Flit};
ghost use Rattle.aeth_report.specs.Carries.{carries as carries_in};
ghost use Rattle.aeth_invariant.specs.WellRouted.{AreWellRouted, IsWired};
ghost use Rattle.aeth_invariant.specs.Carries.{carries};
ghost use Rattle.aeth_invariant.specs.Components.{Net};
ghost use Rattle.aeth_invariant.specs.RoutedSessions.{RoutedSession};
ghost use Rattle.aeth_invariant.specs.Runs.{History};
ghost use Rattle.aeth_accepted.specs.Inputs.{AreAccepted, Inputs, run_of};
ghost use Rattle.aeth_routed_sessions.specs.RoutedSessions.{routed_sessions_of};
ghost use Rattle.aeth_routed_sessions.specs.Wiring.{routed_sessions_on};

/// The wires of a chip are wired as those of routed sessions are to be, whichever these are.
pub fn chips_are_wired()
    ensures { (chip : ChipData) → IsChip chip → (count : ℕ) (routed_session : ℕ → RoutedSession)
        (opposite : ℕ → ℕ) → IsWired (routed_sessions_on chip count routed_session opposite) }
{}

/// The routed sessions of accepted inputs are such that on them the laws of networks rest:
/// components that follow its cycles do what the private servers do.
pub fn runs_have_routed_sessions()
    ensures { (inputs : Inputs) → AreAccepted inputs → AreWellRouted (routed_sessions_of inputs) }
{
    aeth_tables::laws::switches();
}

/// The first wire of a link carries in each cycle what the link does in the run; each further wire
/// carries what the link did as many cycles before, and nothing before that.
pub fn routed_sessions_carry()
    ensures first { (inputs : Inputs) → AreAccepted inputs → (l t : ℕ)
        → l < length inputs.chip.links
        → carries (routed_sessions_of inputs) l t ≡ carries_in (run_of inputs) l t }
    ensures behind { (inputs : Inputs) → AreAccepted inputs → (link : LinkId) (k : ℕ)
        → k < delay_of inputs.chip.links link → (t : ℕ)
        → carries (routed_sessions_of inputs) (wire_at inputs.chip.links link.0 k) (t + k)
        ≡ carries_in (run_of inputs) link.0 t }
    ensures early { (inputs : Inputs) → AreAccepted inputs → (link : LinkId) (k : ℕ)
        → k < delay_of inputs.chip.links link → (t : ℕ) → t < k
        → carries (routed_sessions_of inputs) (wire_at inputs.chip.links link.0 k) t ≡ [] }
{
    aeth_accepted::laws::runs_are_sound();
}

/// In each run of a network over the routed sessions of accepted inputs, the first wire of a link
/// has in each cycle the one flit that the link carries in the run of the private servers, or none.
pub fn networks_carry()
    ensures { (inputs : Inputs) → AreAccepted inputs → (nets : ℕ → Net)
        (wires : ℕ → ℕ → Option Flit) → History (routed_sessions_of inputs) nets wires → (l t : ℕ)
        → l < length inputs.chip.links
        → option_to_list (wires t l) ≡ carries_in (run_of inputs) l t }
{
    runs_have_routed_sessions();
    routed_sessions_carry();
    aeth_invariant::laws::components_stand();
    aeth_invariant::laws::wires_carry();
}

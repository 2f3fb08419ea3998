//! What holds of an allocation, over the definitions alone.
ghost use Rattle.std.specs.Prelude.{◌≡◌, ◌≢◌, ℕ, [], All, AllPairs, Contains, List, None, Some, map};
ghost use Rattle.aeth_app.specs.App.{AppData, IsApp, IsAppOf};
ghost use Rattle.aeth_base.specs.declared.ids.NiId.{NiId};
ghost use Rattle.aeth_book.specs.Book.{BookData, IsBook};
ghost use Rattle.aeth_chip.specs.Chip.{ChipData, IsChip};
ghost use Rattle.aeth_group.specs.Members.{GroupsData, groups_of};
ghost use Rattle.aeth_group.specs.declared.grant.Grant.{Grant};
ghost use Rattle.aeth_paths.specs.Candidates.{IsCandidate, IsFirst};
ghost use Rattle.aeth_paths.specs.Trials.{IsTrialOf, TrialData, book_of};
ghost use Rattle.aeth_paths.specs.declared.request.Found.{Found};
ghost use Rattle.aeth_paths.specs.declared.request.Request.{Request};
ghost use Rattle.aeth_plan.specs.Plan.{IsPlanOf};
ghost use Rattle.aeth_plan.specs.Accepted.{IsAccepted};
ghost use Rattle.aeth_alloc.specs.Allocation.{allocation, last_state};
ghost use Rattle.aeth_alloc.specs.Channels.{Design};
ghost use Rattle.aeth_alloc.specs.FirstCandidate.{first_candidate};
ghost use Rattle.aeth_alloc.specs.Refusals.{IsRefused, LacksOnlyRefused, RefusesExactly};
ghost use Rattle.aeth_alloc.specs.Trials.{GoesOn, refused_of, trials_of};
ghost use Rattle.aeth_alloc.specs.declared.outcome.Refused.{Refused};

/// The first candidate as a function is the first candidate as a fact, and there is none exactly
/// where nothing is a candidate.
pub fn first_candidates()
    ensures some { (chip : ChipData) (book : BookData) (prices : List ℕ) (ask : Request)
        (from to crowded : List NiId) → IsChip chip → IsBook book → book.links ≡ chip.links
        → (found : Found) → IsFirst book prices ask from to crowded found
        → first_candidate chip book prices ask from to crowded ≡ Some found }
    ensures none { (chip : ChipData) (book : BookData) (prices : List ℕ) (ask : Request)
        (from to crowded : List NiId) → IsChip chip → IsBook book → book.links ≡ chip.links
        → ((found : Found) → IsCandidate book ask from to crowded found → ⊥)
        → first_candidate chip book prices ask from to crowded ≡ None }
{}

/// Each unit has its turn: after the last one none waits.
pub fn turns()
    ensures { (design : Design) (groups : GroupsData)
        → (last_state design groups).units.waiting ≡ [] }
{}

/// A refused unit is that of its turn, the side for which it is refused had no candidate, and the turn
/// leaves all that is reserved as it was. Each unit is refused of which a channel has no candidate
/// in its turn.
pub fn refusals()
    ensures rightly { (design : Design) → IsChip design.chip → IsApp design.app
        → IsAppOf design.chip design.app → (refused : Refused)
        → Contains (last_state design (groups_of design.app)).refused refused
        → IsRefused design (groups_of design.app) refused }
    ensures exactly { (design : Design) → IsChip design.chip → IsApp design.app
        → IsAppOf design.chip design.app → RefusesExactly design (groups_of design.app)
        (last_state design (groups_of design.app)).refused }
{}

/// The plan is one for the chip, the application and its groups. It breaks no rule of an accepted plan
/// but the one on missing sides, and that one for refused units alone. It has no grant for a refused
/// unit. With no refusal it is accepted.
pub fn plans()
    ensures is_plan { (chip : ChipData) (app : AppData) (prices : List ℕ) → IsChip chip → IsApp app
        → IsAppOf chip app
        → IsPlanOf chip app (groups_of app) (allocation chip app (groups_of app) prices).plan }
    ensures lacks { (chip : ChipData) (app : AppData) (prices : List ℕ) → IsChip chip → IsApp app
        → IsAppOf chip app
        → LacksOnlyRefused chip app (groups_of app) (allocation chip app (groups_of app) prices) }
    ensures refused { (chip : ChipData) (app : AppData) (prices : List ℕ) → IsChip chip → IsApp app
        → IsAppOf chip app → (refused : Refused)
        → Contains (allocation chip app (groups_of app) prices).refused refused → (grant : Grant)
        → Contains (allocation chip app (groups_of app) prices).plan.grants grant
        → grant.unit ≢ refused.unit }
    ensures accepted { (chip : ChipData) (app : AppData) (prices : List ℕ) → IsChip chip
        → IsApp app → IsAppOf chip app
        → (allocation chip app (groups_of app) prices).refused ≡ []
        → IsAccepted chip app (groups_of app) (allocation chip app (groups_of app) prices).plan }
{}

/// The trials of an allocation tell of its refusals, one by one. Each is one on the chip, and nothing
/// is a candidate for it. The grants before the turn of each stand first in all later ones.
pub fn trials()
    ensures refused { (design : Design) → IsChip design.chip → IsApp design.app
        → IsAppOf design.chip design.app
        → map refused_of (trials_of design.chip design.app (groups_of design.app) design.prices)
        ≡ (last_state design (groups_of design.app)).refused }
    ensures fit { (design : Design) → IsChip design.chip → IsApp design.app
        → IsAppOf design.chip design.app → All (IsTrialOf design.chip)
        (trials_of design.chip design.app (groups_of design.app) design.prices) }
    ensures none { (design : Design) → IsChip design.chip → IsApp design.app
        → IsAppOf design.chip design.app → (trial : TrialData)
        → Contains (trials_of design.chip design.app (groups_of design.app) design.prices) trial
        → (found : Found) → IsCandidate (book_of design.chip (groups_of design.app) trial)
        trial.ask trial.from trial.to trial.crowded found → ⊥ }
    ensures go_on { (design : Design) (groups : GroupsData) → AllPairs GoesOn
        (trials_of design.chip design.app groups design.prices) }
{}

//! What certificates of refusals mean, over the definitions alone.
ghost use Rattle.std.specs.Prelude.{◌≡◌, ◌↔◌, ◌++◌, true, Contains, List, MatchOption};
ghost use Rattle.aeth_base.specs.declared.ids.LinkId.{LinkId};
ghost use Rattle.aeth_chip.specs.Chip.{ChipData, IsChip};
ghost use Rattle.aeth_group.specs.Members.{GroupsData};
ghost use Rattle.aeth_paths.specs.Trials.{TrialData};
ghost use Rattle.aeth_explain.specs.Certificate.{IsFirstCut, certificate_of, cuts_of};
ghost use Rattle.aeth_explain.specs.Cuts.{HasCandidate, IsCertificate};
ghost use Rattle.aeth_explain.specs.Order.{Ascend};
ghost use Rattle.aeth_explain.specs.TryPaths.{is_dead};
ghost use Rattle.aeth_explain.specs.Verdict.{IsLeastOpen, verdict_of};
ghost use Rattle.aeth_explain.specs.declared.verdict.CutVerdict.TheVariants.{Complete, Open};

/// A dead list rules out every list that begins with it: links that are dead stay so, however they go
/// on. Each further link can only take free starts away, and leaves a narrower gap, since it takes
/// longer. So slots that suit a path would suit each list with which it begins.
pub fn dead_fronts()
    ensures { (chip : ChipData) (groups : GroupsData) (trial : TrialData) → IsChip chip
        → (front rest : List LinkId) → is_dead chip groups trial front ≡ true
        → is_dead chip groups trial (front ++ rest) ≡ true }
{}

/// The cuts of a certificate that `cuts_of` gives are exactly the shortest ones: a list is one of them just where it
/// is dead, a path that the try may take begins with it, and no shorter front of it, of one link or more, is dead.
pub fn shortest_cuts()
    ensures { (chip : ChipData) (groups : GroupsData) (trial : TrialData) → IsChip chip
        → (cut : List LinkId)
        → Contains (cuts_of chip groups trial) cut ↔ IsFirstCut chip groups trial cut }
{}

/// A try that has no candidate has a certificate, the shortest cuts; and a try that has a certificate
/// has no candidate.
pub fn certificates()
    ensures has { (chip : ChipData) (groups : GroupsData) (trial : TrialData) → IsChip chip
        → (HasCandidate chip groups trial → ⊥)
        → IsCertificate chip groups trial (cuts_of chip groups trial) }
    ensures rightly { (chip : ChipData) (groups : GroupsData) (trial : TrialData) → IsChip chip
        → (cuts : List (List LinkId)) → IsCertificate chip groups trial cuts
        → HasCandidate chip groups trial → ⊥ }
    ensures only { (chip : ChipData) (groups : GroupsData) (trial : TrialData) → IsChip chip
        → MatchOption (certificate_of chip groups trial) (HasCandidate chip groups trial)
        (IsCertificate chip groups trial) }
{}

/// The verdict says of a list of cuts that it is complete exactly where it is a certificate.
pub fn verdicts()
    ensures { (chip : ChipData) (groups : GroupsData) (trial : TrialData) → IsChip chip
        → (cuts : List (List LinkId))
        → (verdict_of chip groups trial cuts ≡ Complete) ↔ IsCertificate chip groups trial cuts }
{}

/// The cuts that `cuts_of` lists are in the order of a dictionary, none twice. And the path that a verdict names is the
/// least of those that the try may take and that begin with none of the lists.
pub fn orders()
    ensures cuts { (chip : ChipData) (groups : GroupsData) (trial : TrialData)
        → Ascend (cuts_of chip groups trial) }
    ensures open { (chip : ChipData) (groups : GroupsData) (trial : TrialData) → IsChip chip
        → (cuts : List (List LinkId)) (path : List LinkId)
        → verdict_of chip groups trial cuts ≡ Open path → IsLeastOpen chip trial cuts path }
{}

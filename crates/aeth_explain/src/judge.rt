// Judging a certificate.
ghost use Rattle.std.specs.Prelude.{◌≡◌, ◌<◌, ◌↔◌, All, IfOk, List, length};
ghost use Rattle.aeth_base.specs.declared.ids.LinkId.{LinkId};
ghost use Rattle.aeth_explain.specs.Cuts.{IsCertificate};
ghost use Rattle.aeth_explain.specs.Verdict.{IsLeastOpen, verdict_of};
ghost use Rattle.aeth_explain.specs.declared.verdict.CutVerdict.TheVariants.{Complete, Open};
ghost use Rattle.aeth_paths.specs.Trials.{IsTrialOf};

use crate::cuts::Cuts;
use crate::open_paths::{Listed, first_open};
use crate::try_judge::TryJudge;
use crate::verdict::CutVerdict;
use aeth_app::App;
use aeth_base::NoMemory;
use aeth_chip::{Chip, Distances};
use aeth_group::Groups;
use aeth_paths::Trial;
use std::alloc::Global;

/// What is found of a certificate for the try of a judge, with the least distances of the chip. `Err` where there was
/// no memory.
pub fn verify_with(
    alloc: Global,
    far: &Distances,
    judge: &TryJudge,
    cuts: &Cuts,
) -> Result<CutVerdict, NoMemory>
    requires far { far.now ≡ judge.now.chip.links }
    requires cuts { All (All (λ link. link.0 < length judge.now.chip.links)) cuts.now }
    ensures gives { IfOk result (λ verdict.
        verdict ≡ verdict_of judge.now.chip judge.now.groups judge.now.trial cuts.now) }
    ensures complete { IfOk result (λ verdict. (verdict ≡ Complete)
        ↔ IsCertificate judge.now.chip judge.now.groups judge.now.trial cuts.now) }
    ensures least { IfOk result (λ verdict. (path : List LinkId) → verdict ≡ Open path
        → IsLeastOpen judge.now.chip judge.now.trial cuts.now path) }
{
    let chip = judge.chip();
    if let Some(place) = judge.first_no_cut(cuts) {
        return Ok(CutVerdict::NotDead { cut: place + 1 });
    }
    let index = cuts.in_order(alloc)?;
    let listed = Listed {
        chip,
        far,
        trial: judge.trial(),
        cuts: &index,
    };
    match first_open(alloc, &listed)? {
        None => Ok(CutVerdict::Complete),
        Some(path) => Ok(CutVerdict::Open { path }),
    }
}

/// What is found of a certificate for a try. The groups say all of the application that it rests on. `Err` where there
/// was no memory.
pub fn verify(
    alloc: Global,
    chip: &Chip,
    _app: &App,
    groups: &Groups,
    trial: &Trial,
    cuts: &Cuts,
) -> Result<CutVerdict, NoMemory>
    requires trial { IsTrialOf chip.now trial.now }
    requires cuts { All (All (λ link. link.0 < length chip.now.links)) cuts.now }
    ensures gives { IfOk result (λ verdict.
        verdict ≡ verdict_of chip.now groups.now trial.now cuts.now) }
    ensures complete { IfOk result (λ verdict. (verdict ≡ Complete)
        ↔ IsCertificate chip.now groups.now trial.now cuts.now) }
    ensures least { IfOk result (λ verdict. (path : List LinkId) → verdict ≡ Open path
        → IsLeastOpen chip.now trial.now cuts.now path) }
{
    let far = Distances::of(alloc, chip)?;
    let judge = TryJudge::new(alloc, chip, groups, trial)?;
    verify_with(alloc, &far, &judge, cuts)
}

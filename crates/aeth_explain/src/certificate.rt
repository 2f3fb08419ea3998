// Making a certificate.
ghost use Rattle.std.specs.Prelude.{◌≡◌, IfOk, IfSome, MatchOption};
ghost use Rattle.aeth_explain.specs.Certificate.{certificate_of};
ghost use Rattle.aeth_explain.specs.Cuts.{HasCandidate, IsCertificate};
ghost use Rattle.aeth_explain.specs.Order.{Ascend};
ghost use Rattle.aeth_explain.specs.Walks.{IsTried};
ghost use Rattle.aeth_paths.specs.Trials.{IsTrialOf};

use crate::cuts::Cuts;
use crate::open_paths::Listed;
use crate::try_judge::TryJudge;
use crate::walks::walk_all;
use aeth_app::App;
use aeth_base::NoMemory;
use aeth_chip::{Chip, Distances};
use aeth_group::Groups;
use aeth_paths::Trial;
use std::alloc::Global;

/// The certificate of a try of which nothing is listed.
fn shortest_cuts(alloc: Global, judge: &TryJudge, listed: &Listed) -> Result<Option<Cuts>, NoMemory>
    requires { IsTried judge.now listed.now }
    ensures { IfOk result (λ cuts. cuts
        ≡ certificate_of listed.now.chip.now judge.now.groups listed.now.trial.now) }
{
    let mut cuts = Cuts::new(alloc);
    let found = walk_all(alloc, judge, listed, &mut cuts)?;
    if found {
        return Ok(None);
    }
    Ok(Some(cuts))
}

/// The certificate of the try of a judge with the shortest cuts, in the order of a dictionary, with the least
/// distances of the chip; `None` exactly where the try has a candidate. `Err` where there was no memory.
pub fn certify_with(
    alloc: Global,
    far: &Distances,
    judge: &TryJudge,
) -> Result<Option<Cuts>, NoMemory>
    requires { far.now ≡ judge.now.chip.links }
    ensures gives { IfOk result (λ cuts.
        cuts ≡ certificate_of judge.now.chip judge.now.groups judge.now.trial) }
    // With a certificate there is no candidate.
    ensures is { IfOk result (λ cuts. MatchOption cuts
        (HasCandidate judge.now.chip judge.now.groups judge.now.trial)
        (IsCertificate judge.now.chip judge.now.groups judge.now.trial)) }
    ensures order { IfOk result (λ cuts. IfSome cuts Ascend) }
{
    let none = Cuts::new(alloc);
    let listed = Listed {
        chip: judge.chip(),
        far,
        trial: judge.trial(),
        cuts: &none,
    };
    shortest_cuts(alloc, judge, &listed)
}

/// The certificate of a try with the shortest cuts, in the order of a dictionary; `None` exactly where the
/// try has a candidate. The groups say all of the application that it rests on. `Err` where there was no memory.
pub fn certify(
    alloc: Global,
    chip: &Chip,
    _app: &App,
    groups: &Groups,
    trial: &Trial,
) -> Result<Option<Cuts>, NoMemory>
    requires trial { IsTrialOf chip.now trial.now }
    ensures gives { IfOk result (λ cuts. cuts ≡ certificate_of chip.now groups.now trial.now) }
    // With a certificate there is no candidate.
    ensures is { IfOk result (λ cuts. MatchOption cuts
        (HasCandidate chip.now groups.now trial.now)
        (IsCertificate chip.now groups.now trial.now)) }
    ensures order { IfOk result (λ cuts. IfSome cuts Ascend) }
{
    let far = Distances::of(alloc, chip)?;
    let judge = TryJudge::new(alloc, chip, groups, trial)?;
    certify_with(alloc, &far, &judge)
}

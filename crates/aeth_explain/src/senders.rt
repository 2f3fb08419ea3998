// How many links the paths of a try may have from one of its senders.
ghost use Rattle.std.specs.List.{list_any};
ghost use Rattle.std.specs.Prelude.{◌≡◌, ◌<◌, ◌≤◌, ◌+◌, ◌==◌, ℕ, All, Contains, IfOk, Some, length, slice_index};
ghost use Rattle.aeth_base.specs.Limits.{max_path_links};
ghost use Rattle.aeth_base.specs.declared.ids.NiId.{NiId};
ghost use Rattle.aeth_base.specs.declared.ids.RouterId.{RouterId};
ghost use Rattle.aeth_chip.specs.Chip.{IsChip};
ghost use Rattle.aeth_chip.specs.LeastDistance.{least_distance};
ghost use Rattle.aeth_chip.specs.Paths.{IsOnwardDistance};
ghost use Rattle.aeth_paths.specs.Open.{is_crowded};
ghost use Rattle.aeth_explain.specs.Senders.{IsReach, most_by, most_to};

use aeth_base::{MAX_PATH_LINKS, NiId, NoMemory, RouterId};
use aeth_chip::{Chip, Distances};
use aeth_paths::Trial;
use std::alloc::Global;

/// A sender of a try: the most links of a path to each interface, 0 where none leads there that the
/// try may take; and for each router at least the most links with which such a path comes there.
#[derive(Drop)]
pub(crate) struct Sender {
    pub ni: NiId,
    pub most_to: Vec<u32>,
    pub most_at: Vec<u32>,
}

/// Whether an interface is one of some.
pub(crate) fn is_among(list: &[NiId], ni: NiId) -> bool
    ensures { result ≡ list_any (λ (n : NiId). n.0 == ni.0) list.now }
{
    list.iter().any(|n| n.0 == ni.0)
}

/// Whether a pair is one crowded interface.
fn is_crowded(crowded: &[NiId], a: NiId, b: NiId) -> bool
    ensures { result ≡ is_crowded crowded.now a b }
{
    a.0 == b.0 && is_among(crowded, a)
}

/// The least number of links from an interface to an interface.
fn least_distance(_chip: &Chip, far: &Distances, a: NiId, b: NiId) -> Option<u32>
    requires chip { IsChip _chip.now }
    requires far { far.now ≡ _chip.now.links }
    ensures { result ≡ least_distance _chip.now a b }
{
    far.between(a, b)
}

/// The most links of a path, by the least number of those that lead there and a detour.
fn most_by(detour: u32, least: Option<u32>) -> u32
    ensures most { result ≡ most_by detour least }
    ensures few { result ≤ max_path_links }
{
    match least {
        None => 0,
        Some(least) => {
            if least >= MAX_PATH_LINKS || detour >= MAX_PATH_LINKS - least {
                MAX_PATH_LINKS
            } else {
                least + detour
            }
        }
    }
}

/// The most links of a path that the try may take from an interface to another.
fn most_to(chip: &Chip, far: &Distances, trial: &Trial, a: NiId, b: NiId) -> u32
    requires chip { IsChip chip.now }
    requires far { far.now ≡ chip.now.links }
    ensures most { result ≡ most_to chip.now trial.now a b }
    ensures few { result ≤ max_path_links }
{
    if is_among(trial.to(), b) && !is_crowded(trial.crowded(), a, b) {
        most_by(trial.ask().detour, least_distance(chip, far, a, b))
    } else {
        0
    }
}

/// The most links to each interface.
fn most_to_all(
    alloc: Global,
    chip: &Chip,
    far: &Distances,
    trial: &Trial,
    a: NiId,
) -> Result<Vec<u32>, NoMemory>
    requires chip { IsChip chip.now }
    requires far { far.now ≡ chip.now.links }
    ensures count { IfOk result (λ table. length table.items ≡ length chip.now.nis) }
    ensures most { IfOk result (λ table. (b : NiId) → b.0 < length chip.now.nis
        → slice_index table.items b.0 ≡ most_to chip.now trial.now a b) }
{
    let mut table = Vec::new(alloc);
    for b in 0..chip.nis() {
        table.push(most_to(chip, far, trial, a, NiId(b)))?;
    }
    Ok(table)
}

/// At least the most links with which paths to any of some interfaces come to a router, by the most links of
/// these paths.
fn most_at(far: &Distances, router: RouterId, to: &[NiId], most_to: &[u32]) -> u32
    requires { All (λ (ni : NiId). ni.0 < length most_to.now) to.now }
    ensures { (b : NiId) (more : ℕ) → Contains to.now b
        → IsOnwardDistance far.now router b (Some more)
        → slice_index most_to.now b.0 ≤ result + more }
{
    let mut most = 0;
    for i in 0..to.len() {
        let ni = to[i];
        let links = most_to[ni.0 as usize];
        if links > most {
            if let Some(more) = far.onward(router, ni) {
                most = most.max(links.saturating_sub(more));
            }
        }
    }
    most
}

impl Sender {
    /// A sender with its tables. `Err` where there was no memory.
    pub fn new(
        alloc: Global,
        chip: &Chip,
        far: &Distances,
        trial: &Trial,
        ni: NiId,
    ) -> Result<Sender, NoMemory>
        requires chip { IsChip chip.now }
        requires far { far.now ≡ chip.now.links }
        requires to { All (λ (ni : NiId). ni.0 < length chip.now.nis) trial.now.to }
        ensures ni { IfOk result (λ sender. sender.ni ≡ ni) }
        ensures reach { IfOk result (λ sender.
            IsReach chip.now trial.now ni sender.most_to.items sender.most_at.items) }
    {
        let most_to = most_to_all(alloc, chip, far, trial, ni)?;
        let mut at = Vec::new(alloc);
        for router in 0..chip.routers() {
            at.push(most_at(far, RouterId(router), trial.to(), &most_to))?;
        }
        Ok(Sender {
            ni,
            most_to,
            most_at: at,
        })
    }

    /// The most links of a path to an interface.
    pub fn links_to(&self, ni: NiId) -> u32
        requires { ni.0 < length self.now.most_to.items }
        ensures { result ≡ slice_index self.now.most_to.items ni.0 }
    {
        self.most_to[ni.0 as usize]
    }

    /// At least the most links of a path until it comes to a router.
    pub fn links_at(&self, router: RouterId) -> u32
        requires { router.0 < length self.now.most_at.items }
        ensures { result ≡ slice_index self.now.most_at.items router.0 }
    {
        self.most_at[router.0 as usize]
    }
}

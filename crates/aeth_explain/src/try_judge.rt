// Lists of links of a try: whether they are dead, and whether they are cuts.
ghost use Rattle.std.specs.Prelude.{◌≡◌, ◌<◌, ◌+◌, ◌-◌, All, IfOk, IfSome, length, not, position};
ghost use Rattle.aeth_base.specs.declared.ids.NiId.{NiId};
ghost use Rattle.aeth_book.specs.Free.{narrowed};
ghost use Rattle.aeth_chip.specs.Chip.{IsChip};
ghost use Rattle.aeth_chip.specs.declared.node.Node.TheVariants.{Ni};
ghost use Rattle.aeth_explain.specs.Cuts.{are_joined, is_cut};
ghost use Rattle.aeth_explain.specs.Limits.{max_cuts};
ghost use Rattle.aeth_explain.specs.SlotTables.{AreTables};
ghost use Rattle.aeth_explain.specs.TryPaths.{is_dead};
ghost use Rattle.aeth_paths.specs.Trials.{IsTrialOf, book_of};
ghost use Rattle.aeth_slots.specs.Choice.{is_suitable};
ghost use Rattle.std.specs.List.{list_any};

use crate::cuts::Cuts;
use crate::slot_tables::SlotTables;
use crate::taken::{taken_beside, taken_masks};
use aeth_base::{LinkId, NiId, NoMemory, Path};
use aeth_chip::{Chip, Node};
use aeth_group::Groups;
use aeth_paths::Trial;
use aeth_slots::SlotSet;
use std::alloc::Global;
use std::marker::Model;

/// What lists of links of a try are judged by: beside the try stands for each link which of its slots
/// rivals take, so that nobody goes over the grants again.
#[derive(Drop)]
pub struct TryJudge<'a> {
    chip: &'a Chip,
    groups: &'a Groups,
    trial: &'a Trial,
    taken: Vec<SlotSet>,
}

impl<'a> Model for TryJudge<'a> {
    ghost use Rattle.aeth_explain.specs.Masks.{IsTryJudge, TryJudgeData};

    ghost Value = { TryJudgeData };

    ghost view = { λ judge. record {
      chip = judge.chip.now;
      groups = judge.groups.now;
      trial = judge.trial.now;
    } };

    ghost invariant = { λ judge. IsTryJudge (record {
      chip = judge.chip.now;
      groups = judge.groups.now;
      trial = judge.trial.now;
    }) judge.taken.items };
}

impl<'a> TryJudge<'a> {
    /// For a try on the chip. `Err` where there was no memory.
    pub fn new(
        alloc: Global,
        chip: &'a Chip,
        groups: &'a Groups,
        trial: &'a Trial,
    ) -> Result<TryJudge<'a>, NoMemory>
        requires { IsTrialOf chip.now trial.now }
        ensures { IfOk result (λ judge. judge ≡ record {
          chip = chip.now;
          groups = groups.now;
          trial = trial.now;
        }) }
    {
        let _slots = chip.slots();
        let taken = taken_masks(alloc, chip, groups, trial)?;
        Ok(TryJudge {
            chip,
            groups,
            trial,
            taken,
        })
    }

    /// The same for a try of which slot tables have the first grants, so that only the others are put in. `Err` where
    /// there was no memory.
    pub fn beside(
        alloc: Global,
        tables: &SlotTables,
        chip: &'a Chip,
        groups: &'a Groups,
        trial: &'a Trial,
    ) -> Result<TryJudge<'a>, NoMemory>
        requires trial { IsTrialOf chip.now trial.now }
        requires tables { AreTables chip.now groups.now trial.now.grants tables.now }
        ensures { IfOk result (λ judge. judge ≡ record {
          chip = chip.now;
          groups = groups.now;
          trial = trial.now;
        }) }
    {
        let _slots = chip.slots();
        let taken = taken_beside(alloc, chip, groups, tables, trial)?;
        Ok(TryJudge {
            chip,
            groups,
            trial,
            taken,
        })
    }

    /// Its chip.
    pub(crate) fn chip(&self) -> &Chip
        ensures chip { result.now ≡ self.now.chip }
        ensures is_chip { IsChip self.now.chip }
    {
        self.chip
    }

    /// Its try.
    pub(crate) fn trial(&self) -> &Trial
        ensures trial { result.now ≡ self.now.trial }
        ensures is_trial { IsTrialOf self.now.chip self.now.trial }
    {
        self.trial
    }

    // The starts of a set that a link leaves, which a flit enters `after` cycles after its start.
    fn narrowed(&self, link: LinkId, after: u32, set: &SlotSet) -> SlotSet
        requires link { link.0 < length self.now.chip.links }
        requires size { set.now.size ≡ self.now.chip.slots }
        ensures { result ≡ narrowed (book_of self.now.chip self.now.groups self.now.trial)
            self.now.trial.ask.unit link.0 after set.now }
    {
        let size = set.size();
        let back = size - after % size;
        let taken: &[SlotSet] = &self.taken;
        let at = link.0 as usize;
        let mask = taken[at];
        set.without(&mask.rotate(back))
    }

    // Whether starts suit the try on links of this delay.
    fn suits(&self, delay: u32, free: &SlotSet) -> bool
        ensures { result ≡ is_suitable self.now.trial.ask.need
            (self.now.trial.ask.latency + 1 - delay) free.now }
    {
        let ask = self.trial.ask();
        let gap = (ask.latency as u64 + 1).saturating_sub(delay as u64);
        // No gap is greater than the table.
        if gap >= free.size() as u64 {
            return free.count() >= ask.need.max(1);
        }
        free.suitable(ask.need, gap as u32)
    }

    /// Whether links are dead.
    pub fn is_dead(&self, path: &Path) -> bool
        requires { All (λ link. link.0 < length self.now.chip.links) path.now }
        ensures { result ≡ is_dead self.now.chip self.now.groups self.now.trial path.now }
    {
        let mut free = SlotSet::full(self.chip.slots());
        let mut after = 0;
        for i in 0..path.len() {
            let link = path.link(i);
            free = self.narrowed(link, after, &free);
            after += self.chip.link(link).delay;
        }
        !self.suits(after, &free)
    }

    // Whether links are joined from an interface on.
    fn are_joined(&self, ni: NiId, path: &Path) -> bool
        requires { All (λ link. link.0 < length self.now.chip.links) path.now }
        ensures { result ≡ are_joined self.now.chip.links (Ni ni) path.now }
    {
        let mut at = Node::Ni(ni);
        for i in 0..path.len() {
            let link = self.chip.link(path.link(i));
            if !link.begins_at(at) {
                return false;
            }
            at = link.to;
        }
        true
    }

    // Whether links are joined from a sender on.
    fn leave_sender(&self, path: &Path) -> bool
        requires { All (λ link. link.0 < length self.now.chip.links) path.now }
        ensures { result ≡ list_any (λ (ni : NiId). are_joined self.now.chip.links (Ni ni) path.now)
            self.now.trial.from }
    {
        let from = self.trial.from();
        for i in 0..from.len() {
            if self.are_joined(from[i], path) {
                return true;
            }
        }
        false
    }

    /// Whether links are a cut: joined from one of the senders on, and dead.
    pub fn is_cut(&self, path: &Path) -> bool
        requires { All (λ link. link.0 < length self.now.chip.links) path.now }
        ensures { result ≡ is_cut self.now.chip self.now.groups self.now.trial path.now }
    {
        path.len() >= 1 && self.leave_sender(path) && self.is_dead(path)
    }

    /// The place, counted from 0, of the first listed path that is no cut; `None` exactly where all
    /// are cuts.
    pub fn first_no_cut(&self, cuts: &Cuts) -> Option<u32>
        requires { All (All (λ link. link.0 < length self.now.chip.links)) cuts.now }
        ensures place { result ≡ position (λ cut.
            not (is_cut self.now.chip self.now.groups self.now.trial cut)) cuts.now }
        ensures below { IfSome result (λ place. place < max_cuts) }
    {
        let list = cuts.list();
        for i in 0..cuts.len() {
            if !self.is_cut(&list[i as usize]) {
                return Some(i);
            }
        }
        None
    }
}

// The book of grants: a list, and behind it the slots that it occupies.
ghost use Rattle.std.specs.Prelude.{◌≡◌, ◌<◌, ◌≤◌, ◌↔◌, ◌+◌, ℕ, [], All, Contains, IfOk, OnErr};
ghost use Rattle.std.specs.Prelude.{MatchOption, OnOk, length};
ghost use Rattle.aeth_book.specs.Book.{IsBook, empty_book, with_grant};
ghost use Rattle.aeth_book.specs.Free.{IsFreeStart, free_starts, narrowed, occupied_slots};
ghost use Rattle.aeth_book.specs.Free.{taken_slots, used_slots};

use crate::changes::{change, delay};
use crate::making::{links_of, masks_of};
use aeth_app::App;
use aeth_base::{LinkId, NoMemory, Path, Steps, Unit, UseId};
use aeth_chip::{Chip, Link};
use aeth_group::{Grant, Groups};
use aeth_slots::SlotSet;
use std::alloc::Global;
use std::marker::Model;
use std::sync::ledger::Ledger;

/// The grants of an allocation, in the order in which they were made.
///
/// Seen as this list, with the size of the slot tables, the links and the groups on which its
/// answers rest. Beside the list it keeps for each use case and link a mask of the slots that
/// grants occupy there. So no call walks the list, and a grant that comes or goes changes only the
/// masks of its links in its use cases.
#[derive(Drop)]
pub struct Book {
    size: u32,
    links: Vec<Link>,
    groups: Groups,
    grants: Vec<Grant>,
    masks: Vec<SlotSet>,
}

impl Model for Book {
    ghost use Rattle.aeth_book.specs.Book.{BookData};
    ghost use Rattle.aeth_book.specs.Masks.{IsKept};

    ghost Value = { BookData };

    ghost view = { λ book. record {
      size = book.size;
      links = book.links.items;
      groups = book.groups;
      grants = book.grants.items;
    } };

    ghost invariant = { λ book. IsKept (record {
      size = book.size;
      links = book.links.items;
      groups = book.groups;
      grants = book.grants.items;
    }) book.masks.items };
}

impl Book {
    /// The book of a chip and the groups of an application, without grants. `Err` where there was
    /// no memory.
    pub fn new(alloc: Global, chip: &Chip, _app: &App, groups: &Groups) -> Result<Book, NoMemory>
        ensures { IfOk result (λ book. book ≡ empty_book chip.now groups.now) }
    {
        let size = chip.slots();
        let links = links_of(alloc, chip)?;
        let masks = masks_of(alloc, size, groups.uses() * chip.links())?;
        let groups = groups.copy(alloc)?;
        Ok(Book {
            size,
            links,
            groups,
            grants: Vec::new(alloc),
            masks,
        })
    }

    /// The starts at which no grant of the unit's group that is together with its connection
    /// occupies any link and slot of the path.
    pub fn free(&self, unit: Unit, path: &Path) -> SlotSet
        requires { All (λ link. link.0 < length self.now.links) path.now }
        ensures free { result ≡ free_starts self.now unit path.now }
        ensures each { (start : ℕ) → Contains result.slots start
            ↔ IsFreeStart self.now unit path.now start }
    {
        let mut free = SlotSet::full(self.size);
        let mut after = 0;
        for i in 0..path.len() {
            let link = path.link(i);
            free = self.narrow_uncounted(unit, link, after, &free);
            after += delay(&self.links, link);
        }
        free
    }

    /// The starts of a set at which no grant of the unit's group that is together with its
    /// connection occupies the link, which a flit enters `offset` cycles after its start. Counts
    /// one step.
    pub fn narrow<L: Ledger>(
        &self,
        unit: Unit,
        link: LinkId,
        offset: u32,
        set: &SlotSet,
        steps: &mut Steps<L>,
    ) -> SlotSet
        requires link { link.0 < length self.now.links }
        requires size { set.now.size ≡ self.now.size }
        ensures starts { result ≡ narrowed self.now unit link.0 offset set.now }
        ensures steps { steps.new ≡ steps.old + 1 }
    {
        steps.tick();
        self.narrow_uncounted(unit, link, offset, set)
    }

    /// The greatest number of the link's slots that are occupied in one use case, over the use
    /// cases of the unit's group that have its connection.
    pub fn used(&self, unit: Unit, link: LinkId) -> u32
        requires { link.0 < length self.now.links }
        ensures used { result ≡ used_slots self.now unit link.0 }
        ensures within { result ≤ self.now.size }
    {
        let mut most = 0;
        for u in self.groups.uses_of(unit.group) {
            if self.groups.has_unit(UseId(*u), unit) {
                most = most.max(self.mask(*u, link).count());
            }
        }
        most
    }

    /// Puts a grant at the end of the list. After `Err`, where there was no memory, all is as
    /// before.
    pub fn add(&mut self, grant: Grant) -> Result<(), NoMemory>
        requires links { All (λ link. link.0 < length self.old.links) grant.path }
        requires size { grant.slots.size ≡ self.old.size }
        requires free { (start : ℕ) → Contains grant.slots.slots start
            → Contains (free_starts self.old grant.unit grant.path).slots start }
        ensures ok { OnOk result (self.new ≡ with_grant self.old grant) }
        ensures err { OnErr result (self.new ≡ self.old) }
    {
        self.grants.push(grant)?;
        change(&self.groups, &self.links, &grant, true, &mut self.masks);
        Ok(())
    }

    /// Takes the last grant off the list; `None` exactly where there is none.
    pub fn remove_last(&mut self) -> Option<Grant>
        ensures { MatchOption result ((self.old.grants ≡ []) × (self.new ≡ self.old))
            (λ grant. self.old ≡ with_grant self.new grant) }
    {
        let grant = self.grants.pop()?;
        change(&self.groups, &self.links, &grant, false, &mut self.masks);
        Some(grant)
    }

    /// The grants in order.
    pub fn list(&self) -> &[Grant]
        ensures list { result.now ≡ self.now.grants }
        ensures book { IsBook self.now }
    {
        &self.grants
    }

    // What `narrow` tells, without a step.
    fn narrow_uncounted(&self, unit: Unit, link: LinkId, offset: u32, set: &SlotSet) -> SlotSet
        requires link { link.0 < length self.now.links }
        requires size { set.now.size ≡ self.now.size }
        ensures { result ≡ narrowed self.now unit link.0 offset set.now }
    {
        let size = set.size();
        let back = size - offset % size;
        set.without(&self.taken(unit, link).rotate(back))
    }

    // The slots of a link that grants of the unit's group occupy that are together with its
    // connection: the masks of its use cases that have the connection, joined.
    fn taken(&self, unit: Unit, link: LinkId) -> SlotSet
        requires { link.0 < length self.now.links }
        ensures { result ≡ taken_slots self.now unit link.0 }
    {
        let mut taken = SlotSet::empty(self.size);
        for u in self.groups.uses_of(unit.group) {
            let has = self.groups.has_unit(UseId(*u), unit);
            if has {
                taken = taken.join(&self.mask(*u, link));
            }
        }
        taken
    }

    // The slots of a link that grants occupy in a use case.
    fn mask(&self, u: u32, link: LinkId) -> SlotSet
        requires u { u < length self.now.groups.uses }
        requires link { link.0 < length self.now.links }
        ensures { result ≡ occupied_slots self.now u link.0 }
    {
        self.masks[u as usize * self.links.len() + link.0 as usize]
    }
}

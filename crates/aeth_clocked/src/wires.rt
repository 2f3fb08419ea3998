// The wires between components.

ghost use Rattle.std.specs.Prelude.{◌≡◌, ◌<◌, ◌≤◌, ◌↔◌, ℕ, None, Some, IfOk, IsSome, IsTrue};
ghost use Rattle.std.specs.Prelude.{length, slice_get, slice_set, replicate};
ghost use Rattle.aeth_clocked.specs.Wires.{flit_on, used_from};

use crate::flit::Flit;
use aeth_base::{LinkId, Marked, Marks, NoMemory};
use std::alloc::Global;
use std::marker::Model;

// What stands at the place of a link before its first flit.
const NO_FLIT: Flit = Flit {
    header: 0,
    first: 0,
    second: 0,
};

/// The wires of one cycle: a flit or none on each, seen as a list by link numbers.
///
/// The first wire of a link has the link's number. The further wires of links with a delay are
/// numbered behind all links, and are links here as those are.
#[derive(Drop)]
pub struct Wires {
    // What stands at the place of a link without a flit is nobody's.
    flits: Vec<Flit>,
    // Just the links with a flit are marked.
    used: Marks,
}

impl Model for Wires {
    ghost use Rattle.std.specs.Prelude.{List, Option, length};
    ghost use Rattle.aeth_clocked.specs.MarkedWires.{AreMarksOf, marked_wires};
    ghost use Rattle.aeth_clocked.specs.declared.flit.Flit.{Flit};

    ghost Value = { List (Option Flit) };

    ghost view = { λ wires. marked_wires wires.used wires.flits.items };

    ghost invariant = { λ wires. AreMarksOf (length wires.flits.items) wires.used };
}

impl Wires {
    /// Wires for this number of links, all empty.
    pub fn new(alloc: Global, links: u32) -> Result<Wires, NoMemory>
        ensures { IfOk result (λ wires. wires ≡ replicate links None) }
    {
        let used = Marks::none(alloc, links as usize)?;
        let flits = vec![in alloc; NO_FLIT; links as usize]?;
        Ok(Wires { flits, used })
    }

    /// The flit on a link; `None` where the link is empty.
    #[tactic(auto, using(crate::proofs::MarkedWiresLemmas::as_many_wires))]
    #[inline(always)]
    pub fn get(&self, link: LinkId) -> Option<Flit>
        requires { link.0 < length self.now }
        ensures { slice_get self.now link.0 ≡ Some result }
    {
        let place = link.0 as usize;
        if self.used.has(place) {
            Some(self.flits[place])
        } else {
            None
        }
    }

    /// The flit on a link that has one.
    #[tactic(auto, using(crate::proofs::MarkedWiresLemmas::as_many_wires))]
    #[inline(always)]
    pub fn flit(&self, link: LinkId) -> Flit
        requires { IsSome (flit_on self.now link.0) }
        ensures { flit_on self.now link.0 ≡ Some result }
    {
        self.flits[link.0 as usize]
    }

    /// Whether a link is empty.
    #[tactic(auto, using(crate::proofs::MarkedWiresLemmas::as_many_wires))]
    #[inline(always)]
    pub fn is_empty(&self, link: LinkId) -> bool
        requires { link.0 < length self.now }
        ensures { IsTrue result ↔ (flit_on self.now link.0 ≡ None) }
    {
        !self.used.has(link.0 as usize)
    }

    /// Puts a flit on a link, or empties it.
    #[tactic(auto, using(crate::proofs::MarkedWiresLemmas::as_many_wires))]
    #[inline(always)]
    pub fn put(&mut self, link: LinkId, flit: Option<Flit>)
        requires { link.0 < length self.old }
        ensures { self.new ≡ slice_set self.old link.0 flit }
    {
        let place = link.0 as usize;
        match flit {
            Some(flit) => {
                self.used.mark(place);
                self.flits[place] = flit;
            }
            None => self.used.unmark(place),
        }
    }

    /// The first link from a number on that has a flit; the number of links where none has.
    #[tactic(auto, using(crate::proofs::MarkedWiresLemmas::as_many_wires))]
    pub fn next(&self, from: u32) -> u32
        requires { from ≤ length self.now }
        ensures from { from ≤ result }
        ensures end { result ≤ length self.now }
        ensures empty { (link : ℕ) → from ≤ link → link < result → flit_on self.now link ≡ None }
        ensures found { result < length self.now → IsSome (flit_on self.now result) }
    {
        self.used.next(from as usize, self.flits.len()) as u32
    }

    /// The links with a flit, upwards.
    #[inline(always)]
    pub fn used(&self) -> Marked<'_>
        ensures { result ≡ used_from self.now 0 }
    {
        self.used.iter()
    }

    /// Empties all links.
    pub fn clear(&mut self)
        ensures { self.new ≡ replicate (length self.old) None }
    {
        self.used.clear();
    }
}

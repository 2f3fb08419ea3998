// The cuts that a certificate lists for a try.
ghost use Rattle.std.specs.List.Sorted.{IsPermutation, IsSorted};
ghost use Rattle.std.specs.Prelude.{◌≡◌, ◌≤◌, ◌++◌, ◌∷◌, [], IfOk, OnErr, OnOk, length};
ghost use Rattle.aeth_explain.specs.Limits.{max_cuts};
ghost use Rattle.aeth_explain.specs.Order.{dictionary};

use crate::order::dictionary;
use aeth_base::{NoMemory, Path};
use std::alloc::Global;
use std::marker::Model;

/// The greatest number of cuts that one try may have.
const MAX_CUTS: usize = 4_294_967_295;

/// The lists of links that a certificate has for a try, in their order.
#[derive(Drop)]
pub struct Cuts {
    paths: Vec<Path>,
}

impl Model for Cuts {
    ghost use Rattle.std.specs.Prelude.{◌≤◌, List, length};
    ghost use Rattle.aeth_base.specs.declared.ids.LinkId.{LinkId};
    ghost use Rattle.aeth_explain.specs.Limits.{max_cuts};

    ghost Value = { List (List LinkId) };

    ghost view = { λ cuts. cuts.paths.items };

    ghost invariant = { λ cuts. length cuts.paths.items ≤ max_cuts };
}

impl Cuts {
    /// None.
    pub fn new(alloc: Global) -> Cuts
        ensures { result ≡ [] }
    {
        Cuts {
            paths: Vec::new(alloc),
        }
    }

    /// Puts a list of links at the end. After `Err`, where there was no memory or no number is left
    /// for it, all is as before.
    pub fn push(&mut self, path: Path) -> Result<(), NoMemory>
        ensures ok { OnOk result (self.new ≡ self.old ++ path ∷ []) }
        ensures err { OnErr result (self.new ≡ self.old) }
    {
        if self.paths.len() >= MAX_CUTS {
            return Err(NoMemory);
        }
        self.paths.push(path)?;
        Ok(())
    }

    /// How many there are.
    pub fn len(&self) -> u32
        ensures len { result ≡ length self.now }
        ensures most { result ≤ max_cuts }
    {
        self.paths.len() as u32
    }

    /// The lists.
    pub fn list(&self) -> &[Path]
        ensures list { result.now ≡ self.now }
        ensures most { length self.now ≤ max_cuts }
    {
        &self.paths
    }

    /// The same lists in the order of a dictionary, equal ones beside each other. `Err` where there was no memory.
    pub(crate) fn in_order(&self, alloc: Global) -> Result<Cuts, NoMemory>
        ensures same { IfOk result (λ sorted. IsPermutation self.now sorted) }
        ensures order { IfOk result (IsSorted dictionary) }
    {
        let mut paths = Vec::from_slice(alloc, &self.paths)?;
        paths.sort_unstable_by(|a, b| dictionary(a, b));
        Ok(Cuts { paths })
    }
}

// Names in an order, with their places.
ghost use Rattle.std.specs.Prelude.{◌≡◌, ◌<◌, ◌++◌, ◌∷◌, [], ℕ, List, length, slice_get};
ghost use Rattle.std.specs.Prelude.{IfOk, OnOk, Some};
ghost use Rattle.std.specs.List.{position};
ghost use Rattle.std.specs.Str.{bytes_eq};
ghost use Rattle.aeth_base.specs.Names.{HaveFirstPlaces};

use crate::memory::NoMemory;
use crate::name::Name;
use indexmap::IndexMap;
use std::alloc::Global;
use std::marker::Model;

/// Names in an order, with the place at which each stands first. They are seen as the list of names.
#[derive(Drop)]
pub struct Names {
    list: Vec<Name>,
    places: IndexMap<Name, usize>,
}

impl Model for Names {
    ghost use Rattle.std.specs.Prelude.{List, ℕ};
    ghost use Rattle.aeth_base.specs.Names.{HaveFirstPlaces};

    ghost Value = { List (List ℕ) };

    ghost view = { λ names. names.list.items };

    ghost invariant = { λ names. HaveFirstPlaces names.list.items names.places };
}

impl Names {
    /// These names, or want of memory.
    pub fn of(alloc: Global, list: Vec<Name>) -> Result<Names, NoMemory>
        ensures { IfOk result (λ names. names ≡ list.items) }
    {
        let places = places_of(alloc, &list)?;
        Ok(Names { list, places })
    }

    /// How many there are.
    pub fn len(&self) -> usize
        ensures { result ≡ length self.now }
    {
        self.list.len()
    }

    /// The name at a place.
    pub fn name(&self, place: usize) -> Name
        requires { place < length self.now }
        ensures { slice_get self.now place ≡ Some result }
    {
        self.list[place]
    }

    /// The first place of a name; `None` exactly where it isn't among them.
    pub fn place(&self, name: &Name) -> Option<usize>
        ensures { result ≡ position (bytes_eq name.now) self.now }
    {
        self.places.get(name).copied()
    }
}

// The first place of each name, in the order of the list.
fn places_of(alloc: Global, list: &[Name]) -> Result<IndexMap<Name, usize>, NoMemory>
    ensures { IfOk result (HaveFirstPlaces list.now) }
{
    let mut places = IndexMap::with_capacity(alloc, list.len())?;
    for place in 0..list.len() {
        enter(&mut places, list[place], place)?;
    }
    Ok(places)
}

// Puts a name with its place at the map's end, unless it is there: so the first of two that are one stays.
fn enter(places: &mut IndexMap<Name, usize>, name: Name, place: usize) -> Result<(), NoMemory>
    ensures { OnOk result ((before : List (List ℕ)) → length before ≡ place
        → HaveFirstPlaces before places.old → HaveFirstPlaces (before ++ name ∷ []) places.new) }
{
    if !places.contains_key(&name) {
        places.insert(name, place)?;
    }
    Ok(())
}

// What comes to wires within a cycle.

ghost use Rattle.std.specs.Prelude.{◌≡◌, ◌<◌, ℕ, IfOk, Some, length, map, replicate, slice_set, true};
ghost use Rattle.aeth_router.specs.Onward.{AreContended, Nothing, arrival_at, arrivals_of, arrived};
ghost use Rattle.aeth_router.specs.Onward.{carried};

use aeth_base::{LinkId, Marks, NoMemory};
use aeth_clocked::{Flit, Wires};
use std::alloc::Global;
use std::marker::Model;

/// What comes to wires within a cycle, one flit after the other: seen as a list, by the numbers of the
/// wires, of nothing, one flit, or several.
///
/// A wire to which several flits come carries none of them.
#[derive(Drop)]
pub struct Onward {
    // The first flit that came to each wire.
    first: Wires,
    // The wires to which another came, and whether there may be one.
    contended: Marks,
    is_contended: bool,
}

impl Model for Onward {
    ghost use Rattle.std.specs.Prelude.{List};
    ghost use Rattle.aeth_router.specs.Onward.{AreContended, Arrival, arrivals_of};

    ghost Value = { List Arrival };

    ghost view = { λ onward. arrivals_of onward.first onward.contended };

    ghost invariant = { λ onward. AreContended onward.is_contended onward.first onward.contended };
}

impl Onward {
    /// For so many wires, to none of which a flit has come.
    ///
    /// Later calls take no memory. `add` takes a step, and `settle` one for each flit that comes or goes, and
    /// for each 64 wires.
    pub fn new(alloc: Global, wires: u32) -> Result<Onward, NoMemory>
        ensures { IfOk result (λ made. made ≡ replicate wires Nothing) }
    {
        Ok(Onward {
            first: Wires::new(alloc, wires)?,
            contended: Marks::none(alloc, wires as usize)?,
            is_contended: false,
        })
    }

    /// A flit comes to a wire: one flit has come then, or several.
    #[inline(always)]
    pub fn add(&mut self, wire: LinkId, flit: Flit)
        requires { wire.0 < length self.old }
        ensures { self.new
            ≡ slice_set self.old wire.0 (arrived (Some flit) (arrival_at self.old wire.0)) }
    {
        if self.first.is_empty(wire) {
            self.first.put(wire, Some(flit));
        } else {
            self.contended.mark(wire.0 as usize);
            self.is_contended = true;
        }
    }

    /// The wires carry what has come, in place of what they had, and from then on nothing has come.
    pub fn settle(&mut self, wires: &mut Wires)
        requires { length wires.old ≡ length self.old }
        ensures wires { wires.new ≡ map carried self.old }
        ensures none { self.new ≡ replicate (length self.old) Nothing }
    {
        if self.is_contended {
            lose(&mut self.first, &self.contended);
            self.contended.clear();
            self.is_contended = false;
        }
        std::mem::swap(wires, &mut self.first);
        self.first.clear();
    }
}

// A wire to which several flits came has none.
fn lose(first: &mut Wires, contended: &Marks)
    requires { AreContended true first.old contended.now }
    ensures { first.new ≡ map carried (arrivals_of first.old contended.now) }
{
    for wire in contended.iter() {
        first.put(LinkId(wire as u32), None);
    }
}

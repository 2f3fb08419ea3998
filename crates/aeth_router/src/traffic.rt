// What the flits that a router holds put on its output links.

ghost use Rattle.std.specs.Prelude.{◌≡◌, ◌++◌, ◌∷◌, ℕ, [], List, None, Option, Some, length};
ghost use Rattle.std.specs.Prelude.{slice_get, slice_set};
ghost use Rattle.aeth_clocked.specs.Wires.{AreLinks, Drives};
ghost use Rattle.aeth_clocked.specs.declared.flit.Flit.{Flit};
ghost use Rattle.aeth_router.specs.Ports.{sole};
ghost use Rattle.aeth_router.specs.Router.{AreDistinctLinks, emitted_on, is_among, numbers_of};
ghost use Rattle.aeth_router.specs.Traffic.{AreNamed, is_any, named_ports};

use aeth_base::LinkId;
use aeth_clocked::{Flit, Wires};
use aeth_header::{PORT_BITS, hop};

// The output ports that a header can name.
pub(crate) const PORTS: usize = 1 << PORT_BITS;

/// Puts on each outgoing link the one flit that names its port, behind its hop.
pub(crate) fn emit(outgoing: &[LinkId], held: &[Option<Flit>], wires: &mut Wires)
    requires links { AreLinks (is_among (numbers_of outgoing.now)) (length wires.old) }
    requires apart { AreDistinctLinks (numbers_of outgoing.now) }
    ensures { Drives
        (is_among (numbers_of outgoing.now))
        (emitted_on (numbers_of outgoing.now) held.now)
        wires.old wires.new }
{
    clear(outgoing, wires);
    let mut named = [false; PORTS];
    for latched in held {
        send(&mut named, outgoing, *latched, wires);
    }
}

/// Empties each outgoing link: what a router does that holds no flit.
pub(crate) fn clear(outgoing: &[LinkId], wires: &mut Wires)
    requires { AreLinks (is_among (numbers_of outgoing.now)) (length wires.old) }
    ensures { Drives (is_among (numbers_of outgoing.now)) (λ _. None) wires.old wires.new }
{
    for link in outgoing {
        wires.put(*link, None);
    }
}

// Sends one flit more to the port that it names, which carries it where it is the first, and else
// none.
fn send(named: &mut [bool], outgoing: &[LinkId], latched: Option<Flit>, wires: &mut Wires)
    requires size { length named.old ≡ named_ports }
    requires links { AreLinks (is_among (numbers_of outgoing.now)) (length wires.old) }
    requires apart { AreDistinctLinks (numbers_of outgoing.now) }
    ensures named { (before : List (Option Flit)) → AreNamed named.old before
        → AreNamed named.new (before ++ latched ∷ []) }
    ensures wires { (before first : List (Option Flit)) → AreNamed named.old before
        → Drives (is_among (numbers_of outgoing.now))
        (emitted_on (numbers_of outgoing.now) before) first wires.old
        → Drives (is_among (numbers_of outgoing.now))
        (emitted_on (numbers_of outgoing.now) (before ++ latched ∷ [])) first wires.new }
{
    let Some(flit) = latched else {
        return;
    };
    let (port, header) = hop(flit.header);
    let sent = alone(named[port as usize], Flit { header, ..flit });
    named[port as usize] = true;
    put_at(outgoing, port as usize, sent, wires);
}

// What a port carries of a flit: itself where no other was for the port.
fn alone(is_named: bool, flit: Flit) -> Option<Flit>
    ensures { (flits : List Flit) → is_named ≡ is_any flits → result ≡ sole (flits ++ flit ∷ []) }
{
    if is_named { None } else { Some(flit) }
}

// Puts on the link of a port what this carries; nothing changes where there is no such port.
fn put_at(outgoing: &[LinkId], port: usize, flit: Option<Flit>, wires: &mut Wires)
    requires { AreLinks (is_among (numbers_of outgoing.now)) (length wires.old) }
    ensures put { (link : ℕ) → slice_get (numbers_of outgoing.now) port ≡ Some link
        → wires.new ≡ slice_set wires.old link flit }
    ensures past { slice_get (numbers_of outgoing.now) port ≡ None → wires.new ≡ wires.old }
{
    if let Some(link) = outgoing.get(port) {
        wires.put(*link, flit);
    }
}

// How components send flits on in every cycle alike, known apart from them.

ghost use Rattle.std.specs.Prelude.{◌≡◌, ◌<◌, ℕ, IsSome, length, slice_get};
ghost use Rattle.aeth_clocked.specs.declared.flit.Flit.{Flit};
ghost use Rattle.aeth_router.specs.Forwarding.{sent_by, wire_for};
ghost use Rattle.aeth_router.specs.Onward.{Adds};
ghost use Rattle.aeth_router.specs.Traffic.{named_ports};

use crate::onward::Onward;
use crate::traffic::PORTS;
use aeth_base::LinkId;
use aeth_clocked::Flit;
use aeth_header::hop;

/// How a component sends flits on in every cycle alike. Who has it passes flits on without a look at the component.
#[derive(Clone, Copy)]
pub enum Forwarding {
    /// Behind a hop, on the wire of the port that the flit names; a flit whose port has no wire is lost.
    ByPort([Option<LinkId>; PORTS]),
    /// As they are, on this wire.
    Straight(LinkId),
    /// Not at all.
    Nowhere,
}

impl Forwarding {
    /// Passes a flit on: it goes to each wire on which it is sent. It takes a step.
    #[inline(always)]
    pub fn pass(&self, flit: Flit, onward: &mut Onward)
        requires { (out : ℕ) → IsSome (sent_by self.now out flit) → out < length onward.old }
        ensures { Adds (λ out. sent_by self.now out flit) onward.old onward.new }
    {
        match self {
            Forwarding::ByPort(wires) => {
                let (port, header) = hop(flit.header);
                if let Some(wire) = wire_of(wires, port) {
                    onward.add(wire, Flit { header, ..flit });
                }
            }
            Forwarding::Straight(wire) => onward.add(*wire, flit),
            Forwarding::Nowhere => {}
        }
    }
}

// The wire of a port, if it has one.
#[inline(always)]
fn wire_of(wires: &[Option<LinkId>], port: u8) -> Option<LinkId>
    ensures { result ≡ wire_for wires.now port }
{
    match wires.get(port as usize) {
        Some(wire) => *wire,
        None => None,
    }
}

// The links of the ports that a header can name.
pub(crate) fn links_of_ports(links: &[LinkId]) -> [Option<LinkId>; PORTS]
    ensures { (port : ℕ) → port < named_ports → wire_for result port ≡ slice_get links.now port }
{
    let mut wires = [None; PORTS];
    for port in 0..PORTS.min(links.len()) {
        wires[port] = Some(links[port]);
    }
    wires
}

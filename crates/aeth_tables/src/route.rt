// Routes along paths.
ghost use Rattle.aeth_chip.specs.Chip.{IsChip};
ghost use Rattle.aeth_header.specs.Layout.{port_bits};
ghost use Rattle.aeth_tables.specs.Routes.{IsSent, port_of, route_along};
ghost use Rattle.std.specs.Prelude.{◌≡◌, ◌<◌, ◌^◌, All, drop};

use aeth_base::{LinkId, Path};
use aeth_chip::Chip;
use aeth_header::PORT_BITS;

/// The port of a link on which a router sends.
fn port_of(chip: &Chip, link: LinkId) -> u32
    requires chip { IsChip chip.now }
    requires sent { IsSent chip.now.links link }
    ensures port { result ≡ port_of chip.now.links link }
    ensures few { result < 2 ^ port_bits }
{
    chip.port(link) as u32
}

/// The route along a path, as a header has it: the ports of its links after the first, three bits
/// each, the first of them lowest. Routers send on these links.
pub fn route_along(chip: &Chip, path: &Path) -> u32
    requires chip { IsChip chip.now }
    requires sent { All (IsSent chip.now.links) (drop 1 path.now) }
    ensures { result ≡ route_along chip.now.links path.now }
{
    let mut route = 0;
    for place in (1..path.len()).rev() {
        route = (route << PORT_BITS) + port_of(chip, path.link(place));
    }
    route
}

// The wires of a chip's links.
ghost use Rattle.std.specs.Prelude.{◌≡◌, ◌<◌, ◌≤◌, ◌*◌, length};
ghost use Rattle.aeth_base.specs.Limits.{max_link_delay};
ghost use Rattle.aeth_chip.specs.Limits.{max_links};
ghost use Rattle.aeth_chip.specs.Paths.{delay_of};
ghost use Rattle.aeth_chip.specs.Wires.{wire_at, wires_of};

use crate::chip::Chip;
use aeth_base::LinkId;

impl Chip {
    /// How many wires the links have together: a link of a delay has as many, one behind the other,
    /// so the sum of all delays.
    pub fn wires(&self) -> u32
        ensures wires { result ≡ wires_of self.now.links }
        ensures most { result ≤ max_links * max_link_delay }
    {
        self.wire_count()
    }

    /// The wire so many places behind a link, 0 for the link itself. The further wires are numbered
    /// after all links, in link order, and those of a link in the order of travel.
    pub fn wire(&self, link: LinkId, place: u32) -> LinkId
        requires link { link.0 < length self.now.links }
        requires place { place < delay_of self.now.links link }
        ensures wire { result.0 ≡ wire_at self.now.links link.0 place }
        ensures below { result.0 < wires_of self.now.links }
    {
        let further = self.further_before(link);
        if place == 0 {
            return link;
        }
        LinkId(self.links() + further + (place - 1))
    }
}

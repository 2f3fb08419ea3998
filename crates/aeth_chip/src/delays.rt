// Offsets and delays along paths.
ghost use Rattle.std.specs.Prelude.{◌≡◌, ◌<◌, ◌≤◌, ◌*◌, length, All};
ghost use Rattle.aeth_base.specs.Limits.{max_link_delay, max_path_delay};
ghost use Rattle.aeth_chip.specs.Paths.{offset, path_delay};

use crate::chip::Chip;
use aeth_base::Path;

impl Chip {
    #[tactic(auto, using(crate::proofs::OffsetLemmas::offset_step))]
    /// How many cycles after a flit enters a path it enters the link at a place: the sum of the
    /// delays of the links before. At the length of the path that is the path's delay.
    pub fn offset(&self, path: &Path, place: u32) -> u32
        requires links { All (λ link. link.0 < length self.now.links) path.now }
        requires place { place ≤ length path.now }
        ensures offset { result ≡ offset self.now.links path.now place }
        ensures most { result ≤ place * max_link_delay }
    {
        // Its clause tells the proof how long a path is.
        let _ = path.len();
        let mut delay = 0;
        for i in 0..place {
            delay += self.link(path.link(i)).delay;
        }
        delay
    }

    #[tactic(auto, using(crate::proofs::OffsetLemmas::offset_all))]
    /// How many cycles a flit takes along a path: the sum of the delays of its links, at most 32.
    pub fn path_delay(&self, path: &Path) -> u32
        requires { All (λ link. link.0 < length self.now.links) path.now }
        ensures delay { result ≡ path_delay self.now.links path.now }
        ensures most { result ≤ max_path_delay }
    {
        self.offset(path, path.len())
    }
}

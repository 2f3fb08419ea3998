// Paths over the links of a chip.
ghost use Rattle.std.specs.List.{list_all};
ghost use Rattle.std.specs.Prelude.{◌≡◌, length, nat_lt};

use crate::chip::Chip;
use aeth_base::Path;

impl Chip {
    /// Whether all links of a path are the chip's.
    pub fn has_links(&self, path: &Path) -> bool
        ensures { result ≡ list_all (λ link. nat_lt link.0 (length self.now.links)) path.now }
    {
        for i in 0..path.len() {
            if path.link(i).0 >= self.links() {
                return false;
            }
        }
        true
    }
}

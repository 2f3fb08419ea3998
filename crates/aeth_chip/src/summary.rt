// How far the network interfaces of a chip are apart.
ghost use Rattle.std.specs.Prelude.{◌≡◌};
ghost use Rattle.aeth_chip.specs.Summary.{far_of, unreached_of};

use crate::chip::Chip;
use crate::levels::{level_at, levels_before, origins_in};

/// How far the network interfaces of a chip are apart, over all ordered pairs, each with itself
/// among them.
#[derive(Clone, Copy)]
pub struct Summary {
    /// The greatest least number of links; 0 where no pair has a path.
    pub far: u32,
    /// How many pairs have no path.
    pub unreached: u32,
}

impl Summary {
    /// The summary of a chip: for each interface a search in levels, backwards over the links, in
    /// about as many steps as the chip has nodes and links. Nothing is allocated.
    pub fn of(chip: &Chip) -> Summary
        ensures far { result.far ≡ far_of chip.now }
        ensures unreached { result.unreached ≡ unreached_of chip.now }
    {
        // Its clause tells the proof what holds of every chip.
        let _ = chip.slots();
        let routers = chip.routers();
        let nis = chip.nis();
        let origins = origins_in(chip);
        let mut far = 0;
        let mut unreached = 0;
        for b in 0..nis {
            let levels = levels_before(&origins, routers, (routers + b) as usize);
            for a in 0..nis {
                match level_at(&levels, (routers + a) as usize) {
                    Some(least) => far = far.max(least),
                    None => unreached += 1,
                }
            }
        }
        Summary { far, unreached }
    }
}

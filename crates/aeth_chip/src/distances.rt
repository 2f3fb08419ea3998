// Least numbers of links, found by levels from each interface backwards over the links.
ghost use Rattle.std.specs.Prelude.{◌≡◌, ◌+◌, ◌<◌, ◌≤◌, ℕ, IfOk, IfSome, length};
ghost use Rattle.aeth_chip.specs.Distances.{AreLevelRows, AreRows, entry_at};
ghost use Rattle.aeth_chip.specs.Limits.{max_nis, max_places, max_routers};
ghost use Rattle.aeth_chip.specs.Levels.{HasPlaces, IsOrigin};
ghost use Rattle.aeth_chip.specs.Paths.{IsDistance, IsOnwardDistance};

use crate::chip::Chip;
use crate::levels::{levels_to, origins_of};
use crate::node::Link;
use aeth_base::{NiId, NoMemory, RouterId};
use std::alloc::Global;
use std::marker::Model;

/// The least numbers of links to each network interface of a chip, from each router and from each
/// network interface, in a table of (routers + interfaces) times interfaces entries.
///
/// Seen as the links of the chip in file order, on which alone they rest. This project's own.
#[derive(Drop)]
pub struct Distances {
    links: Vec<Link>,
    routers: u32,
    rows: Vec<Vec<Option<u32>>>,
}

impl Model for Distances {
    ghost use Rattle.std.specs.Prelude.{List};
    ghost use Rattle.aeth_chip.specs.declared.node.Link.{Link};
    ghost use Rattle.aeth_chip.specs.Distances.{IsDistanceTable};

    ghost Value = { List Link };

    ghost view = { λ distances. distances.links.items };

    ghost invariant = { λ distances.
        IsDistanceTable distances.links.items distances.routers distances.rows.items };
}

impl Distances {
    /// The least numbers of links of a chip: for each interface a search in levels, backwards over
    /// the links, in about as many steps as the chip has nodes and links. `Err` where there was no
    /// memory.
    pub fn of(alloc: Global, chip: &Chip) -> Result<Distances, NoMemory>
        ensures { IfOk result (λ distances. distances ≡ chip.now.links) }
    {
        let links = chip.all_links().to_vec(alloc)?;
        Distances::over(alloc, chip.routers(), chip.nis(), links)
    }

    // The same of the links between so many routers and network interfaces.
    fn over(alloc: Global, routers: u32, nis: u32, links: Vec<Link>) -> Result<Distances, NoMemory>
        requires routers { routers ≤ max_routers }
        requires nis { nis ≤ max_nis }
        requires places { HasPlaces links.items routers (routers + nis) }
        ensures { IfOk result (λ distances. distances ≡ links.items) }
    {
        let rows = rows_of(alloc, routers, nis, &links)?;
        Ok(Distances {
            links,
            routers,
            rows,
        })
    }

    /// The least number of links of a path from an interface to an interface, through distinct
    /// routers, at least one; from an interface to itself, over its router and back. `None` exactly
    /// where no path leads there.
    pub fn between(&self, a: NiId, b: NiId) -> Option<u32>
        ensures distance { IsDistance self.now a b result }
        ensures within { IfSome result (λ least. (2 ≤ least) × (least ≤ max_routers + 1)) }
    {
        let place = self.routers as usize + a.0 as usize;
        entry(&self.rows, b.0 as usize, place)
    }

    /// The least number of links of a path from a router to an interface, through distinct routers.
    /// `None` exactly where no path leads there.
    pub fn onward(&self, r: RouterId, b: NiId) -> Option<u32>
        ensures distance { IsOnwardDistance self.now r b result }
        ensures within { IfSome result (λ least. (1 ≤ least) × (least ≤ max_routers)) }
    {
        if r.0 >= self.routers {
            return None;
        }
        entry(&self.rows, b.0 as usize, r.0 as usize)
    }
}

// The entry of a row at a place. `None` where the table has no such row, or the row no such place.
fn entry(rows: &[Vec<Option<u32>>], goal: usize, place: usize) -> Option<u32>
    ensures { result ≡ entry_at rows.now goal place }
{
    *rows.get(goal)?.get(place)?
}

// A row for each of so many network interfaces.
fn rows_of(
    alloc: Global,
    routers: u32,
    nis: u32,
    links: &[Link],
) -> Result<Vec<Vec<Option<u32>>>, NoMemory>
    requires routers { routers ≤ max_routers }
    requires nis { nis ≤ max_nis }
    requires places { HasPlaces links.now routers (routers + nis) }
    ensures { IfOk result (λ rows. AreRows links.now routers rows.items) }
{
    let places = routers as usize + nis as usize;
    let origins = origins_of(alloc, links, routers, places)?;
    levels_of(alloc, routers, nis, &origins)
}

// The levels before each of so many network interfaces, whose places come after those of the
// routers.
fn levels_of(
    alloc: Global,
    routers: u32,
    nis: u32,
    origins: &[u128],
) -> Result<Vec<Vec<Option<u32>>>, NoMemory>
    requires routers { routers ≤ max_routers }
    requires nis { nis ≤ max_nis }
    requires size { length origins.now ≡ routers + nis }
    requires places { (from to : ℕ) → IsOrigin origins.now from to → from < length origins.now }
    ensures { IfOk result (λ rows. AreLevelRows origins.now routers nis rows.items) }
{
    let mut rows = Vec::with_capacity(alloc, nis as usize)?;
    for ni in 0..nis {
        add_levels(alloc, routers, ni, origins, &mut rows)?;
    }
    Ok(rows)
}

// Puts the levels before a network interface behind the rows.
fn add_levels(
    alloc: Global,
    routers: u32,
    ni: u32,
    origins: &[u128],
    rows: &mut Vec<Vec<Option<u32>>>,
) -> Result<(), NoMemory>
    requires goal { routers + ni < length origins.now }
    requires places { (from to : ℕ) → IsOrigin origins.now from to → from < length origins.now }
    requires most { length origins.now ≤ max_places }
    requires rows { AreLevelRows origins.now routers ni rows.old.items }
    ensures { IfOk result (λ _. AreLevelRows origins.now routers (ni + 1) rows.new.items) }
{
    let goal = routers as usize + ni as usize;
    let levels = levels_to(alloc, origins, routers, goal)?;
    rows.push(levels)?;
    Ok(())
}

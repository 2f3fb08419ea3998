// Reading a chip file: its rules one after the other.
ghost use Rattle.std.specs.Prelude.{◌≡◌, ◌++◌, [], IfOk};
ghost use Rattle.aeth_base.specs.Faults.{Reads};
ghost use Rattle.aeth_chip.specs.ChipFile.{chip_in, chip_of, delays, is_in_range, most_slots};
ghost use Rattle.aeth_chip.specs.ChipFile.{names_differ, numbers};
ghost use Rattle.aeth_chip.specs.Faults.{rule_of};
ghost use Rattle.aeth_chip.specs.Told.{nis_of, routers_of, version_of};
ghost use Rattle.aeth_document.specs.Walks.{first_broken, repeats, walked};
ghost use Rattle.toml.specs.View.{table_view};

use crate::chip::{Chip, MAX_LINKS, MAX_NIS, MAX_ROUTERS, MAX_SLOTS_OF_VERSION_1};
use crate::fault::ChipFault;
use crate::keys::{allows_delays, judge_keys, link_tables, nis_of, routers_of, version_of};
use crate::links::delay_at;
use crate::making::named_chip;
use aeth_base::{Broken, MAX_LINK_DELAY, MAX_SLOTS, NoMemory, Shown};
use aeth_document::{Walk, count_outside, integer_at, outside, read_document, repeats};
use indexmap::IndexSet;
use std::alloc::Global;
use toml::Table;

fn most_slots(root: &Table) -> u32
    ensures { result ≡ most_slots (version_of (table_view root.now)) }
{
    if allows_delays(root) {
        MAX_SLOTS
    } else {
        MAX_SLOTS_OF_VERSION_1
    }
}

#[tactic(auto, unfolding(crate::specs::ChipFile::numbers))]
fn numbers(root: &Table) -> [Option<Shown>; 5]
    ensures { result ≡ numbers (table_view root.now) }
{
    [
        outside(1, 2, version_of(root)),
        outside(1, most_slots(root) as u64, integer_at(root, "slots")),
        count_outside(1, MAX_ROUTERS as u64, routers_of(root).count_left()),
        count_outside(1, MAX_NIS as u64, nis_of(root).count_left()),
        count_outside(0, MAX_LINKS as u64, link_tables(root).count_left()),
    ]
}

// The walk after a check of each link's delay, where the version allows them.
#[tactic(auto, unfolding(crate::specs::ChipFile::delays, aeth_document::specs::Walks::walked))]
fn delays(walk: Walk, root: &Table) -> Walk
    ensures { result ≡ walked walk (delays (table_view root.now)) }
{
    if !allows_delays(root) {
        return walk;
    }
    let mut walk = walk;
    for link in link_tables(root) {
        walk = walk.check(outside(1, MAX_LINK_DELAY as u64, delay_at(link)));
    }
    walk
}

#[tactic(auto, unfolding(crate::specs::ChipFile::is_in_range), using(aeth_document::proofs::WalkLemmas::walk_laws))]
fn judge_ranges(root: &Table) -> Result<(), ChipFault>
    ensures { Reads rule_of (λ u. u) result (is_in_range (table_view root.now)) }
{
    let walk = Walk::from(1)
        .checks(&numbers(root))
        .names(routers_of(root))
        .names(nis_of(root));
    match delays(walk, root).found() {
        None => Ok(()),
        Some(broken) => Err(ChipFault::OutOfRange(broken)),
    }
}

// The first text of the routers and then the interfaces that stands there twice.
fn repeated_name(alloc: Global, root: &Table) -> Result<Option<Broken>, NoMemory>
    ensures { IfOk result (λ found. found ≡ first_broken 0
        (repeats [] (routers_of (table_view root.now) ++ nis_of (table_view root.now)))) }
{
    let mut seen = IndexSet::with_capacity(alloc, (MAX_ROUTERS + MAX_NIS) as usize)?;
    first_repeated(&mut seen, root)
}

// The same, with the texts put into a set that has none yet.
fn first_repeated<'a>(
    seen: &mut IndexSet<&'a str>,
    root: &'a Table,
) -> Result<Option<Broken>, NoMemory>
    requires { seen.old.keys ≡ [] }
    ensures { IfOk result (λ found. found ≡ first_broken 0
        (repeats [] (routers_of (table_view root.now) ++ nis_of (table_view root.now)))) }
{
    let walk = repeats(Walk::from(0), seen, routers_of(root))?;
    let walk = repeats(walk, seen, nis_of(root))?;
    Ok(walk.found())
}

#[tactic(auto, unfolding(crate::specs::ChipFile::names_differ))]
fn judge_names(alloc: Global, root: &Table) -> Result<(), ChipFault>
    ensures { Reads rule_of (λ u. u) result (names_differ (table_view root.now)) }
{
    match repeated_name(alloc, root)? {
        None => Ok(()),
        Some(broken) => Err(ChipFault::NameTwice(broken)),
    }
}

#[tactic(auto, unfolding(crate::specs::ChipFile::chip_in))]
fn chip_in(alloc: Global, root: &Table) -> Result<Chip, ChipFault>
    ensures { Reads rule_of (λ chip. chip) result (chip_in (table_view root.now)) }
{
    judge_keys(root)?;
    judge_ranges(root)?;
    judge_names(alloc, root)?;
    named_chip(alloc, root)
}

/// The chip of a file's bytes, or the first rule that the file breaks; or memory ran out.
#[tactic(auto, unfolding(crate::specs::ChipFile::chip_of))]
pub fn read_chip(alloc: Global, bytes: &[u8]) -> Result<Chip, ChipFault>
    ensures { Reads rule_of (λ chip. chip) result (chip_of bytes.now) }
{
    match read_document(alloc, bytes)? {
        Some(root) => chip_in(alloc, &root),
        None => Err(ChipFault::BadToml(Broken {
            place: 0,
            value: Shown::Nothing,
        })),
    }
}

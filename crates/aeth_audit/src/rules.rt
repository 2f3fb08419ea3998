// Rules 2 and 3 of a row: whether its flit is one of a channel, and whether it comes from a row
// before and goes on to a row after.
ghost use Rattle.std.specs.Prelude.{◌≡◌, ◌<◌, ◌≤◌, ◌^◌, ◌==◌, ◌&&◌, All, None, Some, false, length};
ghost use Rattle.std.specs.Prelude.{if◌then◌else◌, true};
ghost use Rattle.std.specs.List.Sorted.{IsPartitionPoint};
ghost use Rattle.aeth_audit.specs.Audit.{are_blank, comes_from, goes_on, goes_to, has_after};
ghost use Rattle.aeth_audit.specs.Audit.{has_before, is_addressed, row_on};
ghost use Rattle.aeth_audit.specs.LinkLog.{is_before};
ghost use Rattle.aeth_audit.specs.Starts.{AreIndexed};

use crate::row::LinkRow;
use crate::starts::{IndexedRows, start_at};
use aeth_base::{LinkId, Path};
use aeth_chip::Chip;
use aeth_clocked::Flit;
use aeth_header::{hop, unpack};

// Whether the words beyond the count are 0.
fn are_blank(count: u8, flit: &Flit) -> bool
    ensures { result ≡ are_blank count flit.now }
{
    (2 <= count || flit.second == 0) && (1 <= count || flit.first == 0)
}

/// Whether a flit has this route and this queue, a word or a credit, at most two words, and none
/// beyond its count.
pub(crate) fn is_addressed(route: u32, queue: u32, flit: &Flit) -> bool
    ensures { result ≡ is_addressed route queue flit.now }
{
    match unpack(flit.header) {
        Err(_) => false,
        Ok(header) => {
            header.route == route
                && header.queue as u32 == queue
                && !(header.count == 0 && header.credits == 0)
                && are_blank(header.count, flit)
        }
    }
}

// Whether the first flit goes on as the second.
fn goes_on(before: &Flit, after: &Flit) -> bool
    ensures { result ≡ goes_on before.now after.now }
{
    after.header == hop(before.header).1
        && after.first == before.first
        && after.second == before.second
}

// How many rows come before those of a link in a cycle. Of the rows of this cycle it halves what is
// left in each step.
fn rows_before(log: &IndexedRows, cycle: u64, link: LinkId) -> usize
    requires log { AreIndexed log.now }
    requires soon { cycle < 2 ^ 63 }
    ensures { IsPartitionPoint (λ row. is_before cycle link.0 row ≡ true)
        (λ row. is_before cycle link.0 row ≡ false) log.now.rows.now result }
{
    let mut low = start_at(log, cycle);
    let mut high = start_at(log, cycle + 1);
    'halves: while low < high {
        let middle = low + (high - low) / 2;
        if log.rows[middle].link.0 < link.0 {
            low = middle + 1;
        } else {
            high = middle;
        }
    }
    low
}

// The row, where it is one of the link in the cycle.
fn kept_on(row: &LinkRow, cycle: u64, link: LinkId) -> Option<LinkRow>
    ensures { result
        ≡ (if row.now.cycle == cycle && row.now.link.0 == link.0 then Some row.now else None) }
{
    if row.cycle as u64 == cycle && row.link.0 == link.0 {
        Some(*row)
    } else {
        None
    }
}

// The row of a link in a cycle.
fn row_on(log: &IndexedRows, cycle: u64, link: LinkId) -> Option<LinkRow>
    requires log { AreIndexed log.now }
    requires soon { cycle < 2 ^ 63 }
    ensures { result ≡ row_on log.now.rows.now cycle link.0 }
{
    match log.rows.get(rows_before(log, cycle, link)) {
        None => None,
        Some(row) => kept_on(row, cycle, link),
    }
}

// Whether a flit was on a link a delay before, from which that of the row goes on.
fn comes_from(chip: &Chip, log: &IndexedRows, row: &LinkRow, link: LinkId) -> bool
    requires link { link.0 < length chip.now.links }
    requires log { AreIndexed log.now }
    ensures { result ≡ comes_from chip.now.links log.now.rows.now row.now link }
{
    let delay = chip.link(link).delay;
    let cycle = row.cycle.saturating_sub(delay) as u64;
    match row_on(log, cycle, link) {
        None => false,
        Some(before) => goes_on(&before.flit, &row.flit),
    }
}

// Whether a row at a place of a path has a row before it, unless the place is the first.
fn has_before(chip: &Chip, log: &IndexedRows, path: &Path, place: u32, row: &LinkRow) -> bool
    requires links { All (λ link. link.0 < length chip.now.links) path.now }
    requires place { place < length path.now }
    requires log { AreIndexed log.now }
    ensures { result ≡ has_before chip.now.links log.now.rows.now path.now place row.now }
{
    place == 0 || comes_from(chip, log, row, path.link(place - 1))
}

// Whether a flit is on a link a delay after, unless that is the end or later, which goes on from
// that of the row.
fn goes_to(chip: &Chip, log: &IndexedRows, cycles: u32, row: &LinkRow, link: LinkId) -> bool
    requires own { row.now.link.0 < length chip.now.links }
    requires log { AreIndexed log.now }
    ensures { result ≡ goes_to chip.now.links log.now.rows.now cycles row.now link }
{
    let after = row.cycle as u64 + chip.link(row.link).delay as u64;
    if cycles as u64 <= after {
        return true;
    }
    match row_on(log, after, link) {
        None => false,
        Some(next) => goes_on(&row.flit, &next.flit),
    }
}

// Whether a row at a place of a path has a row after it, unless the place is the last.
fn has_after(
    chip: &Chip,
    log: &IndexedRows,
    cycles: u32,
    path: &Path,
    place: u32,
    row: &LinkRow,
) -> bool
    requires own { row.now.link.0 < length chip.now.links }
    requires place { place < length path.now }
    requires log { AreIndexed log.now }
    ensures { result ≡ has_after chip.now.links log.now.rows.now cycles path.now place row.now }
{
    let links = path.len();
    place + 1 >= links || goes_to(chip, log, cycles, row, path.link(place + 1))
}

/// Whether a row at a place of a path has one before it and one after it.
pub(crate) fn is_joined(
    chip: &Chip,
    log: &IndexedRows,
    cycles: u32,
    path: &Path,
    place: u32,
    row: &LinkRow,
) -> bool
    requires own { row.now.link.0 < length chip.now.links }
    requires links { All (λ link. link.0 < length chip.now.links) path.now }
    requires place { place < length path.now }
    requires log { AreIndexed log.now }
    ensures { result ≡ (has_before chip.now.links log.now.rows.now path.now place row.now
        && has_after chip.now.links log.now.rows.now cycles path.now place row.now) }
{
    has_before(chip, log, path, place, row) && has_after(chip, log, cycles, path, place, row)
}

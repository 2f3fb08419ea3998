// How many connections each core has, and the positions of these, each in one pass.
ghost use Rattle.std.specs.Prelude.{◌≡◌, ◌+◌, ◌≤◌, ◌<◌, All, IfOk, Some, length, slice_get};
ghost use Rattle.std.specs.Prelude.{slice_index_or, slice_set, if◌then◌else◌};
ghost use Rattle.aeth_base.specs.declared.ids.CoreId.{CoreId};
ghost use Rattle.aeth_app.specs.App.{IsConnection, is_end};
ghost use Rattle.aeth_app.specs.Ends.{AreEndCounts, ArePositions};
ghost use Rattle.aeth_app.specs.Limits.{max_connections};

use crate::connection::Connection;
use aeth_base::{CoreId, NoMemory};
use std::alloc::Global;

/// The positions of a connection at its two ends.
#[derive(Clone, Copy)]
pub(crate) struct Positions {
    pub from: u32,
    pub to: u32,
}

/// The positions at a place.
pub(crate) fn positions_at(positions: &[Positions], place: usize) -> Positions
    requires { place < length positions.now }
    ensures { slice_get positions.now place ≡ Some result }
{
    positions[place]
}

/// How many connections a core has, of those that are counted.
pub(crate) fn count_at(counts: &[u32], core: CoreId) -> u32
    requires { core.0 < length counts.now }
    ensures { result ≡ slice_index_or counts.now core.0 0 }
{
    counts[core.0 as usize]
}

// Counts one more connection of a core. A core that has no count is passed over.
fn count_more(counts: &mut [u32], core: CoreId)
    requires { slice_index_or counts.old core.0 0 ≤ max_connections }
    ensures { counts.new
        ≡ slice_set counts.old core.0 (slice_index_or counts.old core.0 0 + 1) }
{
    let place = core.0 as usize;
    if place < counts.len() {
        counts[place] += 1;
    }
}

// Counts one more connection of each of its ends.
fn count_ends(counts: &mut [u32], connection: &Connection)
    requires { (core : CoreId) → slice_index_or counts.old core.0 0 ≤ max_connections }
    ensures size { length counts.new ≡ length counts.old }
    ensures each { (core : CoreId) → core.0 < length counts.old
        → slice_index_or counts.new core.0 0 ≡ slice_index_or counts.old core.0 0
        + (if is_end core connection.now then 1 else 0) }
{
    count_more(counts, connection.from);
    if connection.to.0 != connection.from.0 {
        count_more(counts, connection.to);
    }
}

/// For each of so many cores how many of the connections have it as an end.
pub(crate) fn end_counts(
    alloc: Global,
    cores: u32,
    connections: &[Connection],
) -> Result<Vec<u32>, NoMemory>
    requires { length connections.now ≤ max_connections }
    ensures { IfOk result (λ counts. AreEndCounts cores connections.now counts.items) }
{
    let mut counts = vec![in alloc; 0; cores as usize]?;
    for connection in connections {
        count_ends(&mut counts, connection);
    }
    Ok(counts)
}

/// The positions of connections between so many cores.
pub(crate) fn positions_of(
    alloc: Global,
    cores: u32,
    connections: &[Connection],
) -> Result<Vec<Positions>, NoMemory>
    requires few { length connections.now ≤ max_connections }
    requires joined { All (IsConnection cores) connections.now }
    ensures { IfOk result (λ positions. ArePositions connections.now positions.items) }
{
    let mut counts = vec![in alloc; 0; cores as usize]?;
    let mut positions = Vec::new(alloc);
    for connection in connections {
        positions.push(Positions {
            from: count_at(&counts, connection.from),
            to: count_at(&counts, connection.to),
        })?;
        count_ends(&mut counts, connection);
    }
    Ok(positions)
}

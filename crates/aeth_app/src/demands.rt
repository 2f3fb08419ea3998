// What the cores and connections of an application ask for.
ghost use Rattle.std.specs.Prelude.{◌≡◌, ◌≤◌, count_by, flat_map, length, map, slice_get, IfOk, None, OnOk};
ghost use Rattle.aeth_base.specs.Faults.{Reads};
ghost use Rattle.aeth_app.specs.App.{is_fixed_to};
ghost use Rattle.aeth_app.specs.Demands.{IsWithinDemands, above, core_to_itself, core_too_busy};
ghost use Rattle.aeth_app.specs.Demands.{demands, own_end, rate_too_high, seats_overfull, shown_core};
ghost use Rattle.aeth_app.specs.Demands.{too_fast, too_few_seats};
ghost use Rattle.aeth_app.specs.Fault.{rule_of};
ghost use Rattle.aeth_app.specs.Limits.{max_connections, max_cores};

use crate::app::{MAX_CORE_CONNECTIONS, SEATS_PER_NI};
use crate::connection::{Connection, Core, Wish};
use crate::ends::{count_at, end_counts};
use crate::fault::AppFault;
use aeth_base::{Broken, CoreId, NoMemory, Shown, WORDS_PER_FLIT};
use aeth_document::Walk;
use std::alloc::Global;

fn too_fast(wish: &Wish) -> Option<Shown>
    ensures { result ≡ too_fast wish.now }
{
    above(WORDS_PER_FLIT as u64 * wish.per as u64, wish.words as u64)
}

// The first wish that has more than two words a cycle.
#[tactic(auto, unfolding(aeth_document::specs::Walks::walked))]
fn rate_too_high(connections: &[Connection]) -> Option<Broken>
    ensures { result ≡ rate_too_high connections.now }
{
    let mut walk = Walk::from(0);
    for connection in connections {
        walk = walk.checks(&[too_fast(&connection.fwd), too_fast(&connection.back)]);
    }
    walk.found()
}

fn shown_core(cores: &[Core], core: CoreId) -> Shown
    ensures { result ≡ shown_core (slice_get cores.now core.0) }
{
    cores
        .get(core.0 as usize)
        .map_or(Shown::Nothing, |core| Shown::Word(core.name))
}

fn own_end(cores: &[Core], connection: &Connection) -> Option<Shown>
    ensures { result ≡ own_end cores.now connection.now }
{
    if connection.from.0 == connection.to.0 {
        Some(shown_core(cores, connection.from))
    } else {
        None
    }
}

// The first connection that leads from a core to itself.
#[tactic(auto, unfolding(aeth_document::specs::Walks::walked))]
fn core_to_itself(cores: &[Core], connections: &[Connection]) -> Option<Broken>
    ensures { result ≡ core_to_itself cores.now connections.now }
{
    let mut walk = Walk::from(0);
    for connection in connections {
        walk = walk.check(own_end(cores, connection));
    }
    walk.found()
}

fn above(most: u64, count: u64) -> Option<Shown>
    ensures { result ≡ above most count }
{
    (count > most).then_some(Shown::Number(count))
}

// The first core that is an end of too many connections.
#[tactic(auto, using(aeth_base::proofs::Ranges::range_more), unfolding(aeth_document::specs::Walks::walked))]
fn core_too_busy(
    alloc: Global,
    cores: u32,
    connections: &[Connection],
) -> Result<Option<Broken>, NoMemory>
    requires { length connections.now ≤ max_connections }
    ensures { IfOk result (λ found. found ≡ core_too_busy cores connections.now) }
{
    let counts = end_counts(alloc, cores, connections)?;
    let mut walk = Walk::from(0);
    for core in 0..cores {
        let count = count_at(&counts, CoreId(core)) as u64;
        walk = walk.check(above(MAX_CORE_CONNECTIONS as u64, count));
    }
    Ok(walk.found())
}

// The number of cores, where there are more than seats.
#[tactic(auto, unfolding(aeth_document::specs::Walks::walked))]
fn too_few_seats(nis: u32, cores: u32) -> Option<Broken>
    ensures { result ≡ too_few_seats nis cores }
{
    let seats = SEATS_PER_NI as u64 * nis as u64;
    Walk::from(0).check(above(seats, cores as u64)).found()
}

fn is_fixed_to(core: &Core, ni: u32) -> bool
    ensures { result ≡ is_fixed_to ni core.now }
{
    core.fixed.is_some_and(|fixed| fixed.0 == ni)
}

fn count_fixed(cores: &[Core], ni: u32) -> usize
    ensures { result ≡ count_by (is_fixed_to ni) cores.now }
{
    cores.iter().filter(|core| is_fixed_to(core, ni)).count()
}

// The first network interface to which more cores are fixed than it has seats.
#[tactic(auto, using(aeth_base::proofs::Ranges::range_more), unfolding(aeth_document::specs::Walks::walked))]
fn seats_overfull(nis: u32, cores: &[Core]) -> Option<Broken>
    ensures { result ≡ seats_overfull nis cores.now }
{
    let mut walk = Walk::from(0);
    for ni in 0..nis {
        walk = walk.check(above(SEATS_PER_NI as u64, count_fixed(cores, ni) as u64));
    }
    walk.found()
}

/// The first rule on what they ask for that the cores and connections break, on so many network
/// interfaces.
#[tactic(auto, unfolding(crate::specs::Demands::demands))]
pub(crate) fn judge_demands(
    alloc: Global,
    nis: u32,
    cores: &[Core],
    connections: &[Connection],
) -> Result<(), AppFault>
    requires few_cores { length cores.now ≤ max_cores }
    requires few_connections { length connections.now ≤ max_connections }
    ensures gives { Reads rule_of (λ u. u) result (demands nis cores.now connections.now) }
    ensures within { OnOk result (IsWithinDemands nis cores.now connections.now) }
{
    let count = cores.len() as u32;
    if let Some(broken) = rate_too_high(connections) {
        return Err(AppFault::RateTooHigh(broken));
    }
    if let Some(broken) = core_to_itself(cores, connections) {
        return Err(AppFault::CoreToItself(broken));
    }
    if let Some(broken) = core_too_busy(alloc, count, connections)? {
        return Err(AppFault::CoreTooBusy(broken));
    }
    if let Some(broken) = too_few_seats(nis, count) {
        return Err(AppFault::TooFewSeats(broken));
    }
    match seats_overfull(nis, cores) {
        Some(broken) => Err(AppFault::SeatsOverfull(broken)),
        None => Ok(()),
    }
}

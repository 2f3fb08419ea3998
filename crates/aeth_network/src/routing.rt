// By what the routers of a network send on: by headers, or by tables.

ghost use Rattle.std.specs.Prelude.{◌≡◌, ◌≤◌, All, fold, length, slice_range};
ghost use Rattle.std.specs.List.Sorted.{IsNonDecreasingBy};
ghost use Rattle.aeth_components.specs.Entering.{TakesRows};
ghost use Rattle.aeth_running.specs.Routing.{entered_first, entered_with, first_rows, kind_of};
ghost use Rattle.aeth_running.specs.Routing.{later_rows};
ghost use Rattle.aeth_network.specs.Behind.{IsBehind, passed};
ghost use Rattle.aeth_network.specs.Routes.{routing_in};

use crate::tables::UseTables;
use aeth_components::{Components, RouterKind};

// Of which kind the routers of a network are. Where there are no tables they read headers.
pub(crate) fn kind_of(tables: &Option<UseTables>) -> RouterKind
    ensures { result ≡ kind_of (routing_in tables.now) }
{
    match tables {
        None => RouterKind::ByHeader,
        Some(tables) => tables.kind(),
    }
}

// The place behind the rows that enter tables in a cycle.
pub(crate) fn behind_entering(tables: &Option<UseTables>, from: usize, time: u32) -> usize
    requires order { IsNonDecreasingBy (λ one. one.cycle) (later_rows (routing_in tables.now)) }
    requires from { from ≡ passed (λ one. one.cycle) time (later_rows (routing_in tables.now)) }
    ensures { IsBehind (λ one. one.cycle) time (later_rows (routing_in tables.now)) from result }
{
    match tables {
        None => from,
        Some(tables) => tables.behind(from, time),
    }
}

// A cycle, at most a limit, before which none of the rows from a place on enters tables.
pub(crate) fn unentered_until(tables: &Option<UseTables>, place: usize, limit: u32) -> u32
    requires { IsNonDecreasingBy (λ one. one.cycle) (later_rows (routing_in tables.now)) }
    ensures most { result ≤ limit }
    ensures quiet { passed (λ one. one.cycle) result (later_rows (routing_in tables.now)) ≤ place }
{
    match tables {
        None => limit,
        Some(tables) => tables.quiet_until(place, limit),
    }
}

// The first rows enter the tables of components, if these have any.
pub(crate) fn enter_first(tables: &Option<UseTables>, components: &mut Components)
    requires { All (TakesRows (first_rows (routing_in tables.now))) components.old.parts }
    ensures { components.new ≡ record components.old {
      parts = entered_first (routing_in tables.now) components.old.parts;
    } }
{
    match tables {
        None => {}
        Some(tables) => tables.enter_first(components),
    }
}

// The later rows between two places do.
pub(crate) fn enter(tables: &Option<UseTables>, components: &mut Components, from: usize, to: usize)
    requires from { from ≤ to }
    requires to { to ≤ length (later_rows (routing_in tables.now)) }
    requires takes { All (λ entering. All (TakesRows entering.rows) components.old.parts)
        (later_rows (routing_in tables.now)) }
    ensures { components.new ≡ record components.old {
      parts = fold entered_with components.old.parts
          (slice_range (later_rows (routing_in tables.now)) from to);
    } }
{
    match tables {
        None => {}
        Some(tables) => tables.enter(components, from, to),
    }
}

// How long switches between use cases take.
ghost use Rattle.aeth_app.specs.Limits.{max_connections};
ghost use Rattle.aeth_group.specs.Members.{groups_of};
ghost use Rattle.aeth_plan.specs.Plan.{IsPlanOf};
ghost use Rattle.aeth_tables.specs.Changes.{AreFew, lag_in, made, most_writes, span_in, spans_in};
ghost use Rattle.aeth_tables.specs.Changes.{writes_in};
ghost use Rattle.aeth_tables.specs.Switching.{spans_of};
ghost use Rattle.std.specs.List.{range_with_len};
ghost use Rattle.std.specs.Prelude.{◌≡◌, ◌<◌, ◌≤◌, ◌*◌, ◌++◌, IfOk, OnOk, flat_map, length};

use crate::changes::{Change, Changes, all_changes};
use aeth_app::App;
use aeth_base::{NoMemory, UseId};
use aeth_chip::Chip;
use aeth_group::Groups;
use aeth_plan::Plan;
use aeth_trace::Spans;
use std::alloc::Global;

/// The greatest lag of those of some changes that a switch makes.
fn lag_in(groups: &Groups, u: UseId, v: UseId, changes: &[Change]) -> u32
    requires u { u.0 < length groups.now.uses }
    requires v { v.0 < length groups.now.uses }
    ensures { result ≡ lag_in (made groups.now u.0 v.0 changes.now) }
{
    let mut lag = 0;
    for change in changes {
        if !groups.kept(u, v, change.conn) {
            lag = lag.max(change.lag);
        }
    }
    lag
}

/// The writes of those of some changes that a switch makes.
fn writes_in(groups: &Groups, u: UseId, v: UseId, changes: &[Change]) -> u32
    requires u { u.0 < length groups.now.uses }
    requires v { v.0 < length groups.now.uses }
    requires few { AreFew changes.now }
    ensures writes { result ≡ writes_in (made groups.now u.0 v.0 changes.now) }
    ensures most { result ≤ most_writes * max_connections }
{
    let mut writes = 0;
    for change in changes {
        if !groups.kept(u, v, change.conn) {
            writes += change.writes;
        }
    }
    writes
}

/// The span of a switch, by the changes of the use case that is left, and of the one that is entered.
/// A switch between two groups makes all of them.
fn span_in(groups: &Groups, u: UseId, v: UseId, closing: &Changes, opening: &Changes) -> (u32, u32)
    requires u { u.0 < length groups.now.uses }
    requires v { v.0 < length groups.now.uses }
    ensures { result ≡ span_in groups.now u.0 v.0 closing.now opening.now }
{
    if groups.group_of(u).0 != groups.group_of(v).0 {
        return (closing.lag(), closing.writes() + opening.writes());
    }
    let lag = lag_in(groups, u, v, closing.list());
    let closed = writes_in(groups, u, v, closing.list());
    let opened = writes_in(groups, u, v, opening.list());
    (lag, closed + opened)
}

/// Appends the spans of all switches from a use case.
fn push_spans(
    pairs: &mut Vec<(u32, u32)>,
    groups: &Groups,
    u: UseId,
    all: &[Changes],
) -> Result<(), NoMemory>
    requires u { u.0 < length groups.now.uses }
    requires all { length all.now ≡ length groups.now.uses }
    ensures { OnOk result (pairs.new.items
        ≡ pairs.old.items ++ spans_in groups.now all.now u.0) }
{
    let closing = &all[u.0 as usize];
    for v in 0..groups.uses() {
        let opening = &all[v as usize];
        pairs.push(span_in(groups, u, UseId(v), closing, opening))?;
    }
    Ok(())
}

/// The spans of all switches, use case by use case.
fn all_spans(alloc: Global, groups: &Groups, all: &[Changes]) -> Result<Vec<(u32, u32)>, NoMemory>
    requires { length all.now ≡ length groups.now.uses }
    ensures { IfOk result (λ pairs. pairs.items
        ≡ flat_map (spans_in groups.now all.now) (range_with_len 0 (length groups.now.uses))) }
{
    let mut pairs = Vec::new(alloc);
    for u in 0..groups.uses() {
        push_spans(&mut pairs, groups, UseId(u), all)?;
    }
    Ok(pairs)
}

/// How long the switches between the use cases of an application take by a plan: for each pair of use
/// cases the lag, and the writes to the tables of the interfaces. `Err` where there was no memory.
///
/// A switch keeps the connections that both use cases have, where they are in one group. The others
/// close or open.
pub fn spans(
    alloc: Global,
    chip: &Chip,
    app: &App,
    groups: &Groups,
    plan: &Plan,
) -> Result<Spans, NoMemory>
    requires groups { groups.now ≡ groups_of app.now }
    requires plan { IsPlanOf chip.now app.now groups.now plan.now }
    ensures { IfOk result (λ spans. spans
        ≡ spans_of chip.now app.now groups.now plan.now) }
{
    let all = all_changes(alloc, chip, app, groups, plan)?;
    let pairs = all_spans(alloc, groups, &all)?;
    Ok(Spans::new(groups.uses(), pairs))
}

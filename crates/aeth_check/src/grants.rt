// Rules 5 and 6: paths and slots of grants.
ghost use Rattle.aeth_app.specs.App.{IsWish, wish_of};
ghost use Rattle.aeth_check.specs.Calls.{IsWithin};
ghost use Rattle.aeth_check.specs.Channels.{fits_path, fits_slots};
ghost use Rattle.aeth_check.specs.Firsts.{first_line};
ghost use Rattle.aeth_check.specs.Verdict.{invalid_path, unfit_slots};
ghost use Rattle.aeth_chip.specs.Chip.{IsChip};
ghost use Rattle.std.specs.Prelude.{◌≡◌, ◌<◌, All, length, not, slice_get};

use crate::lines::grants_begin;
use crate::routes::leads;
use crate::seating::Seating;
use crate::verdict::Verdict;
use aeth_app::{App, Connection, Wish};
use aeth_base::{Channel, Side};
use aeth_chip::{Chip, Distances};
use aeth_group::Grant;
use aeth_plan::Plan;
use aeth_text::line_after;

/// Whether a grant's path leads from the sender's seat to the receiver's.
fn fits_path(
    chip: &Chip,
    app: &App,
    distances: &Distances,
    seating: &Seating,
    grant: &Grant,
) -> bool
    requires chip { IsChip chip.now }
    requires distances { distances.now ≡ chip.now.links }
    requires conn { grant.now.unit.conn.0 < length app.now.connections }
    requires links { All (λ link. link.0 < length chip.now.links) grant.now.path }
    ensures { result ≡ fits_path chip.now app.now seating.now grant.now
        (slice_get app.now.connections grant.now.unit.conn.0) }
{
    let connection = app.connection(grant.unit.conn);
    let from = seating.ni_of(connection.sender(grant.side));
    let to = seating.ni_of(connection.receiver(grant.side));
    leads(chip, distances, app.detour(), from, to, &grant.path)
}

/// What a connection wishes on a side.
fn wish_of(connection: &Connection, side: Side) -> Wish
    requires fwd { IsWish connection.now.fwd }
    requires back { IsWish connection.now.back }
    ensures wish { result ≡ wish_of connection.now side }
    ensures within { IsWish result }
{
    match side {
        Side::Fwd => connection.fwd,
        Side::Back => connection.back,
    }
}

/// Whether a grant's slots suffice for what its channel needs and wishes.
fn fits_slots(chip: &Chip, app: &App, grant: &Grant) -> bool
    requires conn { grant.now.unit.conn.0 < length app.now.connections }
    requires links { All (λ link. link.0 < length chip.now.links) grant.now.path }
    ensures { result ≡ fits_slots chip.now app.now grant.now
        (slice_get app.now.connections grant.now.unit.conn.0) }
{
    let conn = grant.unit.conn;
    let side = grant.side;
    let wish = wish_of(&app.connection(conn), side);
    let gap = (wish.latency + 1).saturating_sub(chip.path_delay(&grant.path));
    let need = app.need(Channel { conn, side });
    grant.slots.suitable(need, gap)
}

/// The line of the first grant whose path doesn't lead from the sender's seat to the receiver's.
fn first_invalid(
    chip: &Chip,
    app: &App,
    distances: &Distances,
    seating: &Seating,
    first: u32,
    grants: &[Grant],
) -> Option<u32>
    requires chip { IsChip chip.now }
    requires distances { distances.now ≡ chip.now.links }
    requires grants { All (IsWithin chip.now app.now) grants.now }
    ensures { result ≡ first_line (λ grant. not (fits_path chip.now app.now seating.now grant
        (slice_get app.now.connections grant.unit.conn.0))) first grants.now }
{
    let mut line = first;
    for grant in grants {
        if !fits_path(chip, app, distances, seating, grant) {
            return Some(line);
        }
        line = line_after(line, 1);
    }
    None
}

/// Rule 5: a path isn't admissible from the sender's interface to the receiver's, or one of the two
/// isn't seated.
#[tactic(auto, unfolding(crate::specs::Verdict::invalid_path))]
pub(crate) fn invalid_path(
    chip: &Chip,
    app: &App,
    distances: &Distances,
    seating: &Seating,
    plan: &Plan,
) -> Option<Verdict>
    requires chip { IsChip chip.now }
    requires distances { distances.now ≡ chip.now.links }
    requires seating { seating.now ≡ plan.now.seats }
    requires grants { All (IsWithin chip.now app.now) plan.now.grants }
    ensures { result ≡ invalid_path chip.now app.now plan.now }
{
    let first = grants_begin(plan);
    let line = first_invalid(chip, app, distances, seating, first, plan.grants())?;
    Some(Verdict::Broken {
        rule: 5,
        line,
        other: 0,
    })
}

/// The line of the first grant whose slots don't suffice.
fn first_unfit(chip: &Chip, app: &App, first: u32, grants: &[Grant]) -> Option<u32>
    requires { All (IsWithin chip.now app.now) grants.now }
    ensures { result ≡ first_line (λ grant. not (fits_slots chip.now app.now grant
        (slice_get app.now.connections grant.unit.conn.0))) first grants.now }
{
    let mut line = first;
    for grant in grants {
        if !fits_slots(chip, app, grant) {
            return Some(line);
        }
        line = line_after(line, 1);
    }
    None
}

/// Rule 6: slots aren't suitable.
#[tactic(auto, unfolding(crate::specs::Verdict::unfit_slots))]
pub(crate) fn unfit_slots(chip: &Chip, app: &App, plan: &Plan) -> Option<Verdict>
    requires { All (IsWithin chip.now app.now) plan.now.grants }
    ensures { result ≡ unfit_slots chip.now app.now plan.now }
{
    let line = first_unfit(chip, app, grants_begin(plan), plan.grants())?;
    Some(Verdict::Broken {
        rule: 6,
        line,
        other: 0,
    })
}

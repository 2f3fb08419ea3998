// What the fields of a line name on a chip and in an application.
ghost use Rattle.std.specs.Prelude.{◌≡◌, option_map, IfSome, IsTrue, OnOk};
ghost use Rattle.aeth_base.specs.Faults.{Reads};
ghost use Rattle.aeth_plan.specs.Layout.{first_seat_line};
ghost use Rattle.aeth_plan.specs.Known.{IsNamed};
ghost use Rattle.aeth_plan.specs.Plan.{connection_names};
ghost use Rattle.aeth_plan.specs.Rules.{each, holds, known_grant, known_seat, place_among};
ghost use Rattle.aeth_plan.specs.Refusals.{rule_of};

use crate::fault::PlanFault;
use crate::layout::FIRST_SEAT_LINE;
use crate::text::{GrantText, SeatText};
use aeth_app::{App, SEATS_PER_NI};
use aeth_base::{ConnId, GroupId, Name, Unit};
use aeth_chip::Chip;
use aeth_group::{Grant, Groups, SeatLine};
use aeth_text::line_after;
use std::alloc::Global;

/// A field of a line passes its test.
pub(crate) fn holds(line: u32, field: u32, test: bool) -> Result<(), PlanFault>
    ensures gives { Reads rule_of (λ u. u) result (holds line field test) }
    ensures ok { OnOk result (IsTrue test) }
{
    if test {
        Ok(())
    } else {
        Err(PlanFault::Unknown { line, field })
    }
}

/// The seat of a line.
#[tactic(auto, unfolding(crate::specs::Rules::known_seat, crate::specs::Plan::core_names))]
fn known_seat(chip: &Chip, app: &App, line: u32, text: &SeatText) -> Result<SeatLine, PlanFault>
    ensures { Reads rule_of (λ seat. seat) result
        (known_seat chip.now app.now line text.now) }
{
    let Some(core) = app.find_core(&text.core) else {
        return Err(PlanFault::Unknown { line, field: 2 });
    };
    let Some(ni) = chip.find_ni(&text.ni) else {
        return Err(PlanFault::Unknown { line, field: 3 });
    };
    holds(line, 4, text.seat < SEATS_PER_NI)?;
    let seat = text.seat as u8;
    Ok(SeatLine { core, ni, seat })
}

/// A connection that was looked up, and its name.
#[derive(Clone, Copy)]
struct Named {
    name: Name,
    conn: ConnId,
}

/// The connection of a name. The last one that was found is looked at first, since the grants of a
/// connection stand one behind the other.
fn connection_of(app: &App, last: &mut Option<Named>, name: &Name) -> Option<ConnId>
    requires { IfSome last.old (IsNamed app.now) }
    ensures found { option_map (λ conn. conn.0) result
        ≡ place_among (connection_names app.now) name.now }
    ensures last { IfSome last.new (IsNamed app.now) }
{
    if let Some(named) = last {
        if named.name == *name {
            return Some(named.conn);
        }
    }
    let conn = app.find_connection(name)?;
    *last = Some(Named { name: *name, conn });
    Some(conn)
}

/// The grant of a line.
#[tactic(auto, unfolding(crate::specs::Rules::known_grant))]
fn known_grant(
    chip: &Chip,
    app: &App,
    groups: &Groups,
    last: &mut Option<Named>,
    line: u32,
    text: &GrantText,
) -> Result<Grant, PlanFault>
    requires { IfSome last.old (IsNamed app.now) }
    ensures grant { Reads rule_of (λ grant. grant) result
        (known_grant chip.now app.now groups.now line text.now) }
    ensures last { IfSome last.new (IsNamed app.now) }
{
    let Some(conn) = connection_of(app, last, &text.conn) else {
        return Err(PlanFault::Unknown { line, field: 2 });
    };
    holds(line, 3, text.group < groups.count())?;
    holds(line, 5, chip.has_links(&text.links))?;
    let size = chip.slots();
    holds(line, 6, text.starts.are_below(size))?;
    let group = GroupId(text.group);
    Ok(Grant {
        unit: Unit { conn, group },
        side: text.side,
        path: text.links,
        slots: text.starts.set_of(size),
    })
}

/// The seats of the lines from the first seat's on, or the first unknown field.
pub(crate) fn known_seats(
    alloc: Global,
    chip: &Chip,
    app: &App,
    texts: &[SeatText],
) -> Result<Vec<SeatLine>, PlanFault>
    ensures { Reads rule_of (λ seats. seats.items) result
        (each (known_seat chip.now app.now) first_seat_line texts.now) }
{
    let mut line = FIRST_SEAT_LINE;
    let mut seats = Vec::with_capacity(alloc, texts.len())?;
    for text in texts {
        seats.push(known_seat(chip, app, line, text)?)?;
        line = line_after(line, 1);
    }
    Ok(seats)
}

/// The grants of the lines from a line on, or the first unknown field.
pub(crate) fn known_grants(
    alloc: Global,
    chip: &Chip,
    app: &App,
    groups: &Groups,
    first: u32,
    texts: &[GrantText],
) -> Result<Vec<Grant>, PlanFault>
    ensures { Reads rule_of (λ grants. grants.items) result
        (each (known_grant chip.now app.now groups.now) first texts.now) }
{
    let mut line = first;
    let mut last = None;
    let mut grants = Vec::with_capacity(alloc, texts.len())?;
    for text in texts {
        grants.push(known_grant(chip, app, groups, &mut last, line, text)?)?;
        line = line_after(line, 1);
    }
    Ok(grants)
}

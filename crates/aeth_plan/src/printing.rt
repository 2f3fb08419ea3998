// Printing a plan.
ghost use Rattle.aeth_plan.specs.Plan.{core_names};
ghost use Rattle.aeth_plan.specs.PlanText.{HasConnection, HasSeat, grant_words, plan_text};
ghost use Rattle.aeth_plan.specs.PlanText.{seat_words};
ghost use Rattle.aeth_plan.specs.Spelling.{grant_line, head_line, seat_line};
ghost use Rattle.aeth_text.specs.Limits.{line_feed, space};
ghost use Rattle.aeth_text.specs.Spelling.{ended_line, links_word, numbers_word, text_of_lines};
ghost use Rattle.std.specs.Prelude.{◌≡◌, ◌<◌, ◌++◌, ◌∷◌, [], All, IfOk, OnOk, length, map};

use crate::plan::Plan;
use aeth_app::App;
use aeth_base::{NoMemory, Path, push_number};
use aeth_chip::Chip;
use aeth_group::{Grant, SeatLine};
use aeth_slots::SlotSet;
use aeth_text::{push_item, push_links, push_side};
use std::alloc::Global;

/// Appends the starts of a set.
#[tactic(auto, unfolding(aeth_text::specs::Spelling::numbers_word))]
fn push_starts(out: &mut Vec<u8>, set: &SlotSet) -> Result<(), NoMemory>
    ensures { OnOk result (out.new.items ≡ out.old.items ++ numbers_word set.now.slots) }
{
    let mut first = true;
    for slot in set.iter() {
        push_item(out, first, slot)?;
        first = false;
    }
    Ok(())
}

/// Appends the first line.
#[tactic(auto, unfolding(crate::specs::Spelling::head_line))]
fn push_head(out: &mut Vec<u8>, slots: u32) -> Result<(), NoMemory>
    ensures { OnOk result (out.new.items ≡ out.old.items ++ ended_line (head_line slots)) }
{
    out.extend_from_slice(b"plan 1 ")?;
    push_number(out, slots as u64)?;
    out.push(b'\n')?;
    Ok(())
}

/// Appends the line of a seat of these names.
#[tactic(auto, unfolding(crate::specs::Spelling::seat_line))]
fn push_seat_line(out: &mut Vec<u8>, core: &[u8], ni: &[u8], seat: u8) -> Result<(), NoMemory>
    ensures { OnOk result (out.new.items ≡ out.old.items
        ++ ended_line (seat_line (record { core = core.now; ni = ni.now; seat = seat }))) }
{
    out.extend_from_slice(b"seat ")?;
    out.extend_from_slice(core)?;
    out.push(b' ')?;
    out.extend_from_slice(ni)?;
    out.push(b' ')?;
    push_number(out, seat as u64)?;
    out.push(b'\n')?;
    Ok(())
}

/// Appends the line of a seat.
#[tactic(auto, unfolding(crate::specs::Plan::core_names))]
fn push_seat(out: &mut Vec<u8>, chip: &Chip, app: &App, seat: &SeatLine) -> Result<(), NoMemory>
    requires core { seat.now.core.0 < length app.now.cores }
    requires ni { seat.now.ni.0 < length chip.now.nis }
    ensures { OnOk result (out.new.items
        ≡ out.old.items ++ ended_line (seat_line (seat_words chip.now app.now seat.now))) }
{
    let core = app.core(seat.core);
    let ni = chip.ni_name(seat.ni);
    push_seat_line(out, core.name.as_bytes(), ni.as_bytes(), seat.seat)
}

/// Appends the last two fields of a grant's line, and its line feed.
fn push_slots(out: &mut Vec<u8>, path: &Path, set: &SlotSet) -> Result<(), NoMemory>
    ensures { OnOk result (out.new.items ≡ out.old.items ++ space ∷ (links_word path.now
        ++ space ∷ (numbers_word set.now.slots ++ line_feed ∷ []))) }
{
    out.push(b' ')?;
    push_links(out, path)?;
    out.push(b' ')?;
    push_starts(out, set)?;
    out.push(b'\n')?;
    Ok(())
}

/// Appends the line of a grant of this connection.
#[tactic(auto, unfolding(crate::specs::Spelling::grant_line))]
fn push_grant_line(out: &mut Vec<u8>, conn: &[u8], grant: &Grant) -> Result<(), NoMemory>
    ensures { OnOk result (out.new.items ≡ out.old.items ++ ended_line (grant_line (record {
      conn = conn.now;
      group = grant.now.unit.group.0;
      side = grant.now.side;
      links = grant.now.path;
      starts = grant.now.slots.slots;
    }))) }
{
    out.extend_from_slice(b"grant ")?;
    out.extend_from_slice(conn)?;
    out.push(b' ')?;
    push_number(out, grant.unit.group.0 as u64)?;
    out.push(b' ')?;
    push_side(out, grant.side)?;
    push_slots(out, &grant.path, &grant.slots)?;
    Ok(())
}

/// Appends the line of a grant.
fn push_grant(out: &mut Vec<u8>, app: &App, grant: &Grant) -> Result<(), NoMemory>
    requires { grant.now.unit.conn.0 < length app.now.connections }
    ensures { OnOk result (out.new.items
        ≡ out.old.items ++ ended_line (grant_line (grant_words app.now grant.now))) }
{
    let conn = app.connection(grant.unit.conn);
    push_grant_line(out, conn.name.as_bytes(), grant)
}

/// Appends the lines of seats.
fn push_seats(out: &mut Vec<u8>, chip: &Chip, app: &App, seats: &[SeatLine]) -> Result<(), NoMemory>
    requires { All (HasSeat chip.now app.now) seats.now }
    ensures { OnOk result (out.new.items ≡ out.old.items
        ++ text_of_lines (map seat_line (map (seat_words chip.now app.now) seats.now))) }
{
    for seat in seats {
        push_seat(out, chip, app, seat)?;
    }
    Ok(())
}

/// Appends the lines of grants.
fn push_grants(out: &mut Vec<u8>, app: &App, grants: &[Grant]) -> Result<(), NoMemory>
    requires { All (HasConnection app.now) grants.now }
    ensures { OnOk result (out.new.items ≡ out.old.items
        ++ text_of_lines (map grant_line (map (grant_words app.now) grants.now))) }
{
    for grant in grants {
        push_grant(out, app, grant)?;
    }
    Ok(())
}

/// The text of a plan whose lines name cores, interfaces and connections that there are.
#[tactic(auto, unfolding(crate::specs::PlanText::plan_text, crate::specs::Spelling::lines_from))]
pub fn print(alloc: Global, plan: &Plan, chip: &Chip, app: &App) -> Result<Vec<u8>, NoMemory>
    requires seats { All (HasSeat chip.now app.now) plan.now.seats }
    requires grants { All (HasConnection app.now) plan.now.grants }
    ensures { IfOk result (λ text. text.items ≡ plan_text chip.now app.now plan.now) }
{
    let mut out = Vec::new(alloc);
    push_head(&mut out, plan.slots())?;
    push_seats(&mut out, chip, app, plan.seats())?;
    push_grants(&mut out, app, plan.grants())?;
    out.extend_from_slice(b"end\n")?;
    Ok(out)
}

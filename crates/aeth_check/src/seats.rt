// Rules 1 and 2: seats.
ghost use Rattle.aeth_base.specs.declared.ids.CoreId.{CoreId};
ghost use Rattle.aeth_check.specs.Firsts.{first_line, first_pair};
ghost use Rattle.aeth_check.specs.Seats.{first_misseated, is_elsewhere, is_misseated, is_one_seat};
ghost use Rattle.aeth_check.specs.Seats.{seat_line, seat_place};
ghost use Rattle.aeth_plan.specs.Seated.{ni_of};
ghost use Rattle.aeth_check.specs.Verdict.{misseated, shared_seat};
ghost use Rattle.std.specs.Prelude.{◌≡◌, ◌==◌, ℕ, IfOk, IsTrue, None};

use crate::seating::Seating;
use crate::verdict::Verdict;
use aeth_app::{App, Core, SEATS_PER_NI};
use aeth_base::{CoreId, NiId, NoMemory};
use aeth_chip::Chip;
use aeth_group::SeatLine;
use aeth_plan::{FIRST_SEAT_LINE, Plan};
use aeth_text::line_after;
use std::alloc::Global;

fn is_one_seat(a: &SeatLine, b: &SeatLine) -> bool
    ensures { result ≡ is_one_seat a.now b.now }
{
    a.ni.0 == b.ni.0 && a.seat == b.seat
}

/// The line of the first of some seats that is also this one.
fn first_shared(one: &SeatLine, first: u32, others: &[SeatLine]) -> Option<u32>
    ensures { result ≡ first_line (is_one_seat one.now) first others.now }
{
    let mut line = first;
    for other in others {
        if is_one_seat(one, other) {
            return Some(line);
        }
        line = line_after(line, 1);
    }
    None
}

/// The lines of the first two seats that are one.
fn first_pair(first: u32, seats: &[SeatLine]) -> Option<(u32, u32)>
    ensures { result ≡ first_pair is_one_seat first seats.now }
{
    let mut line = first;
    let mut left = seats;
    'seats: while let [one, others @ ..] = left {
        let next = line_after(line, 1);
        if let Some(other) = first_shared(one, next, others) {
            return Some((line, other));
        }
        line = next;
        left = others;
    }
    None
}

/// The place of a seat in a table of the seats of all interfaces.
fn seat_place(line: &SeatLine) -> usize
    ensures { result ≡ seat_place line.now }
{
    line.ni.0 as usize * SEATS_PER_NI as usize + line.seat as usize
}

/// Whether each of some seats has a place of its own among marks. Each is marked.
fn are_apart(seats: &[SeatLine], marks: &mut [bool]) -> bool
    ensures { IsTrue result → (first : ℕ) → first_pair is_one_seat first seats.now ≡ None }
{
    let mut left = seats.len();
    'seats: while left > 0 {
        left -= 1;
        let place = seat_place(&seats[left]);
        if place >= marks.len() || marks[place] {
            return false;
        }
        marks[place] = true;
    }
    true
}

/// The lines of the first two seats that are one. The seats are compared only where they aren't all
/// apart on so many interfaces.
fn shared_pair(
    alloc: Global,
    nis: u32,
    first: u32,
    seats: &[SeatLine],
) -> Result<Option<(u32, u32)>, NoMemory>
    ensures { IfOk result (λ pair. pair ≡ first_pair is_one_seat first seats.now) }
{
    let mut marks = vec![in alloc; false; nis as usize * SEATS_PER_NI as usize]?;
    if are_apart(seats, &mut marks) {
        return Ok(None);
    }
    Ok(first_pair(first, seats))
}

/// Rule 1: two cores have one seat.
#[tactic(auto, unfolding(crate::specs::Verdict::shared_seat))]
pub(crate) fn shared_seat(
    alloc: Global,
    chip: &Chip,
    plan: &Plan,
) -> Result<Option<Verdict>, NoMemory>
    ensures { IfOk result (λ verdict. verdict ≡ shared_seat plan.now) }
{
    match shared_pair(alloc, chip.nis(), FIRST_SEAT_LINE, plan.seats())? {
        Some((line, other)) => Ok(Some(Verdict::Broken {
            rule: 1,
            line,
            other,
        })),
        None => Ok(None),
    }
}

/// The network interface of a core's seat; `None` where the core isn't seated.
pub(crate) fn ni_of(seats: &[SeatLine], core: CoreId) -> Option<NiId>
    ensures { result ≡ ni_of seats.now core }
{
    for line in seats {
        if line.core.0 == core.0 {
            return Some(line.ni);
        }
    }
    None
}

/// The line of a core's seat.
fn first_of(first: u32, seats: &[SeatLine], core: CoreId) -> Option<u32>
    ensures { result ≡ first_line (λ line. line.core.0 == core.0) first seats.now }
{
    let mut line = first;
    for seat in seats {
        if seat.core.0 == core.0 {
            return Some(line);
        }
        line = line_after(line, 1);
    }
    None
}

/// The line of a core's seat; 0 where the core isn't seated.
fn seat_line(seats: &[SeatLine], core: CoreId) -> u32
    ensures { result ≡ seat_line seats.now core }
{
    match first_of(FIRST_SEAT_LINE, seats, core) {
        Some(line) => line,
        None => 0,
    }
}

fn is_elsewhere(fixed: Option<NiId>, seated: Option<NiId>) -> bool
    ensures { result ≡ is_elsewhere fixed seated }
{
    match fixed {
        None => false,
        Some(ni) => match seated {
            None => true,
            Some(at) => at.0 != ni.0,
        },
    }
}

fn is_misseated(seating: &Seating, core: CoreId, one: &Core) -> bool
    ensures { result ≡ is_misseated seating.now core one.now }
{
    is_elsewhere(one.fixed, seating.ni_of(core))
}

/// The line of the first core that is fixed to an interface and not seated there.
fn first_misseated(seats: &[SeatLine], seating: &Seating, app: &App) -> Option<u32>
    requires { seating.now ≡ seats.now }
    ensures { result ≡ first_misseated seats.now 0 app.now.cores }
{
    for number in 0..app.cores() {
        let core = CoreId(number);
        if is_misseated(seating, core, &app.core(core)) {
            return Some(seat_line(seats, core));
        }
    }
    None
}

/// Rule 2: a core that is fixed to an interface isn't seated there.
#[tactic(auto, unfolding(crate::specs::Verdict::misseated))]
pub(crate) fn misseated(app: &App, seating: &Seating, plan: &Plan) -> Option<Verdict>
    requires { seating.now ≡ plan.now.seats }
    ensures { result ≡ misseated app.now plan.now }
{
    let line = first_misseated(plan.seats(), seating, app)?;
    Some(Verdict::Broken {
        rule: 2,
        line,
        other: 0,
    })
}

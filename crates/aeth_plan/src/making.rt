// Making a plan of seats and grants.
ghost use Rattle.std.specs.Prelude.{◌≡◌, AllPairs, IfOk};
ghost use Rattle.std.specs.List.Sorted.{IsPermutation};
ghost use Rattle.aeth_text.specs.Order.{Rises};
ghost use Rattle.aeth_plan.specs.Making.{AreApart, IsPlanWith, seated_cores};
ghost use Rattle.aeth_plan.specs.Plan.{grant_before};

use crate::plan::Plan;
use aeth_base::{CoreId, NoMemory};
use aeth_chip::Chip;
use aeth_group::{Grant, SeatLine};
use aeth_seats::Seats;
use std::alloc::Global;

impl Plan {
    /// The plan for a chip that has the seated cores and these grants, each in the plan's order.
    /// No two grants are for one side of one unit. `Err` where there was no memory.
    #[tactic(auto, using(crate::proofs::SeatedCores::seated_cores_rise))]
    pub fn of(alloc: Global, chip: &Chip, seats: &Seats, grants: &[Grant]) -> Result<Plan, NoMemory>
        requires { AllPairs AreApart grants.now }
        ensures { IfOk result (IsPlanWith chip.now seats.now grants.now) }
    {
        let lines = seated_cores(alloc, seats)?;
        let grants = in_order(alloc, grants)?;
        Ok(Plan::new(chip.slots(), lines, grants))
    }
}

// The lines of the cores that have a seat.
fn seated_cores(alloc: Global, seats: &Seats) -> Result<Vec<SeatLine>, NoMemory>
    ensures { IfOk result (λ lines. lines.items ≡ seated_cores seats.now.places) }
{
    let mut lines = Vec::new(alloc);
    for core in 0..seats.cores() {
        let core = CoreId(core);
        if let Some((ni, seat)) = seats.seat(core) {
            lines.push(SeatLine { core, ni, seat })?;
        }
    }
    Ok(lines)
}

// These grants in the plan's order.
fn in_order(alloc: Global, grants: &[Grant]) -> Result<Vec<Grant>, NoMemory>
    requires { AllPairs AreApart grants.now }
    ensures same { IfOk result (λ sorted. IsPermutation grants.now sorted.items) }
    ensures rises { IfOk result (λ sorted. Rises grant_before sorted.items) }
{
    let mut sorted = grants.to_vec(alloc)?;
    sorted.sort_by_key(|grant| (grant.unit, grant.side))?;
    Ok(sorted)
}

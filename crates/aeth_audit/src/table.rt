// What is made once of a plan: how the flits of each grant are addressed, and where they enter the
// links.
ghost use Rattle.std.specs.Prelude.{◌≡◌, ◌<◌, All, IfOk, map};
ghost use Rattle.aeth_chip.specs.Chip.{IsChip};
ghost use Rattle.aeth_tables.specs.Granted.{line_of};
ghost use Rattle.aeth_plan.specs.Design.{IsDesign};
ghost use Rattle.aeth_audit.specs.Tables.{IsAddressable, IsTable, address_of, seat_number};

use crate::places::Places;
use aeth_app::{App, MAX_CORE_CONNECTIONS};
use aeth_base::{CoreId, NoMemory};
use aeth_chip::Chip;
use aeth_group::{Grant, SeatLine};
use aeth_plan::Plan;
use aeth_tables::route_along;
use std::alloc::Global;

/// How the flits of a grant are addressed as they are injected: the route along its path, and the
/// queue at which its channel lands.
#[derive(Clone, Copy)]
pub(crate) struct Address {
    pub route: u32,
    pub queue: u32,
}

/// For each grant of a plan its address, and where their flits enter the links.
#[derive(Drop)]
pub(crate) struct Table {
    pub addresses: Vec<Address>,
    pub places: Places,
}

// The line that seats a core, if one does.
fn line_of(seats: &[SeatLine], core: CoreId) -> Option<SeatLine>
    ensures { result ≡ line_of seats.now core }
{
    seats.iter().copied().find(|line| line.core.0 == core.0)
}

// The number of the seat of a core; 0 where no line seats it.
fn seat_number(seats: &[SeatLine], core: CoreId) -> u8
    ensures { result ≡ seat_number seats.now core }
{
    match line_of(seats, core) {
        None => 0,
        Some(line) => line.seat,
    }
}

// The address of a grant.
fn address_of(chip: &Chip, app: &App, seats: &[SeatLine], grant: &Grant) -> Address
    requires chip { IsChip chip.now }
    requires grant { IsAddressable chip.now app.now grant.now }
    ensures { result ≡ address_of chip.now app.now seats.now grant.now }
{
    let conn = grant.unit.conn;
    let core = app.connection(conn).receiver(grant.side);
    let seat = seat_number(seats, core) as u32;
    Address {
        route: route_along(chip, &grant.path),
        queue: MAX_CORE_CONNECTIONS * seat + app.position(core, conn),
    }
}

// The addresses of grants.
fn addresses_of(
    alloc: Global,
    chip: &Chip,
    app: &App,
    seats: &[SeatLine],
    grants: &[Grant],
) -> Result<Vec<Address>, NoMemory>
    requires chip { IsChip chip.now }
    requires grants { All (IsAddressable chip.now app.now) grants.now }
    ensures { IfOk result (λ addresses. addresses.items
        ≡ map (address_of chip.now app.now seats.now) grants.now) }
{
    let mut addresses = Vec::with_capacity(alloc, grants.len())?;
    for grant in grants {
        addresses.push(address_of(chip, app, seats, grant))?;
    }
    Ok(addresses)
}

impl Table {
    /// The table of an accepted plan.
    pub(crate) fn of(alloc: Global, chip: &Chip, app: &App, plan: &Plan) -> Result<Table, NoMemory>
        requires { IsDesign chip.now app.now plan.now }
        ensures { IfOk result (IsTable chip.now app.now plan.now) }
    {
        let grants = plan.grants();
        let addresses = addresses_of(alloc, chip, app, plan.seats(), grants)?;
        let places = Places::of(alloc, chip, grants)?;
        Ok(Table { addresses, places })
    }
}

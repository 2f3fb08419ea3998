// The network interfaces of cores, from a table.
ghost use Rattle.aeth_check.specs.Seats.{AreSeatedAt};
ghost use Rattle.aeth_plan.specs.Seated.{ni_of};
ghost use Rattle.std.specs.Prelude.{◌≡◌, [], All, IfOk, None, length};

use crate::seats::ni_of;
use aeth_base::{CoreId, NiId, NoMemory};
use aeth_group::SeatLine;
use std::alloc::Global;
use std::marker::Model;

/// The seats of a plan, with a table of the network interfaces of cores. Seen as the seats, on which
/// alone the table rests.
#[derive(Drop)]
pub(crate) struct Seating {
    seats: Vec<SeatLine>,
    nis: Vec<Option<NiId>>,
}

impl Model for Seating {
    ghost use Rattle.std.specs.Prelude.{List, length};
    ghost use Rattle.aeth_group.specs.declared.grant.SeatLine.{SeatLine};
    ghost use Rattle.aeth_check.specs.Seats.{AreSeatedAt};

    ghost Value = { List SeatLine };

    ghost view = { λ seating. seating.seats.items };

    ghost invariant = { λ seating.
        AreSeatedAt seating.seats.items (length seating.nis.items) seating.nis.items };
}

impl Seating {
    /// The seats, with a table for so many cores. `Err` where there was no memory.
    pub fn of(alloc: Global, seats: &[SeatLine], cores: u32) -> Result<Seating, NoMemory>
        ensures { IfOk result (λ seating. seating ≡ seats.now) }
    {
        let nis = nis_of(alloc, seats, cores)?;
        let mut kept = Vec::new(alloc);
        kept.extend_from_slice(seats)?;
        Ok(Seating { seats: kept, nis })
    }

    /// The network interface of a core's seat; `None` where the core isn't seated.
    pub fn ni_of(&self, core: CoreId) -> Option<NiId>
        ensures { result ≡ ni_of self.now core }
    {
        match self.nis.get(core.0 as usize) {
            Some(ni) => *ni,
            None => ni_of(&self.seats, core),
        }
    }
}

// The network interfaces of the seats of so many cores, by their numbers.
fn nis_of(alloc: Global, seats: &[SeatLine], cores: u32) -> Result<Vec<Option<NiId>>, NoMemory>
    ensures { IfOk result (λ nis. AreSeatedAt seats.now cores nis.items) }
{
    let mut nis = no_nis(alloc, cores)?;
    put_nis(seats, &mut nis);
    Ok(nis)
}

// No interface for each of so many cores.
fn no_nis(alloc: Global, cores: u32) -> Result<Vec<Option<NiId>>, NoMemory>
    ensures size { IfOk result (λ nis. length nis.items ≡ cores) }
    ensures none { IfOk result (λ nis. All (λ ni. ni ≡ None) nis.items) }
{
    let nis = vec![in alloc; None; cores as usize]?;
    Ok(nis)
}

// Puts the interfaces of seats into a table, from the last seat to the first, so that the first of
// a core stays.
fn put_nis(seats: &[SeatLine], nis: &mut [Option<NiId>])
    requires { AreSeatedAt [] (length nis.old) nis.old }
    ensures { AreSeatedAt seats.now (length nis.old) nis.new }
{
    let mut left = seats.len();
    'seats: while left > 0 {
        left -= 1;
        let line = &seats[left];
        let core = line.core.0 as usize;
        if core < nis.len() {
            nis[core] = Some(line.ni);
        }
    }
}

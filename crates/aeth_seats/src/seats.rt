// Where cores sit.
ghost use Rattle.std.specs.Prelude.{◌≡◌, ◌<◌, ◌≤◌, IfOk, IfSome, IsSome, IsSomeAnd, IsTrue, None};
ghost use Rattle.std.specs.Prelude.{Some, length, slice_get};
ghost use Rattle.aeth_app.specs.App.{IsAppOf, is_end, position_of};
ghost use Rattle.aeth_app.specs.Limits.{max_cores};
ghost use Rattle.aeth_seats.specs.First.{first_seats};
ghost use Rattle.aeth_seats.specs.Places.{has_free, seat_of};
ghost use Rattle.aeth_seats.specs.Seats.{IsSeats, candidates_of, crowded_of, interfaces};
ghost use Rattle.aeth_seats.specs.Seats.{is_crowded, queue_of, with_core, without_core};

use crate::first::{fixed_of, table_of};
use crate::table::Table;
use aeth_app::{App, MAX_CORE_CONNECTIONS};
use aeth_base::{ConnId, CoreId, NiId, NoMemory};
use aeth_chip::Chip;
use std::alloc::Global;
use std::marker::Model;

/// Where the cores of an application sit on the network interfaces of a chip. Each interface has
/// the seats 0 to 3, and a core sits on one seat or on none.
///
/// A core is placed as the consequence of the path that is chosen for one of its channels, after
/// UMARS (2005). Seats are this project's own.
#[derive(Drop)]
pub struct Seats {
    fixed: Vec<Option<NiId>>,
    table: Table,
}

impl Model for Seats {
    ghost use Rattle.aeth_seats.specs.Seats.{IsSeats, SeatsData};

    ghost Value = { SeatsData };

    ghost view = { λ seats. record {
      nis = seats.table.nis;
      fixed = seats.fixed.items;
      places = seats.table.places;
    } };

    ghost invariant = { λ seats. IsSeats (record {
      nis = seats.table.nis;
      fixed = seats.fixed.items;
      places = seats.table.places;
    }) };
}

impl Seats {
    /// The seats before any path is chosen: each fixed core sits on the lowest seat of its
    /// interface that was free when the cores before it in the file were seated. `Err` where there
    /// was no memory.
    pub fn new(alloc: Global, chip: &Chip, app: &App) -> Result<Seats, NoMemory>
        requires { IsAppOf chip.now app.now }
        ensures { IfOk result (λ seats. seats ≡ first_seats chip.now app.now) }
    {
        let fixed = fixed_of(alloc, app)?;
        let table = table_of(alloc, chip, &fixed)?;
        Ok(Seats { fixed, table })
    }

    /// The number of cores.
    pub fn cores(&self) -> u32
        ensures cores { result ≡ length self.now.places }
        ensures most { result ≤ max_cores }
        ensures seats { IsSeats self.now }
    {
        self.table.cores()
    }

    /// The seat of a core, if it has one: the interface, and which of its seats.
    pub fn seat(&self, core: CoreId) -> Option<(NiId, u8)>
        requires { core.0 < length self.now.places }
        ensures { result ≡ seat_of self.now.places core.0 }
    {
        self.table.seat(core)
    }

    /// The candidates for a core, ascending: its own interface, or each with a free seat. `Err`
    /// where there was no memory.
    pub fn candidates(&self, alloc: Global, core: CoreId) -> Result<Vec<NiId>, NoMemory>
        requires { core.0 < length self.now.places }
        ensures { IfOk result (λ nis. nis.items ≡ candidates_of self.now core.0) }
    {
        match self.seat(core) {
            Some((ni, _)) => {
                let mut nis = Vec::new(alloc);
                nis.push(ni)?;
                Ok(nis)
            }
            None => self.with_free(alloc),
        }
    }

    /// The interfaces with one free seat and no more, where neither of two cores has a seat; none
    /// where one of them has one. `Err` where there was no memory.
    pub fn crowded(&self, alloc: Global, a: CoreId, b: CoreId) -> Result<Vec<NiId>, NoMemory>
        requires a { a.0 < length self.now.places }
        requires b { b.0 < length self.now.places }
        ensures { IfOk result (λ nis. nis.items ≡ crowded_of self.now a.0 b.0) }
    {
        if self.seat(a).is_none() && self.seat(b).is_none() {
            self.with_one_free(alloc)
        } else {
            Ok(Vec::new(alloc))
        }
    }

    /// A core that has no seat takes the lowest free one of an interface.
    pub fn place(&mut self, core: CoreId, ni: NiId)
        requires core { core.0 < length self.old.places }
        requires unseated { seat_of self.old.places core.0 ≡ None }
        requires ni { ni.0 < self.old.nis }
        requires free { IsTrue (has_free self.old.places ni.0) }
        ensures { self.new ≡ with_core self.old core.0 ni }
    {
        self.table.place(core, ni);
    }

    /// A core that has a seat, and isn't fixed, gives it back. All else stays.
    pub fn take_back(&mut self, core: CoreId)
        requires seated { IsSome (seat_of self.old.places core.0) }
        requires free { slice_get self.old.fixed core.0 ≡ Some None }
        ensures { self.new ≡ without_core self.old core.0 }
    {
        self.table.take_back(core);
    }

    /// The queue number of a connection at one of its ends, which has a seat: below 32. The
    /// connections at one interface have different ones.
    pub fn queue(&self, app: &App, core: CoreId, conn: ConnId) -> u8
        requires core { core.0 < length self.now.places }
        requires seat { IsSome (seat_of self.now.places core.0) }
        requires end { IsSomeAnd (slice_get app.now.connections conn.0) (λ c.
            IsTrue (is_end core c)) }
        ensures { IfSome (seat_of self.now.places core.0) (λ place.
            result ≡ queue_of place.1 (position_of app.now.connections core conn.0)) }
    {
        let (_, seat) = self.table.seat(core).unwrap();
        (MAX_CORE_CONNECTIONS * seat as u32 + app.position(core, conn)) as u8
    }

    // The interfaces with a free seat.
    fn with_free(&self, alloc: Global) -> Result<Vec<NiId>, NoMemory>
        ensures { IfOk result (λ nis.
            nis.items ≡ interfaces self.now.nis (has_free self.now.places)) }
    {
        let mut nis = Vec::new(alloc);
        for ni in 0..self.table.nis() {
            if self.table.has_free(NiId(ni)) {
                nis.push(NiId(ni))?;
            }
        }
        Ok(nis)
    }

    // The interfaces with one free seat and no more.
    fn with_one_free(&self, alloc: Global) -> Result<Vec<NiId>, NoMemory>
        ensures { IfOk result (λ nis.
            nis.items ≡ interfaces self.now.nis (is_crowded self.now.places)) }
    {
        let mut nis = Vec::new(alloc);
        for ni in 0..self.table.nis() {
            if self.table.free_count(NiId(ni)) == 1 {
                nis.push(NiId(ni))?;
            }
        }
        Ok(nis)
    }
}

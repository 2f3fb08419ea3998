// Who sits where, with a table of the taken seats, in which the seats of each interface stand
// together.
ghost use Rattle.std.specs.Prelude.{◌≡◌, ◌<◌, ◌≤◌, IfOk, IfSome, None, false, length, replicate};
ghost use Rattle.aeth_app.specs.Limits.{max_cores};
ghost use Rattle.aeth_chip.specs.Limits.{max_nis};
ghost use Rattle.aeth_seats.specs.Places.{free_count, has_free, lowest_free, placed, seat_of};
ghost use Rattle.aeth_seats.specs.Places.{taken_back, taken_seats};
ghost use Rattle.aeth_seats.specs.Table.{IsHeldAlone, entry_of};

use aeth_app::SEATS_PER_NI;
use aeth_base::{CoreId, NiId, NoMemory};
use std::alloc::Global;
use std::marker::Model;

/// The seat of each core, if it has one. Beside them stands for each seat whether it is taken, so
/// that nobody looks for the cores on an interface.
#[derive(Drop)]
pub(crate) struct Table {
    nis: u32,
    places: Vec<Option<(NiId, u8)>>,
    taken: Vec<bool>,
}

impl Model for Table {
    ghost use Rattle.aeth_seats.specs.Table.{AreFew, IsTakenTable, TableData};

    ghost Value = { TableData };

    ghost view = { λ table. record { nis = table.nis; places = table.places.items } };

    ghost invariant = { λ table. AreFew (record { nis = table.nis; places = table.places.items })
        × IsTakenTable table.nis table.places.items table.taken.items };
}

impl Table {
    /// No core has a seat.
    pub fn new(alloc: Global, nis: u32, cores: u32) -> Result<Table, NoMemory>
        requires nis { nis ≤ max_nis }
        requires cores { cores ≤ max_cores }
        ensures { IfOk result (λ table.
            table ≡ record { nis = nis; places = replicate cores None }) }
    {
        let places = no_places(alloc, cores)?;
        let taken = none_taken(alloc, SEATS_PER_NI * nis)?;
        Ok(Table { nis, places, taken })
    }

    /// The number of interfaces.
    pub fn nis(&self) -> u32
        ensures nis { result ≡ self.now.nis }
        ensures most { result ≤ max_nis }
    {
        self.nis
    }

    /// The number of cores.
    pub fn cores(&self) -> u32
        ensures cores { result ≡ length self.now.places }
        ensures most { result ≤ max_cores }
    {
        self.places.len() as u32
    }

    /// The seat of a core, if it has one.
    pub fn seat(&self, core: CoreId) -> Option<(NiId, u8)>
        requires { core.0 < length self.now.places }
        ensures { result ≡ seat_of self.now.places core.0 }
    {
        self.places[core.0 as usize]
    }

    /// For each seat of an interface whether it is taken.
    fn row(&self, ni: NiId) -> &[bool]
        requires { ni.0 < self.now.nis }
        ensures { result.now ≡ taken_seats self.now.places ni.0 }
    {
        let first = entry_of(ni, 0);
        &self.taken[first..first + SEATS_PER_NI as usize]
    }

    /// Whether an interface has a free seat.
    pub fn has_free(&self, ni: NiId) -> bool
        requires { ni.0 < self.now.nis }
        ensures { result ≡ has_free self.now.places ni.0 }
    {
        self.row(ni).iter().any(|taken| !*taken)
    }

    /// How many seats of an interface are free.
    pub fn free_count(&self, ni: NiId) -> usize
        requires { ni.0 < self.now.nis }
        ensures { result ≡ free_count self.now.places ni.0 }
    {
        self.row(ni).iter().filter(|taken| !**taken).count()
    }

    /// The lowest free seat of an interface, if it has one.
    fn lowest_free(&self, ni: NiId) -> Option<usize>
        requires { ni.0 < self.now.nis }
        ensures { result ≡ lowest_free self.now.places ni.0 }
    {
        self.row(ni).iter().position(|taken| !*taken)
    }

    /// A core that has no seat takes the lowest free one of an interface, if it has one.
    pub fn place(&mut self, core: CoreId, ni: NiId)
        requires core { core.0 < length self.old.places }
        requires unseated { seat_of self.old.places core.0 ≡ None }
        requires ni { ni.0 < self.old.nis }
        ensures { self.new ≡ record {
          nis = self.old.nis;
          places = placed self.old.places core.0 ni;
        } }
    {
        if let Some(seat) = self.lowest_free(ni) {
            self.places[core.0 as usize] = Some((ni, seat as u8));
            self.taken[entry_of(ni, seat as u32)] = true;
        }
    }

    /// A core gives its seat back, on which no other core sits.
    pub fn take_back(&mut self, core: CoreId)
        requires core { core.0 < length self.old.places }
        requires seat { IfSome (seat_of self.old.places core.0) (λ place.
            IsHeldAlone self.old core.0 place) }
        ensures { self.new ≡ record {
          nis = self.old.nis;
          places = taken_back self.old.places core.0;
        } }
    {
        if let Some((ni, seat)) = self.seat(core) {
            self.places[core.0 as usize] = None;
            self.taken[entry_of(ni, seat as u32)] = false;
        }
    }
}

// The entry of a seat in the table.
fn entry_of(ni: NiId, seat: u32) -> usize
    ensures { result ≡ entry_of ni.0 seat }
{
    SEATS_PER_NI as usize * ni.0 as usize + seat as usize
}

// No core has a seat.
fn no_places(alloc: Global, cores: u32) -> Result<Vec<Option<(NiId, u8)>>, NoMemory>
    ensures { IfOk result (λ places. places.items ≡ replicate cores None) }
{
    let places = vec![in alloc; None; cores as usize]?;
    Ok(places)
}

// No seat is taken.
fn none_taken(alloc: Global, seats: u32) -> Result<Vec<bool>, NoMemory>
    ensures { IfOk result (λ taken. taken.items ≡ replicate seats false) }
{
    let taken = vec![in alloc; false; seats as usize]?;
    Ok(taken)
}

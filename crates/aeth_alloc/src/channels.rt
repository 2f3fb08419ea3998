// One channel's try.
ghost use Rattle.std.specs.Prelude.{◌≡◌, ◌≢◌, ◌<◌, ◌≤◌, false, if◌then◌else◌, IfOk, IfSome};
ghost use Rattle.std.specs.Prelude.{IsTrue, None, Some, length, slice_get};
ghost use Rattle.aeth_app.specs.App.{IsAppOf};
ghost use Rattle.aeth_book.specs.Book.{empty_book};
ghost use Rattle.aeth_seats.specs.First.{first_seats};
ghost use Rattle.aeth_seats.specs.Places.{has_free, seat_of};
ghost use Rattle.aeth_alloc.specs.Channels.{first_for, request_of, tried, with_seat};
ghost use Rattle.aeth_alloc.specs.Holds.{IsCandidateFor, IsReservedOf};
ghost use Rattle.aeth_alloc.specs.Holds.{IsWithoutLast, MayGiveBack, given_back};

use aeth_app::{App, Connection};
use aeth_base::{Channel, CoreId, NiId, NoMemory, Side, Unit};
use aeth_book::Book;
use aeth_chip::{Chip, Distances};
use aeth_group::{Grant, Groups};
use aeth_paths::{Cost, Found, Request, find};
use aeth_seats::Seats;
use std::alloc::Global;
use std::marker::Model;

/// What all turns read: the chip with its least distances, the application, and what links cost.
#[derive(Drop)]
pub(crate) struct Design<'a, F> {
    pub chip: &'a Chip,
    pub far: &'a Distances,
    pub app: &'a App,
    pub cost: &'a Cost<F>,
}

impl<'a, F> Model for Design<'a, F> {
    ghost use Rattle.aeth_alloc.specs.Channels.{Design};
    ghost use Rattle.aeth_alloc.specs.Holds.{IsDesign};

    ghost Value = { Design };

    ghost view = { λ design. record {
      chip = design.chip.now;
      app = design.app.now;
      prices = design.cost.now;
    } };

    ghost invariant = { λ design. IsDesign (record {
      chip = design.chip.now;
      app = design.app.now;
      prices = design.cost.now;
    }) design.far.now };
}

/// What was reserved: the grants, and the seats of the cores.
#[derive(Drop)]
pub(crate) struct Reserved {
    pub book: Book,
    pub seats: Seats,
}

impl Model for Reserved {
    ghost use Rattle.aeth_alloc.specs.Channels.{Reserved};

    ghost Value = { Reserved };

    ghost view = { λ reserved. record { book = reserved.book; seats = reserved.seats } };
}

// What a channel asks of a path.
pub(crate) fn request_of(app: &App, connection: &Connection, unit: Unit, side: Side) -> Request
    requires { slice_get app.now.connections unit.conn.0 ≡ Some connection.now }
    ensures { result ≡ request_of app.now connection.now unit side }
{
    let channel = Channel {
        conn: unit.conn,
        side,
    };
    Request {
        unit,
        side,
        need: app.need(channel),
        latency: app.wish(channel).latency,
        detour: app.detour(),
    }
}

impl Reserved {
    /// What is reserved before the first turn: no grant, and the fixed cores on their seats.
    pub fn new(alloc: Global, chip: &Chip, app: &App, groups: &Groups) -> Result<Reserved, NoMemory>
        requires { IsAppOf chip.now app.now }
        ensures { IfOk result (λ reserved. reserved ≡ record {
          book = empty_book chip.now groups.now;
          seats = first_seats chip.now app.now;
        }) }
    {
        let book = Book::new(alloc, chip, app, groups)?;
        let seats = Seats::new(alloc, chip, app)?;
        Ok(Reserved { book, seats })
    }

    /// A channel's try: its first candidate is granted. `false`, and all is as before, exactly where
    /// it has none.
    pub fn try_channel<F: Fn(u32, u32) -> u32>(
        &mut self,
        alloc: Global,
        design: &Design<F>,
        unit: Unit,
        side: Side,
    ) -> Result<bool, NoMemory>
        requires unit { unit.conn.0 < length design.now.app.connections }
        requires reserved { IsReservedOf design.now self.old }
        ensures tried { IfOk result (λ granted.
            tried design.now self.old unit side ≡ (if granted then Some self.new else None)) }
        ensures kept { IfOk result (λ granted. granted ≡ false → self.new ≡ self.old) }
    {
        let connection = design.app.connection(unit.conn);
        let from = connection.sender(side);
        let to = connection.receiver(side);
        let Some(found) = self.first_for(alloc, design, &connection, unit, side)? else {
            return Ok(false);
        };
        self.book.add(Grant {
            unit,
            side,
            path: found.path,
            slots: found.slots,
        })?;
        self.seat(from, found.from);
        self.seat(to, found.to);
        Ok(true)
    }

    // The first candidate for a channel.
    pub fn first_for<F: Fn(u32, u32) -> u32>(
        &self,
        alloc: Global,
        design: &Design<F>,
        connection: &Connection,
        unit: Unit,
        side: Side,
    ) -> Result<Option<Found>, NoMemory>
        requires connection { slice_get design.now.app.connections unit.conn.0
            ≡ Some connection.now }
        requires reserved { IsReservedOf design.now self.now }
        ensures first { IfOk result (λ found.
            found ≡ first_for design.now self.now connection.now unit side) }
        ensures is { IfOk result (λ found. IfSome found
            (IsCandidateFor design.now self.now connection.now unit side)) }
    {
        let _grants = self.book.list();
        let ask = request_of(design.app, connection, unit, side);
        let from = connection.sender(side);
        let to = connection.receiver(side);
        let senders = self.seats.candidates(alloc, from)?;
        let receivers = self.seats.candidates(alloc, to)?;
        let crowded = self.seats.crowded(alloc, from, to)?;
        find(
            design.chip,
            design.far,
            &self.book,
            &ask,
            &senders,
            &receivers,
            &crowded,
            design.cost,
        )
    }

    // A core sits on an interface: one that has a seat keeps it, another takes the lowest free one.
    fn seat(&mut self, core: CoreId, ni: NiId)
        requires core { core.0 < length self.old.seats.places }
        requires free { seat_of self.old.seats.places core.0 ≡ None
            → (ni.0 < self.old.seats.nis) × IsTrue (has_free self.old.seats.places ni.0) }
        ensures { self.new ≡ record {
          book = self.old.book;
          seats = with_seat self.old.seats core.0 ni;
        } }
    {
        if self.seats.seat(core).is_none() {
            self.seats.place(core, ni);
        }
    }

    /// The last grant is taken back, and with it the seats of these cores, if any.
    pub fn give_back(&mut self, from: Option<CoreId>, to: Option<CoreId>)
        requires some { 1 ≤ length self.old.book.grants }
        requires from { IfSome from (MayGiveBack self.old.seats) }
        requires to { IfSome to (MayGiveBack self.old.seats) }
        requires apart { IfSome from (λ a. IfSome to (λ b. a.0 ≢ b.0)) }
        ensures book { IsWithoutLast self.old.book self.new.book }
        ensures seats { self.new.seats ≡ given_back (given_back self.old.seats to) from }
    {
        let _last = self.book.remove_last();
        if let Some(core) = to {
            self.seats.take_back(core);
        }
        if let Some(core) = from {
            self.seats.take_back(core);
        }
    }
}

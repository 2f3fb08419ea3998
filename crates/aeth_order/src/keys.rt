// What the place of a unit in the order rests on.
ghost use Rattle.std.specs.Prelude.{◌≡◌, ◌<◌, length};
ghost use Rattle.aeth_order.specs.Order.{is_seated, seat_key, unit_order};
ghost use Rattle.aeth_order.specs.Units.{is_unit, keys_of};

use aeth_app::App;
use aeth_base::{Channel, CoreId, Side, Unit};
use aeth_seats::Seats;
use std::cmp::Ordering;

/// A unit, with what its place in the order rests on.
#[derive(Clone, Copy)]
pub struct UnitKeys {
    pub unit: Unit,
    /// The core that sends forward.
    pub from: CoreId,
    /// The core that sends back.
    pub to: CoreId,
    /// The sum of the needs of its two sides, in slots.
    pub need: u32,
    /// The lesser latency of its two sides, in cycles.
    pub latency: u32,
}

impl UnitKeys {
    /// The keys of a unit of an application.
    pub(crate) fn of(app: &App, unit: Unit) -> UnitKeys
        requires { unit.conn.0 < length app.now.connections }
        ensures { result ≡ keys_of app.now unit }
    {
        let _slots = app.slots();
        let connection = app.connection(unit.conn);
        let fwd = Channel {
            conn: unit.conn,
            side: Side::Fwd,
        };
        let back = Channel {
            conn: unit.conn,
            side: Side::Back,
        };
        UnitKeys {
            unit,
            from: connection.from,
            to: connection.to,
            need: app.need(fwd) + app.need(back),
            latency: connection.fwd.latency.min(connection.back.latency),
        }
    }

    /// Whether it is this unit.
    pub(crate) fn is_unit(&self, unit: Unit) -> bool
        ensures { result ≡ is_unit unit self.now }
    {
        self.unit.conn.0 == unit.conn.0 && self.unit.group.0 == unit.group.0
    }

    /// The comparison with another unit by all that doesn't change.
    pub(crate) fn order(&self, other: &UnitKeys) -> Ordering
        ensures { result ≡ unit_order self.now other.now }
    {
        other.need.cmp(&self.need).then_with(|| {
            self.latency.cmp(&other.latency).then_with(|| {
                self.unit
                    .conn
                    .0
                    .cmp(&other.unit.conn.0)
                    .then_with(|| self.unit.group.0.cmp(&other.unit.group.0))
            })
        })
    }

    /// 0 where one of its cores has a seat, 1 where none has.
    pub(crate) fn seat_key(&self, seats: &Seats) -> u32
        ensures { result ≡ seat_key seats.now.places self.now }
    {
        if is_seated(seats, self.from) || is_seated(seats, self.to) {
            0
        } else {
            1
        }
    }
}

// Whether a core has a seat; one that there isn't has none.
fn is_seated(seats: &Seats, core: CoreId) -> bool
    ensures { result ≡ is_seated seats.now.places core.0 }
{
    core.0 < seats.cores() && seats.seat(core).is_some()
}

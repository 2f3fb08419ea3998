//! What holds of seats, over the definitions alone.
ghost use Rattle.std.specs.Prelude.{◌≡◌, ◌≢◌, ◌<◌, ◌≤◌, ◌+◌, ◌*◌, ◌↔◌, ℕ, IsSomeAnd, IsTrue, List};
ghost use Rattle.std.specs.Prelude.{None, Option, Some, length, slice_get};
ghost use Rattle.aeth_base.specs.declared.ids.NiId.{NiId};
ghost use Rattle.aeth_app.specs.App.{AppData, IsApp, IsAppOf};
ghost use Rattle.aeth_app.specs.Limits.{max_core_connections, seats_per_ni};
ghost use Rattle.aeth_chip.specs.Chip.{ChipData, IsChip};
ghost use Rattle.aeth_seats.specs.First.{first_seat, first_seats, fixed_of};
ghost use Rattle.aeth_seats.specs.Places.{Place, free_count, has_free, placed, seat_of};
ghost use Rattle.aeth_seats.specs.Seats.{IsSeats, SeatsData, queue_of, with_core, without_core};

/// The first seats are seats. Each fixed core sits on its interface, with as many seats below its own
/// as cores before it are fixed there; no other core has a seat.
pub fn first()
    ensures seats { (chip : ChipData) (app : AppData) → IsChip chip → IsApp app
        → IsAppOf chip app → IsSeats (first_seats chip app) }
    ensures each { (chip : ChipData) (app : AppData) → IsAppOf chip app → (core : ℕ)
        → seat_of (first_seats chip app).places core ≡ first_seat (fixed_of app) core }
{}

/// Seats stay seats where a core that has none takes one, and where a core that isn't fixed gives
/// its seat back. A core that took a seat and gave it back leaves all as it was.
pub fn kept()
    ensures placed { (seats : SeatsData) (core : ℕ) (ni : NiId) → IsSeats seats
        → core < length seats.places → seat_of seats.places core ≡ None → ni.0 < seats.nis
        → IsSeats (with_core seats core ni) }
    ensures taken_back { (seats : SeatsData) (core : ℕ) → IsSeats seats
        → slice_get seats.fixed core ≡ Some None → IsSeats (without_core seats core) }
    ensures undone { (seats : SeatsData) (core : ℕ) (ni : NiId)
        → core < length seats.places → seat_of seats.places core ≡ None
        → without_core (with_core seats core ni) core ≡ seats }
{}

/// A core that takes a seat of an interface with a free one sits there.
pub fn seated()
    ensures { (seats : SeatsData) (core : ℕ) (ni : NiId) → core < length seats.places
        → IsTrue (has_free seats.places ni.0)
        → IsSomeAnd (seat_of (placed seats.places core ni) core) (λ place. place.0 ≡ ni) }
{}

/// A core that takes a seat takes one of the free ones of that interface, and none of any other. An
/// interface has a free seat exactly where the number of them isn't 0.
pub fn free()
    ensures one { (places : List (Option Place)) (core : ℕ) (ni : NiId) → core < length places
        → seat_of places core ≡ None → IsTrue (has_free places ni.0)
        → free_count (placed places core ni) ni.0 + 1 ≡ free_count places ni.0 }
    ensures others { (places : List (Option Place)) (core : ℕ) (ni : NiId) (other : ℕ)
        → core < length places → seat_of places core ≡ None → other ≢ ni.0
        → free_count (placed places core ni) other ≡ free_count places other }
    ensures some { (places : List (Option Place)) (ni : ℕ)
        → IsTrue (has_free places ni) ↔ (1 ≤ free_count places ni) }
{}

/// Queue numbers tell the connections at one interface apart, and are below 32.
pub fn queues()
    ensures apart { (seat seat' position position' : ℕ) → position < max_core_connections
        → position' < max_core_connections → queue_of seat position ≡ queue_of seat' position'
        → (seat ≡ seat') × (position ≡ position') }
    ensures within { (seat position : ℕ) → seat < seats_per_ni → position < max_core_connections
        → queue_of seat position < seats_per_ni * max_core_connections }
{}

//! What holds of every application, over the definitions alone.
ghost use Rattle.std.specs.Prelude.{◌≡◌, ◌<◌, ◌≤◌, ◌*◌, ◌↔◌, ℕ, IsSomeAnd, IsTrue, List, Ok, Some};
ghost use Rattle.std.specs.Prelude.{length, map, position, slice_get};
ghost use Rattle.std.specs.Str.{bytes_eq};
ghost use Rattle.aeth_base.specs.Limits.{words_per_flit};
ghost use Rattle.aeth_base.specs.declared.ids.CoreId.{CoreId};
ghost use Rattle.aeth_base.specs.declared.ids.NiId.{NiId};
ghost use Rattle.aeth_base.specs.declared.ids.Side.{Side};
ghost use Rattle.aeth_chip.specs.Chip.{ChipData, IsChip};
ghost use Rattle.aeth_app.specs.App.{AppData, IsApp, IsAppOf, IsWish, UseData, is_end, position_of};
ghost use Rattle.aeth_app.specs.AppFile.{app_of};
ghost use Rattle.aeth_app.specs.Rates.{need_of, own_need};
ghost use Rattle.aeth_app.specs.declared.connection.Connection.{Connection};
ghost use Rattle.aeth_app.specs.declared.connection.Core.{Core};
ghost use Rattle.aeth_app.specs.declared.connection.Wish.{Wish};

/// A core that is looked up by its name is found, and so are connections and use cases.
pub fn own_names()
    ensures cores { (app : AppData) → IsApp app → (i : ℕ) (core : Core)
        → slice_get app.cores i ≡ Some core
        → position (bytes_eq core.name) (map (λ core. core.name) app.cores) ≡ Some i }
    ensures connections { (app : AppData) → IsApp app → (i : ℕ) (connection : Connection)
        → slice_get app.connections i ≡ Some connection
        → position (bytes_eq connection.name) (map (λ connection. connection.name) app.connections)
        ≡ Some i }
    ensures uses { (app : AppData) → IsApp app → (i : ℕ) (one : UseData)
        → slice_get app.uses i ≡ Some one
        → position (bytes_eq one.name) (map (λ one. one.name) app.uses) ≡ Some i }
{}

/// The connections of a core have ascending positions, so these tell them apart.
pub fn positions()
    ensures ascend { (connections : List Connection) → (core : CoreId) → (i j : ℕ)
        → IsSomeAnd (slice_get connections i) (λ c. IsTrue (is_end core c)) → i < j
        → position_of connections core i < position_of connections core j }
    ensures apart { (connections : List Connection) → (core : CoreId) → (i j : ℕ)
        → IsSomeAnd (slice_get connections i) (λ c. IsTrue (is_end core c))
        → IsSomeAnd (slice_get connections j) (λ c. IsTrue (is_end core c))
        → position_of connections core i ≡ position_of connections core j → i ≡ j }
{}

/// Where a wish has at most two words a cycle, its own words need no more slots than a table has, and
/// only there; credits need no more slots than the words that they are for. So a channel needs 1 slot
/// up to the table's size.
pub fn needs()
    ensures rate { (slots : ℕ) → (wish : Wish) → 1 ≤ slots → 1 ≤ wish.per
        → (own_need slots wish ≤ slots) ↔ (wish.words ≤ words_per_flit * wish.per) }
    ensures some { (slots : ℕ) → (connection : Connection) → (side : Side)
        → 1 ≤ need_of slots connection side }
    ensures most { (slots : ℕ) → (connection : Connection) → (side : Side) → 1 ≤ slots
        → IsWish connection.fwd → IsWish connection.back → need_of slots connection side ≤ slots }
{}

/// A core is fixed to no network interface, or to one of the chip.
pub fn fixed_cores()
    ensures { (chip : ChipData) → (app : AppData) → IsAppOf chip app → (i : ℕ) → (core : Core)
        → (ni : NiId) → slice_get app.cores i ≡ Some core → core.fixed ≡ Some ni
        → ni.0 < length chip.nis }
{}

/// What the bytes of a file tell with a chip is an application, and one for that chip.
pub fn files()
    ensures { (chip : ChipData) → (bytes : List ℕ) → (app : AppData) → IsChip chip
        → app_of chip bytes ≡ Ok app → IsApp app × IsAppOf chip app }
{}

// What holds of interfaces and of the writes to their tables, over the definitions alone.

ghost use Rattle.std.specs.Prelude.{◌≡◌, ◌≢◌, ◌≤◌, ℕ, List, All, Contains, length, take};
ghost use Rattle.std.specs.List.{flat_map};
ghost use Rattle.aeth_ni.specs.declared.row.ChannelRow.{ChannelRow};
ghost use Rattle.aeth_ni.specs.declared.write.Write.{Write};
ghost use Rattle.aeth_ni.specs.Entries.{Holds, HoldJust, IsFor};
ghost use Rattle.aeth_ni.specs.Interface.{InterfaceState};
ghost use Rattle.aeth_ni.specs.Program.{Entry, closing_writes, entries_after, entries_behind};
ghost use Rattle.aeth_ni.specs.Program.{entries_of_channel, program_of};
ghost use Rattle.aeth_ni.specs.Switch.{AreSlotsApart, IsSwitch, entries_in};
ghost use Rattle.aeth_ni.specs.Writes.{addressee, IsWritable, written, written_by};

/// A write does to its interface what it does to the list of entries, and nothing to another.
pub fn writes_change_entries()
    ensures own { (write : Write) (interface : InterfaceState) (entries : List Entry)
        → addressee write ≡ interface.number → IsWritable write interface
        → Holds interface entries
        → Holds (written write interface) (entries_behind entries write) }
    ensures other { (write : Write) (interface : InterfaceState) (entries : List Entry)
        → (addressee write).0 ≢ interface.number.0 → Holds interface entries
        → Holds interface (entries_behind entries write) }
{}

/// After each write of a program the interfaces hold just the entries that are told of it, where
/// they held just those of these channels before it.
pub fn interfaces_hold_their_entries()
    ensures { (interfaces : List InterfaceState) (held : List ChannelRow) (program : List Write)
        (count : ℕ) → All (IsFor interfaces) program
        → HoldJust interfaces (flat_map entries_of_channel held)
        → HoldJust (written_by (take count program) interfaces) (entries_after held program count) }
{}

/// A program leads from the entries of one use case to those of another. While channels close, each
/// entry that is held is one of the use case that is left; from then on each is one of the use case
/// that is entered; and behind the last write all of these are held.
pub fn programs_lead_to_the_use_case_entered()
    ensures closing { (left entered kept closing opening : List ChannelRow)
        → IsSwitch left entered kept closing opening → (count : ℕ) (entry : Entry)
        → count ≤ length (flat_map closing_writes closing)
        → Contains (entries_after left (program_of closing opening) count) entry
        → Contains (entries_in left) entry }
    ensures opening { (left entered kept closing opening : List ChannelRow)
        → IsSwitch left entered kept closing opening → (count : ℕ) (entry : Entry)
        → length (flat_map closing_writes closing) ≤ count
        → Contains (entries_after left (program_of closing opening) count) entry
        → Contains (entries_in entered) entry }
    ensures behind { (left entered kept closing opening : List ChannelRow)
        → IsSwitch left entered kept closing opening → AreSlotsApart entered kept closing
        → (entry : Entry) → Contains (entries_in entered) entry
        → Contains (entries_after left (program_of closing opening)
        (length (program_of closing opening))) entry }
{}

//! What holds of each switch between two use cases, over the definitions alone.
ghost use Rattle.std.specs.Prelude.{◌≡◌, ◌≤◌, ◌<◌, ◌+◌, ◌⊎◌, ℕ, List, Contains, IsTrue, length};
ghost use Rattle.std.specs.Prelude.{Some, slice_get};
ghost use Rattle.aeth_base.specs.declared.ids.Channel.{Channel};
ghost use Rattle.aeth_group.specs.Members.{GroupsData, group_at, is_kept};
ghost use Rattle.aeth_ni.specs.Program.{entries_after};
ghost use Rattle.aeth_ni.specs.Switch.{IsSwitch};
ghost use Rattle.aeth_ni.specs.declared.write.Write.{Write};
ghost use Rattle.aeth_ni.specs.declared.write.Write.TheVariants.{ClearRoute, ClearSlot, SetSlot};
ghost use Rattle.aeth_trace.specs.Spans.{SpanData};
ghost use Rattle.aeth_trace.specs.declared.switches.SwitchRow.{SwitchRow};
ghost use Rattle.aeth_report.specs.Sessions.{AreTogether, Stay, Switch, sessions_of};
ghost use Rattle.aeth_report.specs.Sessions.{stays_of};
ghost use Rattle.aeth_reconf.specs.Rows.{AreApart, AreWithin, RowOf, Touches, rows_closing};
ghost use Rattle.aeth_reconf.specs.Rows.{rows_entered, rows_kept, rows_left, rows_opening};
ghost use Rattle.aeth_reconf.specs.Rows.{switch_program};
ghost use Rattle.aeth_reconf.specs.Timeline.{sessions_at, timeline_of};
ghost use Rattle.aeth_reconf.specs.Windows.{AreAllApart, AreBothWritten, AreQueuesApart, AreWritable};
ghost use Rattle.aeth_reconf.specs.Windows.{IsClosed, IsClosingWrite, IsHandedOn, IsInOrder, IsOpened};
ghost use Rattle.aeth_reconf.specs.Windows.{IsOpeningWrite, IsOwned, IsSlotInOrder, IsSlotWritten};
ghost use Rattle.aeth_reconf.specs.Windows.{IsStayAt, cleared_of, clears_from, freed_of, set_of};
ghost use Rattle.aeth_reconf.specs.Windows.{set_route, since_of, slot_set_of};

/// A timeline has the sessions of each connection.
pub fn timelines_have_sessions()
    ensures { (groups : GroupsData) (spans : SpanData) (rows : List SwitchRow) (c : ℕ)
        → c < groups.connections
        → sessions_at (timeline_of groups spans rows) c ≡ sessions_of groups spans c rows }
{}

/// The rows of the use case that is left are those that are kept and those that close, and the rows of
/// the one that is entered are those that are kept and those that open. So after each number of writes
/// the entries of all interfaces lie within those of one of the two.
pub fn entries_stay_within()
    ensures switch { (groups : GroupsData) (row_of : RowOf) (u v : ℕ)
        → IsSwitch (rows_left groups row_of u v) (rows_entered groups row_of u v)
        (rows_kept groups row_of u v) (rows_closing groups row_of u v)
        (rows_opening groups row_of u v) }
    ensures within { (groups : GroupsData) (row_of : RowOf) (u v count : ℕ)
        → AreWithin
        (entries_after (rows_left groups row_of u v) (switch_program groups row_of u v) count)
        (rows_left groups row_of u v)
        ⊎ AreWithin
        (entries_after (rows_left groups row_of u v) (switch_program groups row_of u v) count)
        (rows_entered groups row_of u v) }
{}

/// No write of a switch names a slot or the queue of a channel that is kept, where no two channels of
/// one use case share any.
pub fn kept_channels_are_untouched()
    ensures { (groups : GroupsData) (row_of : RowOf) (u v : ℕ) → AreApart groups row_of u
        → AreApart groups row_of v → (channel : Channel)
        → IsTrue (is_kept groups u v channel.conn.0) → (write : Write)
        → Contains (switch_program groups row_of u v) write
        → Touches write (row_of (group_at groups u) channel) → ⊥ }
{}

/// What is written for a channel stands in order: its route is set before its slots, and these before
/// its session goes; its slots are cleared once the session has finished, and before its route. A
/// session stops accepting words no earlier than it goes, and its queue is its own before its route is set.
pub fn windows_are_in_order()
    ensures route { (groups : GroupsData) (row_of : RowOf) (spans : SpanData)
        (rows : List SwitchRow) → AreWritable groups row_of spans rows → (channel : Channel)
        (place : ℕ) (stay : Stay) → IsStayAt groups rows channel place stay
        → IsInOrder groups row_of spans channel stay }
    ensures slots { (groups : GroupsData) (row_of : RowOf) (spans : SpanData)
        (rows : List SwitchRow) → AreWritable groups row_of spans rows → (channel : Channel)
        (place : ℕ) (stay : Stay) → IsStayAt groups rows channel place stay → (k : ℕ)
        → k < length (row_of stay.group channel).slots.slots
        → IsSlotInOrder groups row_of spans channel stay k }
    ensures queue { (groups : GroupsData) (row_of : RowOf) (spans : SpanData)
        (rows : List SwitchRow) → AreWritable groups row_of spans rows → (channel : Channel)
        (place : ℕ) (stay : Stay) → IsStayAt groups rows channel place stay
        → since_of spans (stays_of groups channel.conn.0 rows) place
        ≤ set_of groups row_of spans channel stay.opening }
{}

/// Two routes that stand written at one time are of connections that are together in one group: a
/// switch clears all that it closes before it sets anything.
pub fn written_routes_are_together()
    ensures group { (groups : GroupsData) (row_of : RowOf) (spans : SpanData)
        (rows : List SwitchRow) → AreWritable groups row_of spans rows → (one other : Channel)
        (i j : ℕ) (s e : Stay) (t : ℕ)
        → AreBothWritten groups row_of spans rows one other i j s e t → s.group ≡ e.group }
    ensures together { (groups : GroupsData) (row_of : RowOf) (spans : SpanData)
        (rows : List SwitchRow) → AreWritable groups row_of spans rows → (one other : Channel)
        (i j : ℕ) (s e : Stay) (t : ℕ)
        → AreBothWritten groups row_of spans rows one other i j s e t
        → AreTogether groups s.group one.conn.0 other.conn.0 }
{}

/// No queue and no slot of an interface stands written for two: where no two channels of one use case
/// share any, two routes of one queue that stand written at one time are those of one stay, and so are
/// two slots.
pub fn writes_stand_alone()
    ensures route { (groups : GroupsData) (row_of : RowOf) (spans : SpanData)
        (rows : List SwitchRow) → AreWritable groups row_of spans rows
        → AreAllApart groups row_of → (one other : Channel) (i j : ℕ) (s e : Stay) (t : ℕ)
        → AreBothWritten groups row_of spans rows one other i j s e t
        → (row_of s.group one).ni ≡ (row_of e.group other).ni
        → (row_of s.group one).queue ≡ (row_of e.group other).queue → (one ≡ other) × (i ≡ j) }
    ensures slot { (groups : GroupsData) (row_of : RowOf) (spans : SpanData)
        (rows : List SwitchRow) → AreWritable groups row_of spans rows
        → AreAllApart groups row_of → (one other : Channel) (i j : ℕ) (s e : Stay)
        → IsStayAt groups rows one i s → IsStayAt groups rows other j e → (k m slot t : ℕ)
        → IsSlotWritten groups row_of spans one s k slot t
        → IsSlotWritten groups row_of spans other e m slot t
        → (row_of s.group one).ni ≡ (row_of e.group other).ni → (one ≡ other) × (i ≡ j) }
{}

/// A queue is one stay's own at a time, where it is one channel's in all use cases: the first stay has it
/// from the start on, and each later one from the finish of the stay before it.
pub fn queues_have_one_owner()
    ensures one { (groups : GroupsData) (row_of : RowOf) (spans : SpanData)
        (rows : List SwitchRow) → AreWritable groups row_of spans rows
        → AreQueuesApart groups row_of
        → (one other : Channel) (i j : ℕ) (s e : Stay) → IsStayAt groups rows one i s
        → IsStayAt groups rows other j e → (t : ℕ)
        → IsOwned spans (stays_of groups one.conn.0 rows) i s t
        → IsOwned spans (stays_of groups other.conn.0 rows) j e t
        → (row_of s.group one).ni ≡ (row_of e.group other).ni
        → (row_of s.group one).queue ≡ (row_of e.group other).queue → (one ≡ other) × (i ≡ j) }
    ensures follows { (groups : GroupsData) (row_of : RowOf) (spans : SpanData)
        (rows : List SwitchRow) → AreWritable groups row_of spans rows → (channel : Channel)
        (place : ℕ) (stay : Stay) → IsStayAt groups rows channel place stay
        → (since_of spans (stays_of groups channel.conn.0 rows) place ≡ 0)
        ⊎ IsHandedOn spans (stays_of groups channel.conn.0 rows) place }
{}

/// Each write of a switch is made a cycle after the one before it, and in the cycle of its window: the
/// slots of a channel are cleared one after the other, and then its route; a route is set, and then the
/// slots. There are no other writes.
pub fn writes_come_in_time()
    ensures clears { (groups : GroupsData) (row_of : RowOf) (spans : SpanData) (switch : Switch)
        (channel : Channel) → IsClosed groups switch channel → (place slot k : ℕ)
        → slice_get (row_of (group_at groups switch.leaves) channel).slots.slots place ≡ Some slot
        → clears_from spans switch + k ≡ cleared_of groups row_of spans channel switch place
        → slice_get (switch_program groups row_of switch.leaves switch.row.to.0) k
        ≡ Some (ClearSlot (row_of (group_at groups switch.leaves) channel).ni slot) }
    ensures frees { (groups : GroupsData) (row_of : RowOf) (spans : SpanData) (switch : Switch)
        (channel : Channel) → IsClosed groups switch channel → (k : ℕ)
        → clears_from spans switch + k
        ≡ freed_of groups row_of spans (group_at groups switch.leaves) channel switch
        → slice_get (switch_program groups row_of switch.leaves switch.row.to.0) k
        ≡ Some (ClearRoute (row_of (group_at groups switch.leaves) channel).ni
        (row_of (group_at groups switch.leaves) channel).queue) }
    ensures routes { (groups : GroupsData) (row_of : RowOf) (spans : SpanData) (switch : Switch)
        (channel : Channel) → IsOpened groups switch channel → (k : ℕ)
        → clears_from spans switch + k ≡ set_of groups row_of spans channel (Some switch)
        → slice_get (switch_program groups row_of switch.leaves switch.row.to.0) k
        ≡ Some (set_route (row_of (group_at groups switch.row.to.0) channel)) }
    ensures slots { (groups : GroupsData) (row_of : RowOf) (spans : SpanData) (switch : Switch)
        (channel : Channel) → IsOpened groups switch channel → (place slot k : ℕ)
        → slice_get (row_of (group_at groups switch.row.to.0) channel).slots.slots place ≡ Some slot
        → clears_from spans switch + k
        ≡ slot_set_of groups row_of spans channel (Some switch) place
        → slice_get (switch_program groups row_of switch.leaves switch.row.to.0) k
        ≡ Some (SetSlot (row_of (group_at groups switch.row.to.0) channel).ni slot
        (row_of (group_at groups switch.row.to.0) channel).queue) }
    ensures all { (groups : GroupsData) (row_of : RowOf) (spans : SpanData) (switch : Switch)
        (k : ℕ) → k < length (switch_program groups row_of switch.leaves switch.row.to.0)
        → IsClosingWrite groups row_of spans switch k
        ⊎ IsOpeningWrite groups row_of spans switch k }
{}

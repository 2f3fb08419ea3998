//! What the verdict on a plan and the tests of its rules say, over the definitions alone.
ghost use Rattle.std.specs.Bool.{Decides};
ghost use Rattle.std.specs.Prelude.{◌≡◌, ◌↔◌, List, slice_get};
ghost use Rattle.aeth_base.specs.declared.ids.Side.{Side};
ghost use Rattle.aeth_base.specs.declared.ids.Unit.{Unit};
ghost use Rattle.aeth_chip.specs.Chip.{ChipData, IsChip};
ghost use Rattle.aeth_chip.specs.declared.node.Link.{Link};
ghost use Rattle.aeth_app.specs.App.{AppData};
ghost use Rattle.aeth_group.specs.Conflict.{Conflict};
ghost use Rattle.aeth_group.specs.Members.{GroupsData};
ghost use Rattle.aeth_group.specs.declared.grant.Grant.{Grant};
ghost use Rattle.aeth_group.specs.declared.grant.SeatLine.{SeatLine};
ghost use Rattle.aeth_plan.specs.Plan.{PlanData};
ghost use Rattle.aeth_plan.specs.Accepted.{HasGrant, HasSlots, IsAccepted, IsOnPath};
ghost use Rattle.aeth_plan.specs.Seated.{IsOneSeat};
ghost use Rattle.aeth_check.specs.Channels.{fits_path, fits_slots, has_side};
ghost use Rattle.aeth_check.specs.Meetings.{conflicts};
ghost use Rattle.aeth_check.specs.Seats.{is_one_seat};
ghost use Rattle.aeth_check.specs.Verdict.{verdict_of};
ghost use Rattle.aeth_check.specs.declared.verdict.Verdict.TheVariants.{Accepted};

/// The verdict accepts exactly the plans that are accepted.
pub fn verdicts()
    ensures { (chip : ChipData) → IsChip chip → (app : AppData) (groups : GroupsData)
        (plan : PlanData)
        → (verdict_of chip app groups plan ≡ Accepted) ↔ IsAccepted chip app groups plan }
{}

/// Each rule that is tested by walking lines, paths and slots decides its fact: that two lines seat
/// cores on one seat, that a unit has a grant for a side, that a grant's path leads from the
/// sender's seat to the receiver's, that its slots suffice, and that two grants conflict.
pub fn tests()
    ensures seats { (a b : SeatLine) → Decides (is_one_seat a b) (IsOneSeat a b) }
    ensures sides { (plan : PlanData) (unit : Unit) (side : Side)
        → Decides (has_side plan.grants unit side) (HasGrant plan unit side) }
    ensures paths { (chip : ChipData) → IsChip chip → (app : AppData) (seats : List SeatLine)
        (grant : Grant)
        → Decides (fits_path chip app seats grant (slice_get app.connections grant.unit.conn.0))
        (IsOnPath chip app seats grant) }
    ensures slots { (chip : ChipData) (app : AppData) (grant : Grant)
        → Decides (fits_slots chip app grant (slice_get app.connections grant.unit.conn.0))
        (HasSlots chip app grant) }
    ensures conflicts { (links : List Link) (groups : GroupsData) (a b : Grant)
        → Decides (conflicts links groups a b) (Conflict groups links a b) }
{}

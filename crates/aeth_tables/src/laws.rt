// What holds of the tables of use cases and of the switches between them by an accepted plan, over the
// definitions alone.
ghost use Rattle.aeth_app.specs.App.{AppData};
ghost use Rattle.aeth_base.specs.declared.ids.UseId.{UseId};
ghost use Rattle.aeth_chip.specs.Chip.{ChipData};
ghost use Rattle.aeth_group.specs.Members.{GroupsData, groups_of};
ghost use Rattle.aeth_ni.specs.Program.{program_of};
ghost use Rattle.aeth_plan.specs.Plan.{PlanData};
ghost use Rattle.aeth_plan.specs.Design.{IsDesign};
ghost use Rattle.aeth_tables.specs.Promises.{KeepPromises};
ghost use Rattle.aeth_tables.specs.Switching.{closing_rows, lag_of, opening_rows, spans_of, writes_of};
ghost use Rattle.aeth_tables.specs.Tables.{tables_of};
ghost use Rattle.aeth_trace.specs.Spans.{span_of};
ghost use Rattle.std.specs.Prelude.{◌≡◌, ◌<◌, ℕ, length};

/// The tables of a use case by an accepted plan keep what they promise: rows that can be told apart,
/// routes along paths, and slots and buffers as each channel needs them.
pub fn promises()
    ensures { (chip : ChipData) (app : AppData) (plan : PlanData) → IsDesign chip app plan
        → (u : UseId) → u.0 < length app.uses
        → KeepPromises chip app plan (tables_of chip app (groups_of app) plan u) }
{}

/// The span of each switch is its lag and its writes, which are as many as its program has.
pub fn switches()
    ensures each { (chip : ChipData) (app : AppData) (groups : GroupsData) (plan : PlanData)
        → (u v : ℕ) → u < length groups.uses → v < length groups.uses
        → span_of (spans_of chip app groups plan) u v
        ≡ (lag_of chip app groups plan u v, writes_of chip app groups plan u v) }
    ensures program { (chip : ChipData) (app : AppData) (groups : GroupsData) (plan : PlanData)
        → (u v : ℕ) → writes_of chip app groups plan u v
        ≡ length (program_of (closing_rows chip app groups plan u v)
        (opening_rows chip app groups plan u v)) }
{}

// What holds of the tables of routers by an accepted plan, over the definitions alone.
ghost use Rattle.aeth_accepted.specs.Inputs.{AreAccepted, Inputs};
ghost use Rattle.aeth_app.specs.App.{AppData};
ghost use Rattle.aeth_base.specs.declared.ids.RouterId.{RouterId};
ghost use Rattle.aeth_chip.specs.Chip.{ChipData};
ghost use Rattle.aeth_routed_sessions.specs.RoutedSessions.{routed_sessions_of};
ghost use Rattle.aeth_group.specs.Members.{groups_of};
ghost use Rattle.aeth_plan.specs.Plan.{PlanData};
ghost use Rattle.aeth_plan.specs.Design.{IsDesign};
ghost use Rattle.aeth_invariant.specs.Tables.{AreEntries};
ghost use Rattle.aeth_router.specs.Rows.{AreRowsFor};
ghost use Rattle.aeth_router.specs.TableRouter.{new_table_router};
ghost use Rattle.aeth_rtable.specs.InForce.{rows_in_force};
ghost use Rattle.aeth_rtable.specs.RouterTables.{AreTables};
ghost use Rattle.aeth_rtable.specs.Rows.{router_rows};
ghost use Rattle.aeth_rtable.specs.Sending.{from_rows};
ghost use Rattle.std.specs.Prelude.{◌<◌, ℕ};

/// The rows of a use case by an accepted plan are the entries of its grants, each of them, ascending by
/// router, port and slot; no two of them are of one slot of one port.
pub fn router_tables()
    ensures { (chip : ChipData) (app : AppData) (plan : PlanData) → IsDesign chip app plan → (u : ℕ)
        → AreTables chip (groups_of app) plan u (router_rows chip (groups_of app) plan u) }
{}

/// These rows are within the tables of the chip's routers, and the link of each enters its router.
pub fn rows_fit()
    ensures { (chip : ChipData) (app : AppData) (plan : PlanData) → IsDesign chip app plan → (u : ℕ)
        (router : RouterId) → AreRowsFor (router_rows chip (groups_of app) plan u)
        (new_table_router router chip) }
{}

/// In each cycle of a run of accepted inputs the rows of the use case in force are the entries of just
/// the sessions that are in the tables then.
pub fn rows_route()
    ensures { (inputs : Inputs) → AreAccepted inputs → (t : ℕ) → t < inputs.cycles
        → AreEntries (routed_sessions_of inputs) t
        (from_rows inputs.chip (rows_in_force inputs t) t) }
{}

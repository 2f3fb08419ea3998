//! What holds of reservations and of audits, over the definitions alone.
ghost use Rattle.std.specs.Prelude.{◌≡◌, ℕ, List, Contains, filter, nat_lt};
ghost use Rattle.aeth_reconf.specs.Timeline.{timeline_of};
ghost use Rattle.aeth_report.specs.Design.{Design};
ghost use Rattle.aeth_report.specs.Flows.{Run};
ghost use Rattle.aeth_report.specs.Sound.{IsSound};
ghost use Rattle.aeth_report.specs.declared.session.Session.{Session};
ghost use Rattle.aeth_audit.specs.Audit.{audit_of};
ghost use Rattle.aeth_audit.specs.Breaks.{IsAuditOf};
ghost use Rattle.aeth_audit.specs.Reservations.{Reservation, reserved};
ghost use Rattle.aeth_audit.specs.Reserved.{IsReserved};
ghost use Rattle.aeth_audit.specs.declared.row.LinkRow.{LinkRow};

/// The list of reservations of a link in a cycle has just those of the sessions that may inject a
/// flit which would enter the link then. In a sound run there is one at most.
pub fn reservations()
    ensures only { (design : Design) (timeline : List (List Session)) (l t : ℕ) (at : Reservation)
        → Contains (reserved design timeline l t) at → IsReserved design timeline l t at }
    ensures every { (design : Design) (timeline : List (List Session)) (l t : ℕ) (at : Reservation)
        → IsReserved design timeline l t at → Contains (reserved design timeline l t) at }
    ensures one { (run : Run) → IsSound run → (l t : ℕ) (at other : Reservation)
        → (let timeline = timeline_of run.design.groups run.spans run.switches in
        IsReserved run.design timeline l t at → IsReserved run.design timeline l t other
        → at ≡ other) }
{
    aeth_reconf::laws::timelines_have_sessions();
}

/// An audit in a sound run says that no row breaks a rule, or which row is the first that does, and
/// which is the least rule that it breaks.
pub fn audits()
    ensures { (run : Run) → IsSound run → (log : List LinkRow) (cycles : ℕ)
        → (let timeline = timeline_of run.design.groups run.spans run.switches in
        IsAuditOf run.design timeline cycles (filter (λ row. nat_lt row.cycle cycles) log)
        (audit_of run.design timeline log cycles)) }
{
    aeth_reconf::laws::timelines_have_sessions();
}

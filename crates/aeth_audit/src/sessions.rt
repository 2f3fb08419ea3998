// Which session of a connection may inject a flit in a cycle.
ghost use Rattle.std.specs.Prelude.{◌≡◌, ◌≤◌, ◌↔◌, ◌==◌, ◌&&◌, IsTrue, false, length, nat_le, true};
ghost use Rattle.std.specs.List.Sorted.{IsNonDecreasingBy, IsPartitionPoint};
ghost use Rattle.aeth_audit.specs.OpenSessions.{HasOpen, IsLastAlone};
ghost use Rattle.aeth_audit.specs.Reservations.{may_inject};

use aeth_base::GroupId;
use aeth_report::Session;

// Whether a session may inject a flit in a cycle.
fn may_inject(session: &Session, cycle: u64) -> bool
    ensures { result ≡ may_inject session.now cycle }
{
    session.go <= cycle
        && match session.close {
            None => true,
            Some(close) => cycle < close.stop,
        }
}

// Whether a session is by the grants of this group, and may inject a flit in a cycle.
fn is_open(session: &Session, group: GroupId, cycle: u64) -> bool
    ensures { result ≡ (session.now.group.0 == group.0 && may_inject session.now cycle) }
{
    session.group.0 == group.0 && may_inject(session, cycle)
}

// How many sessions have gone by a cycle.
fn gone_by(sessions: &[Session], cycle: u64) -> usize
    requires { IsNonDecreasingBy (λ session. session.go) sessions.now }
    ensures point { IsPartitionPoint (λ session. nat_le session.go cycle ≡ true)
        (λ session. nat_le session.go cycle ≡ false) sessions.now result }
    ensures within { result ≤ length sessions.now }
{
    sessions.partition_point(|session| session.go <= cycle)
}

/// Whether a session by the grants of this group may inject a flit in a cycle. Sessions go in their
/// order, and of those that have gone the last alone may: so it is found by halves.
pub(crate) fn has_open(sessions: &[Session], group: GroupId, cycle: u64) -> bool
    requires rise { IsNonDecreasingBy (λ session. session.go) sessions.now }
    requires alone { IsLastAlone sessions.now cycle }
    ensures { IsTrue result ↔ HasOpen sessions.now group.0 cycle }
{
    let gone = gone_by(sessions, cycle);
    if gone == 0 {
        return false;
    }
    is_open(&sessions[gone - 1], group, cycle)
}

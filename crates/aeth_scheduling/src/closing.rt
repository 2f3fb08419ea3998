// When sessions close.

ghost use Rattle.std.specs.Prelude.{◌≡◌, ◌<◌, ◌+◌, ◌∷◌, ◌^◌, ◌↔◌, None, All, IsTrue, length};
ghost use Rattle.aeth_base.specs.Limits.{max_path_delay};
ghost use Rattle.aeth_report.specs.Flows.{close_at};
ghost use Rattle.aeth_schedule.specs.SessionStarts.{session_by};
ghost use Rattle.aeth_scheduling.specs.Made.{AreRows};
ghost use Rattle.aeth_scheduling.specs.Staying.{AreEntered, IsKeptThroughout};

use crate::entering::Entering;
use crate::task::Task;
use aeth_base::{ConnId, MAX_PATH_DELAY, UseId};
use aeth_group::Groups;
use aeth_reconf::{Close, close_by};
use aeth_trace::SwitchRow;

// How the sessions of a connection close that come with a row, over the rows that follow. Where it is
// kept between all use cases that rows enter, these are not looked at.
pub(crate) fn close_in(task: &Task, conn: ConnId, entering: &Entering) -> Close
    requires { AreEntered (length task.now.groups.now.uses) entering.now.entered.now
        (entering.now.row.now ∷ entering.now.later.now) }
    ensures close { result ≡ close_at task.now.cycles (session_by task.now.groups.now
        task.now.spans.now None entering.now.row.now.to.0 entering.now.later.now conn.0) }
    ensures until { result.until < 2 ^ 32 }
    ensures fin { result.fin < 2 ^ 32 }
{
    if stays(task.groups, entering.entered, conn) {
        return close_with(task.cycles);
    }
    close_over(task, conn, entering.row.to, entering.later)
}

// The same by a look at each row, up to the first that doesn't keep the connection.
fn close_over(task: &Task, conn: ConnId, to: UseId, rows: &[SwitchRow]) -> Close
    requires to { to.0 < length task.now.groups.now.uses }
    requires rows { AreRows (length task.now.groups.now.uses) rows.now }
    ensures close { result ≡ close_at task.now.cycles (session_by task.now.groups.now
        task.now.spans.now None to.0 rows.now conn.0) }
    ensures until { result.until < 2 ^ 32 }
    ensures fin { result.fin < 2 ^ 32 }
{
    let mut from = to;
    let mut rest = rows;
    'rows: while let [row, more @ ..] = rest {
        if !task.groups.kept(from, row.to, conn) {
            return close_by(task.spans, from, row);
        }
        from = row.to;
        rest = more;
    }
    close_with(task.cycles)
}

// Whether a connection is kept between any two of these use cases: between the first and each.
fn stays(groups: &Groups, entered: &[UseId], conn: ConnId) -> bool
    requires { All (λ u. u.0 < length groups.now.uses) entered.now }
    ensures { IsTrue result ↔ IsKeptThroughout groups.now entered.now conn.0 }
{
    let [first, ..] = entered else {
        return true;
    };
    for u in entered {
        if !groups.kept(*first, *u, conn) {
            return false;
        }
    }
    true
}

// How sessions close that no switch closes: with the run.
fn close_with(cycles: u32) -> Close
    ensures { result
        ≡ record { until = cycles; stop = cycles; fin = cycles + max_path_delay } }
{
    let end = u64::from(cycles);
    Close {
        until: end,
        stop: end,
        fin: end + u64::from(MAX_PATH_DELAY),
    }
}

// When channels close and open by a switch.
ghost use Rattle.aeth_report.specs.Sessions.{close_by, go_by};
ghost use Rattle.std.specs.Prelude.{◌≡◌, ◌<◌};

use aeth_base::UseId;
use aeth_report::Close;
use aeth_trace::{Spans, SwitchRow, go_after};

/// How the channels close that a switch closes, which leaves this use case: they accept words
/// before its cycle, send through its drain, and are finished once what they sent has landed.
pub fn close_by(spans: &Spans, from: UseId, row: &SwitchRow) -> Close
    requires from { from.0 < spans.now.uses }
    requires to { row.now.to.0 < spans.now.uses }
    ensures { result ≡ close_by spans.now (record { leaves = from.0; row = row.now }) }
{
    let until = row.cycle as u64;
    let stop = until + row.drain as u64;
    let fin = stop + spans.lag(from, row.to) as u64;
    Close { until, stop, fin }
}

/// The cycle from which on the channels are in use that a switch opens, which leaves this use case.
pub fn go_by(spans: &Spans, from: UseId, row: &SwitchRow) -> u64
    requires from { from.0 < spans.now.uses }
    requires to { row.now.to.0 < spans.now.uses }
    ensures { result ≡ go_by spans.now (record { leaves = from.0; row = row.now }) }
{
    go_after(spans, from, row)
}

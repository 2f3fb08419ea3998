//! Worked audits of logs of links, computed by the definitions.
ghost use Rattle.aeth_runs_tests.specs.Audits.{ConnectionClosed, ConnectionClosing};
ghost use Rattle.aeth_runs_tests.specs.Audits.{ConnectionNotOpened, ConnectionOpened, LinkWithDelay};
ghost use Rattle.aeth_runs_tests.specs.Audits.{OneConnection};

/// Logs of one connection, over links without a delay and with one.
pub fn audits_in_one_use_case()
    ensures one_connection { OneConnection }
    ensures link_with_delay { LinkWithDelay }
{}

/// Logs of a connection that a switch opens or closes, in the cycle in which it goes or stops and in the
/// one before.
pub fn audits_through_switches()
    ensures opened { ConnectionOpened }
    ensures not_opened { ConnectionNotOpened }
    ensures closing { ConnectionClosing }
    ensures closed { ConnectionClosed }
{}

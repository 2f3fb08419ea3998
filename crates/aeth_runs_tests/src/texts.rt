//! Worked texts, computed by the definitions.
ghost use Rattle.aeth_runs_tests.specs.Designs.{one_app, one_groups, two_app, two_groups};
ghost use Rattle.aeth_runs_tests.specs.Texts.{ConnectionClosed, ConnectionOpened, LinkWithDelay};
ghost use Rattle.aeth_runs_tests.specs.Texts.{OneConnection, ReceiverStalls, ReceiverTakes};
ghost use Rattle.aeth_runs_tests.specs.Texts.{SwitchesPastTheEnd};
ghost use Rattle.aeth_group.specs.Members.{groups_of};
ghost use Rattle.std.specs.Prelude.{◌≡◌};

/// The groups of the worked applications.
pub fn groups()
    ensures one { groups_of one_app ≡ one_groups }
    ensures two { groups_of two_app ≡ two_groups }
{}

/// Runs in one use case: over links without a delay and with one, a receiver that stalls its channel
/// and one that takes.
pub fn runs_in_one_use_case()
    ensures one_connection { OneConnection }
    ensures link_with_delay { LinkWithDelay }
    ensures receiver_stalls { ReceiverStalls }
    ensures receiver_takes { ReceiverTakes }
{}

/// Runs through switches that open and close a connection.
pub fn runs_through_switches()
    ensures connection_opened { ConnectionOpened }
    ensures connection_closed { ConnectionClosed }
    ensures switches_past_the_end { SwitchesPastTheEnd }
{}

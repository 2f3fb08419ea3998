// Channels that are the same.
ghost use Rattle.std.specs.Prelude.{◌≡◌};
ghost use Rattle.aeth_trace.specs.Channels.{is_channel};

use aeth_base::Channel;

// Whether two channels are the same.
pub(crate) fn is_channel(one: Channel, other: Channel) -> bool
    ensures { result ≡ is_channel one other }
{
    one.conn.0 == other.conn.0 && one.side.is(other.side)
}

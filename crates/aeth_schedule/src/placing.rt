// The words of a run, channel by channel.

ghost use Rattle.std.specs.Prelude.{◌≡◌, ◌<◌, ◌++◌, IfOk, OnOk, length};
ghost use Rattle.aeth_app.specs.Limits.{max_connections};
ghost use Rattle.aeth_base.specs.declared.ids.Side.TheVariants.{Back, Fwd};
ghost use Rattle.aeth_trace.specs.Channels.{channel_number};
ghost use Rattle.aeth_schedule.specs.Values.{values_of, values_on, values_with};

use aeth_app::App;
use aeth_base::{Channel, ConnId, NoMemory, Side};
use aeth_trace::Words;
use std::alloc::Global;

/// The number of a channel of an application, in channel order.
pub fn number_of(channel: Channel) -> u32
    requires { channel.conn.0 < max_connections }
    ensures { result ≡ channel_number channel }
{
    let side = match channel.side {
        Side::Fwd => 0,
        Side::Back => 1,
    };
    2 * channel.conn.0 + side
}

/// The channel of a connection that leads forward.
pub fn forward(conn: ConnId) -> Channel
    ensures { result ≡ record { conn = conn; side = Fwd } }
{
    Channel {
        conn,
        side: Side::Fwd,
    }
}

/// The channel that leads back.
pub fn backward(conn: ConnId) -> Channel
    ensures { result ≡ record { conn = conn; side = Back } }
{
    Channel {
        conn,
        side: Side::Back,
    }
}

/// The values of the words of all channels, in channel order, those of each in file order. `Err`
/// where there was no memory.
pub fn values(alloc: Global, app: &App, words: &Words) -> Result<Vec<u32>, NoMemory>
    ensures { IfOk result (λ values. values.items
        ≡ values_of words.now (length app.now.connections)) }
{
    let mut values = Vec::new(alloc);
    for c in 0..app.connections() {
        push_connection(&mut values, words, ConnId(c))?;
    }
    Ok(values)
}

// Appends the values of the words of a connection's channels.
fn push_connection(values: &mut Vec<u32>, words: &Words, conn: ConnId) -> Result<(), NoMemory>
    ensures { OnOk result (values.new.items ≡ values.old.items ++ values_with words.now conn.0) }
{
    push_channel(values, words, forward(conn))?;
    push_channel(values, words, backward(conn))
}

// Appends the values of the words of a channel.
fn push_channel(values: &mut Vec<u32>, words: &Words, channel: Channel) -> Result<(), NoMemory>
    ensures { OnOk result (values.new.items ≡ values.old.items ++ values_on words.now channel) }
{
    for place in 0..words.count_on(channel) {
        values.push(words.nth_word(channel, place).value)?;
    }
    Ok(())
}

// Where the words of channels begin, and how many of them are offered before a cycle.

ghost use Rattle.std.specs.Prelude.{◌≡◌, ◌≤◌, ◌<◌, ◌*◌, ◌+◌, IfOk, length, map};
ghost use Rattle.std.specs.List.{range_with_len};
ghost use Rattle.std.specs.List.Sorted.{IsNonDecreasingBy};
ghost use Rattle.aeth_app.specs.Limits.{max_connections};
ghost use Rattle.aeth_trace.specs.Limits.{max_rows};
ghost use Rattle.aeth_trace.specs.Words.{words_until};
ghost use Rattle.aeth_schedule.specs.Values.{before_of, start_of, values_of, values_with};

use aeth_app::App;
use aeth_base::{Channel, ConnId, NoMemory, Side};
use aeth_schedule::{backward, forward};
use aeth_trace::Words;
use std::alloc::Global;

// For each connection the place of the first word of its channels.
pub(crate) fn starts(alloc: Global, app: &App, words: &Words) -> Result<Vec<u32>, NoMemory>
    requires { length words.now ≤ max_rows }
    ensures { IfOk result (λ starts. starts.items ≡ map (λ c. length (values_of words.now c))
        (range_with_len 0 (length app.now.connections))) }
{
    let mut starts = Vec::new(alloc);
    let mut start = 0;
    for c in 0..app.connections() {
        starts.push(start)?;
        start += count_with(words, ConnId(c));
    }
    Ok(starts)
}

// How many words a connection's channels have.
fn count_with(words: &Words, conn: ConnId) -> u32
    requires { length words.now ≤ max_rows }
    ensures count { result ≡ length (values_with words.now conn.0) }
    ensures most { result ≤ 2 * max_rows }
{
    let fwd = words.count_on(forward(conn));
    let back = words.count_on(backward(conn));
    (fwd + back) as u32
}

// The place of the first word of a channel.
pub(crate) fn start(words: &Words, starts: &[u32], channel: Channel) -> u32
    requires few { length words.now ≤ max_rows }
    requires channel { channel.conn.0 < length starts.now }
    requires most { length starts.now ≤ max_connections }
    requires starts { starts.now ≡ map (λ c. length (values_of words.now c))
        (range_with_len 0 (length starts.now)) }
    ensures start { result ≡ start_of words.now channel }
    ensures most { result ≤ (2 * max_connections + 1) * max_rows }
{
    let ahead = match channel.side {
        Side::Fwd => 0,
        Side::Back => words.count_on(forward(channel.conn)) as u32,
    };
    starts[channel.conn.0 as usize] + ahead
}

// How many words of a channel are offered before a cycle.
pub(crate) fn before(words: &Words, channel: Channel, cycle: u32) -> u32
    requires few { length words.now ≤ max_rows }
    requires order { IsNonDecreasingBy (λ row. row.cycle) words.now }
    ensures before { result ≡ before_of words.now channel cycle }
    ensures most { result ≤ max_rows }
{
    if cycle == 0 {
        return 0;
    }
    offered(words, channel, cycle - 1) as u32
}

// How many words of a channel are offered up to a cycle. It halves what is left in each step.
fn offered(words: &Words, channel: Channel, cycle: u32) -> usize
    requires few { length words.now ≤ max_rows }
    requires order { IsNonDecreasingBy (λ row. row.cycle) words.now }
    ensures offered { result ≡ length (words_until words.now channel cycle) }
    ensures most { result ≤ max_rows }
{
    let mut low = 0;
    let mut high = words.count_on(channel);
    'halve: while low < high {
        let middle = low + (high - low) / 2;
        if words.nth_word(channel, middle).cycle <= cycle {
            low = middle + 1;
        } else {
            high = middle;
        }
    }
    low
}

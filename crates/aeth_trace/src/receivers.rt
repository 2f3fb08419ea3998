// What receivers take.
ghost use Rattle.std.specs.Prelude.{◌≡◌, ◌≤◌, ◌<◌, ℕ, IfNone, IfOk, IfSome, length, take};
ghost use Rattle.aeth_base.specs.Faults.{Reads};
ghost use Rattle.aeth_trace.specs.Fault.{rule_of};
ghost use Rattle.aeth_trace.specs.Receivers.{AreReceiversOf, IsSteady, change_after, pull_at};
ghost use Rattle.aeth_trace.specs.Receivers.{pull_of, pulls_on, pulls_until, receivers_of};

use crate::by_channel::ByChannel;
use crate::columns::Columns;
use crate::fault::TraceFault;
use crate::fields::{channel_in, heads_channels};
use crate::found::Found;
use crate::judging::{judge_count, judge_known, judge_order};
use crate::row::{OnChannel, Row};
use crate::table::read_table;
use crate::words::MAX_ROWS;
use aeth_app::App;
use aeth_base::Channel;
use csv::ByteRecord;
use std::alloc::Global;
use std::marker::Model;

/// The most words that a receiver takes in a cycle.
pub const MAX_PULL: u32 = 255;

/// What a receiver takes in a cycle at most where no row says it.
const USUAL_PULL: u32 = 2;

/// How many words a channel's receiver takes in a cycle at most, from a cycle on.
#[derive(Clone, Copy)]
pub struct PullRow {
    pub channel: Channel,
    pub cycle: u32,
    pub pull: u32,
}

impl Row for PullRow {
    ghost names = { λ row. row.channel.conn.0 };

    ghost at = { λ row. row.cycle };

    fn named(&self) -> u32 {
        self.channel.conn.0
    }

    fn cycle(&self) -> u32 {
        self.cycle
    }
}

// The columns of a file of receivers.
struct PullColumns;

impl Columns for PullColumns {
    ghost use Rattle.aeth_trace.specs.Receivers.{heads_receivers, pull_in};
    ghost use Rattle.aeth_trace.specs.Words.{connection_names};

    type Row = PullRow;

    ghost heads = { heads_receivers };

    ghost told = { λ app. pull_in (connection_names app) };

    fn is_header(fields: &ByteRecord) -> bool {
        heads_channels(fields, b"pull")
    }

    fn tell(app: &App, found: &mut [Option<Found>], fields: &ByteRecord) -> Option<PullRow> {
        match channel_in(app, found, fields, MAX_PULL) {
            None => None,
            Some((channel, cycle, pull)) => Some(PullRow {
                channel,
                cycle,
                pull,
            }),
        }
    }
}

impl OnChannel for PullRow {
    ghost on = { λ row. row.channel };

    fn channel(&self) -> Channel {
        self.channel
    }
}

/// Rows of receivers in the order of their cycles. They are seen as the list of these; an index
/// finds those of a channel.
#[derive(Drop)]
pub struct Receivers {
    rows: Vec<PullRow>,
    index: ByChannel,
}

impl Model for Receivers {
    ghost use Rattle.std.specs.Prelude.{List};
    ghost use Rattle.std.specs.List.Sorted.{IsNonDecreasingBy};
    ghost use Rattle.aeth_trace.specs.Channels.{IsByChannel};
    ghost use Rattle.aeth_trace.specs.declared.receivers.PullRow.{PullRow};

    ghost Value = { List PullRow };

    ghost view = { λ receivers. receivers.rows.items };

    ghost invariant = { λ receivers. IsNonDecreasingBy (λ row. row.cycle) receivers.rows.items
        × IsByChannel (λ row. row.channel) receivers.rows.items receivers.index.lists.items };
}

impl Receivers {
    /// The rows, in file order.
    pub fn rows(&self) -> &[PullRow]
        ensures { result.now ≡ self.now }
    {
        &self.rows
    }

    /// What the receiver of a channel takes in a cycle at most, where so many rows of the channel
    /// are known not to be later; then all such rows are. It takes a step for each further one, so
    /// that a run asks from cycle to cycle without a search.
    pub fn next_pull(&self, channel: Channel, cycle: u32, known: &mut usize) -> u32
        requires { known.old ≤ length (pulls_until self.now channel cycle) }
        ensures known { known.new ≡ length (pulls_until self.now channel cycle) }
        ensures gives { result ≡ pull_at self.now channel cycle }
    {
        *known = self.index.next_until(&self.rows, channel, cycle, *known);
        self.pull_of(channel, *known)
    }

    /// The cycle of the next row of a channel, where so many of its rows are those that aren't later
    /// than a cycle: before it the receiver takes at most what it takes in this one. `None` where no
    /// row follows.
    pub fn next_change(&self, channel: Channel, cycle: u32, known: usize) -> Option<u32>
        requires { known ≡ length (pulls_until self.now channel cycle) }
        ensures gives { result ≡ change_after self.now channel cycle }
        ensures later { IfSome result (λ next. cycle < next) }
        ensures steady { IfSome result (λ next. IsSteady self.now channel cycle next) }
        ensures last { IfNone result ((end : ℕ) → IsSteady self.now channel cycle end) }
    {
        if known == self.index.count(channel) {
            return None;
        }
        Some(self.index.row(&self.rows, channel, known).cycle)
    }

    // What the last of so many rows of a channel says, and what is usual where there is none.
    fn pull_of(&self, channel: Channel, count: usize) -> u32
        requires { count ≤ length (pulls_on self.now channel) }
        ensures { result ≡ pull_of (take count (pulls_on self.now channel)) }
    {
        if count == 0 {
            return USUAL_PULL;
        }
        self.index.row(&self.rows, channel, count - 1).pull
    }
}

/// The receivers' rows of a file's bytes, for an application; or the first rule that the file
/// breaks; or memory ran out. Its columns are `connection,side,cycle,pull`: cycles are 0 to
/// 1,000,000, pulls 0 to 255.
#[tactic(auto, unfolding(crate::specs::Receivers::receivers_of))]
pub fn read_receivers(alloc: Global, bytes: &[u8], app: &App) -> Result<Receivers, TraceFault>
    ensures reads { Reads rule_of (λ receivers. receivers) result (receivers_of app.now bytes.now) }
    ensures receivers { IfOk result (λ receivers. AreReceiversOf app.now receivers) }
{
    let rows = read_table::<PullColumns>(alloc, bytes, app)?;
    judge_known(&rows, 1, app.connections())?;
    judge_order(&rows)?;
    judge_count(rows.len(), MAX_ROWS)?;
    let index = ByChannel::of(alloc, app.connections(), &rows)?;
    Ok(Receivers { rows, index })
}

/// How many words the receiver of a channel takes in a cycle at most: what the last row of the
/// channel says whose cycle isn't later, and 2 where there is none. It takes about as many steps as
/// the channel's number of rows has digits; a run that goes from cycle to cycle asks
/// [`Receivers::next_pull`].
pub fn pull(receivers: &Receivers, channel: Channel, cycle: u32) -> u32
    ensures { result ≡ pull_at receivers.now channel cycle }
{
    let count = receivers.index.until(&receivers.rows, channel, cycle);
    receivers.pull_of(channel, count)
}

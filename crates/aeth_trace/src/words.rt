// The words that are offered to channels.
ghost use Rattle.std.specs.Prelude.{◌≡◌, ◌≤◌, ◌<◌, IfOk, Some, length, slice_get};
ghost use Rattle.std.specs.List.Sorted.{IsNonDecreasingBy};
ghost use Rattle.aeth_base.specs.Faults.{Reads};
ghost use Rattle.aeth_trace.specs.Fault.{rule_of};
ghost use Rattle.aeth_trace.specs.Limits.{max_rows};
ghost use Rattle.aeth_trace.specs.Words.{AreWordsOf, words_of, words_on, words_until};

use crate::by_channel::ByChannel;
use crate::columns::Columns;
use crate::fault::TraceFault;
use crate::fields::{channel_in, heads_channels};
use crate::found::Found;
use crate::judging::{judge_count, judge_known, judge_order};
use crate::row::{OnChannel, Row};
use crate::table::read_table;
use aeth_app::App;
use aeth_base::Channel;
use csv::ByteRecord;
use std::alloc::Global;
use std::marker::Model;

/// The most rows of a file of words or of receivers.
pub const MAX_ROWS: u32 = 1_000_000;

/// The greatest value of a word.
pub const MAX_VALUE: u32 = 4_294_967_295;

/// A word that is offered to a channel in a cycle.
#[derive(Clone, Copy)]
pub struct WordRow {
    pub channel: Channel,
    pub cycle: u32,
    pub value: u32,
}

impl Row for WordRow {
    ghost names = { λ row. row.channel.conn.0 };

    ghost at = { λ row. row.cycle };

    fn named(&self) -> u32 {
        self.channel.conn.0
    }

    fn cycle(&self) -> u32 {
        self.cycle
    }
}

// The columns of a file of words.
struct WordColumns;

impl Columns for WordColumns {
    ghost use Rattle.aeth_trace.specs.Words.{connection_names, heads_words, word_in};

    type Row = WordRow;

    ghost heads = { heads_words };

    ghost told = { λ app. word_in (connection_names app) };

    fn is_header(fields: &ByteRecord) -> bool {
        heads_channels(fields, b"value")
    }

    fn tell(app: &App, found: &mut [Option<Found>], fields: &ByteRecord) -> Option<WordRow> {
        match channel_in(app, found, fields, MAX_VALUE) {
            None => None,
            Some((channel, cycle, value)) => Some(WordRow {
                channel,
                cycle,
                value,
            }),
        }
    }
}

impl OnChannel for WordRow {
    ghost on = { λ row. row.channel };

    fn channel(&self) -> Channel {
        self.channel
    }
}

/// Words in the order of their cycles, and within a cycle in file order. They are seen as the list
/// of these; an index finds those of a channel.
#[derive(Drop)]
pub struct Words {
    rows: Vec<WordRow>,
    index: ByChannel,
}

impl Model for Words {
    ghost use Rattle.std.specs.Prelude.{List, length, ◌≤◌};
    ghost use Rattle.std.specs.List.Sorted.{IsNonDecreasingBy};
    ghost use Rattle.aeth_trace.specs.Channels.{IsByChannel};
    ghost use Rattle.aeth_trace.specs.Limits.{max_rows};
    ghost use Rattle.aeth_trace.specs.declared.words.WordRow.{WordRow};

    ghost Value = { List WordRow };

    ghost view = { λ words. words.rows.items };

    ghost invariant = { λ words. IsNonDecreasingBy (λ row. row.cycle) words.rows.items
        × IsByChannel (λ row. row.channel) words.rows.items words.index.lists.items
        × (length words.rows.items ≤ max_rows) };
}

impl Words {
    /// The words, in file order. Their cycles ascend, and they are at most 1,000,000.
    pub fn rows(&self) -> &[WordRow]
        ensures rows { result.now ≡ self.now }
        ensures order { IsNonDecreasingBy (λ row. row.cycle) self.now }
        ensures few { length self.now ≤ max_rows }
    {
        &self.rows
    }

    /// How many words a channel has.
    pub fn count_on(&self, channel: Channel) -> usize
        ensures { result ≡ length (words_on self.now channel) }
    {
        self.index.count(channel)
    }

    /// A word of a channel, by its place among these from 0. It takes one step.
    pub fn nth_word(&self, channel: Channel, place: usize) -> WordRow
        requires { place < length (words_on self.now channel) }
        ensures { slice_get (words_on self.now channel) place ≡ Some result }
    {
        self.index.row(&self.rows, channel, place)
    }

    /// How many words of a channel are offered up to a cycle, where so many are known to be. It
    /// takes a step for each further one, so that a run asks from cycle to cycle without a search.
    pub fn offered(&self, channel: Channel, cycle: u32, known: usize) -> usize
        requires { known ≤ length (words_until self.now channel cycle) }
        ensures { result ≡ length (words_until self.now channel cycle) }
    {
        self.index.next_until(&self.rows, channel, cycle, known)
    }
}

/// The words of a file's bytes, for an application; or the first rule that the file breaks; or
/// memory ran out. Its columns are `connection,side,cycle,value`: cycles are 0 to 1,000,000, values
/// 0 to 4,294,967,295.
#[tactic(auto, unfolding(crate::specs::Words::words_of))]
pub fn read_words(alloc: Global, bytes: &[u8], app: &App) -> Result<Words, TraceFault>
    ensures reads { Reads rule_of (λ words. words) result (words_of app.now bytes.now) }
    ensures words { IfOk result (λ words. AreWordsOf app.now words) }
{
    let rows = read_table::<WordColumns>(alloc, bytes, app)?;
    judge_known(&rows, 1, app.connections())?;
    judge_order(&rows)?;
    judge_count(rows.len(), MAX_ROWS)?;
    let index = ByChannel::of(alloc, app.connections(), &rows)?;
    Ok(Words { rows, index })
}

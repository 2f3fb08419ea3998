// The rows of each channel, found without a search.
ghost use Rattle.std.specs.Prelude.{◌≡◌, ◌<◌, ◌≤◌, ◌^◌, ◌*◌, ◌++◌, ◌∷◌, ◌==◌, ℕ, [], All, IfOk};
ghost use Rattle.std.specs.Prelude.{Some, length, slice_get, if◌then◌else◌};
ghost use Rattle.std.specs.List.Sorted.{IsNonDecreasingBy};
ghost use Rattle.aeth_trace.specs.Channels.{IsByChannel, channel_number, list_at, rows_on};
ghost use Rattle.aeth_trace.specs.Channels.{rows_until};

use crate::row::OnChannel;
use aeth_base::{Channel, NoMemory, Side};
use std::alloc::Global;

/// For each channel the numbers of its rows, in their order.
#[derive(Drop)]
pub(crate) struct ByChannel {
    pub lists: Vec<Vec<u32>>,
}

// The number of a channel, in channel order.
fn channel_number(channel: Channel) -> usize
    ensures { result ≡ channel_number channel }
{
    2 * channel.conn.0 as usize
        + match channel.side {
            Side::Fwd => 0,
            Side::Back => 1,
        }
}

// The list at a place of a list of lists, empty where there is none.
fn list_at(lists: &[Vec<u32>], place: usize) -> &[u32]
    ensures { result.now ≡ list_at lists.now place }
{
    match lists.get(place) {
        None => &[],
        Some(list) => list,
    }
}

impl ByChannel {
    /// Finds the rows of each channel of so many connections, in a few steps a row.
    pub(crate) fn of<R: OnChannel>(
        alloc: Global,
        connections: u32,
        rows: &[R],
    ) -> Result<ByChannel, NoMemory>
        requires known { All (λ row. (R.on row).conn.0 < connections) rows.now }
        requires few { length rows.now < 2 ^ 32 }
        ensures { IfOk result (λ index. IsByChannel R.on rows.now index.lists.items) }
    {
        let counts = counts_of(alloc, connections, rows)?;
        let mut lists = empty_lists(alloc, &counts)?;
        fill(&mut lists, rows)?;
        Ok(ByChannel { lists })
    }

    /// How many rows a channel has.
    pub(crate) fn count(&self, channel: Channel) -> usize
        ensures { result ≡ length (list_at self.now.lists.items (channel_number channel)) }
    {
        list_at(&self.lists, channel_number(channel)).len()
    }

    /// The row at a place among the rows of a channel.
    pub(crate) fn row<R: OnChannel>(&self, rows: &[R], channel: Channel, place: usize) -> R
        requires index { IsByChannel R.on rows.now self.now.lists.items }
        requires place { place < length (rows_on R.on channel rows.now) }
        ensures { slice_get (rows_on R.on channel rows.now) place ≡ Some result }
    {
        let numbers = list_at(&self.lists, channel_number(channel));
        rows[numbers[place] as usize]
    }

    /// How many rows of a channel aren't later than a cycle, where so many are known not to be. It
    /// takes a step for each further one.
    pub(crate) fn next_until<R: OnChannel>(
        &self,
        rows: &[R],
        channel: Channel,
        cycle: u32,
        known: usize,
    ) -> usize
        requires index { IsByChannel R.on rows.now self.now.lists.items }
        requires order { IsNonDecreasingBy R.at rows.now }
        requires known { known
            ≤ length (rows_until R.at cycle (rows_on R.on channel rows.now)) }
        ensures { result ≡ length (rows_until R.at cycle (rows_on R.on channel rows.now)) }
    {
        for place in known..self.count(channel) {
            if self.row(rows, channel, place).cycle() > cycle {
                return place;
            }
        }
        self.count(channel)
    }

    /// How many rows of a channel aren't later than a cycle. It halves what is left in each step.
    pub(crate) fn until<R: OnChannel>(&self, rows: &[R], channel: Channel, cycle: u32) -> usize
        requires index { IsByChannel R.on rows.now self.now.lists.items }
        requires order { IsNonDecreasingBy R.at rows.now }
        ensures { result ≡ length (rows_until R.at cycle (rows_on R.on channel rows.now)) }
    {
        let mut low = 0;
        let mut high = self.count(channel);
        'halve: while low < high {
            let middle = low + (high - low) / 2;
            if self.row(rows, channel, middle).cycle() <= cycle {
                low = middle + 1;
            } else {
                high = middle;
            }
        }
        low
    }
}

// For each channel of so many connections how many rows it has: so much room its list takes.
fn counts_of<R: OnChannel>(
    alloc: Global,
    connections: u32,
    rows: &[R],
) -> Result<Vec<u32>, NoMemory>
    ensures { IfOk result (λ counts. length counts.items ≡ 2 * connections) }
{
    let mut counts = vec![in alloc; 0_u32; 2 * connections as usize]?;
    for row in rows {
        if let Some(count) = counts.get_mut(channel_number(row.channel())) {
            *count = count.saturating_add(1);
        }
    }
    Ok(counts)
}

// Empty lists with room for so many numbers.
fn empty_lists(alloc: Global, counts: &[u32]) -> Result<Vec<Vec<u32>>, NoMemory>
    ensures size { IfOk result (λ lists. length lists.items ≡ length counts.now) }
    ensures empty { IfOk result (λ lists. (place : ℕ) → list_at lists.items place ≡ []) }
{
    let mut lists = Vec::with_capacity(alloc, counts.len())?;
    for count in counts {
        lists.push(Vec::with_capacity(alloc, *count as usize)?)?;
    }
    Ok(lists)
}

// Puts a number at the end of a list.
fn push_at(lists: &mut [Vec<u32>], place: usize, number: u32) -> Result<(), NoMemory>
    requires { place < length lists.old }
    ensures size { length lists.new ≡ length lists.old }
    ensures lists { IfOk result (λ _. (other : ℕ) → list_at lists.new other
        ≡ list_at lists.old other ++ (if other == place then number ∷ [] else [])) }
{
    lists[place].push(number)?;
    Ok(())
}

// Puts the number of each row at the end of its channel's list.
fn fill<R: OnChannel>(lists: &mut [Vec<u32>], rows: &[R]) -> Result<(), NoMemory>
    requires known { All (λ row. channel_number (R.on row) < length lists.old) rows.now }
    requires few { length rows.now < 2 ^ 32 }
    requires empty { (place : ℕ) → list_at lists.old place ≡ [] }
    ensures { IfOk result (λ _. IsByChannel R.on rows.now lists.new) }
{
    for (number, row) in rows.iter().enumerate() {
        push_at(lists, channel_number(row.channel()), number as u32)?;
    }
    Ok(())
}

// When a network next does something, by what it is given and by how its channels stand.

ghost use Rattle.std.specs.Prelude.{◌≡◌, ◌<◌, ◌≤◌, ◌+◌, ◌^◌, ◌↔◌, IsTrue, min, length};
ghost use Rattle.std.specs.List.Sorted.{IsNonDecreasingBy};
ghost use Rattle.aeth_components.specs.First.{HasSender, IsFirst};
ghost use Rattle.aeth_network.specs.Behind.{passed};
ghost use Rattle.aeth_network.specs.Next.{AsksIn, HasAsker, HasOffer, HasRowTaker, HasTaker};
ghost use Rattle.aeth_network.specs.Next.{IsAskedBy, IsFirstKnown};

use crate::rows::{Offered, Taking};
use aeth_components::{ChannelState, Components};

// The cycle of the first word that is offered from a place on, which lies behind the words before a
// cycle, where that is below a limit; else the limit.
pub(crate) fn next_offer(offers: &[Offered], place: usize, time: u32, to: u32) -> u32
    requires order { IsNonDecreasingBy (λ one. one.cycle) offers.now }
    requires place { place ≡ passed (λ one. one.cycle) time offers.now }
    requires to { time ≤ to }
    ensures { IsFirst (HasOffer offers.now) time to result }
{
    if place < offers.len() {
        let row = offers[place];
        if row.cycle < to {
            return row.cycle;
        }
    }
    to
}

// The first cycle from one on, and below a limit, in which a receiver takes a word, where nothing else
// happens up to then. The rows from a place on are those that are not before the cycle. A receiver takes
// some as it stands, or by one of these rows: no other channel is looked at.
pub(crate) fn next_taking(
    components: &Components,
    takes: &[Taking],
    place: usize,
    time: u32,
    to: u32,
) -> u32
    requires order { IsNonDecreasingBy (λ one. one.cycle) takes.now }
    requires place { place ≡ passed (λ one. one.cycle) time takes.now }
    requires few { length components.now.channel_states < 2 ^ 32 }
    requires to { time ≤ to }
    ensures { IsFirst (HasAsker components.now.channel_states takes.now place) time to result }
{
    if time < to {
        let next = next_by_pulls(components, takes, place, time, to);
        next_by_rows(components.channel_states(), takes, place, time, next)
    } else {
        to
    }
}

// A cycle in which one takes, or the limit, before which none does that takes some as it stands. Where
// nothing is left below the limit no channel is looked at.
fn next_by_pulls(components: &Components, takes: &[Taking], place: usize, time: u32, to: u32) -> u32
    requires order { IsNonDecreasingBy (λ one. one.cycle) takes.now }
    requires place { place ≡ passed (λ one. one.cycle) time takes.now }
    requires few { length components.now.channel_states < 2 ^ 32 }
    requires to { time ≤ to }
    ensures { IsFirstKnown (HasTaker components.now.channel_states takes.now place)
        (HasAsker components.now.channel_states takes.now place) time to result }
{
    let channel_states = components.channel_states();
    let mut next = to;
    let mut number = components.next_taking(0);
    'channels: while number < channel_states.len() && time < next {
        next = next_asking(
            &channel_states[number],
            number as u32,
            takes,
            place,
            time,
            next,
        );
        number = components.next_taking(number + 1);
    }
    next
}

// The same, before which none does by a row from the place on.
fn next_by_rows(
    channel_states: &[ChannelState],
    takes: &[Taking],
    place: usize,
    time: u32,
    to: u32,
) -> u32
    requires order { IsNonDecreasingBy (λ one. one.cycle) takes.now }
    requires place { place ≡ passed (λ one. one.cycle) time takes.now }
    requires to { time ≤ to }
    ensures { IsFirstKnown (HasRowTaker channel_states.now takes.now place)
        (HasAsker channel_states.now takes.now place) time to result }
{
    let mut next = to;
    let mut row = place;
    'rows: while is_before(takes, row, next) {
        next = next_by_row(channel_states, takes[row], takes, place, time, next);
        row += 1;
    }
    next
}

// The same, before which the channel of a row doesn't by it.
fn next_by_row(
    channel_states: &[ChannelState],
    row: Taking,
    takes: &[Taking],
    place: usize,
    time: u32,
    to: u32,
) -> u32
    requires order { IsNonDecreasingBy (λ one. one.cycle) takes.now }
    requires place { place ≡ passed (λ one. one.cycle) time takes.now }
    requires to { time ≤ to }
    ensures { IsFirstKnown (IsAskedBy channel_states.now row takes.now place)
        (HasAsker channel_states.now takes.now place) time to result }
{
    let number = row.number as usize;
    if row.pull > 0 && number < channel_states.len() {
        next_asking(&channel_states[number], row.number, takes, place, time, to)
    } else {
        to
    }
}

// The first cycle from one on, and below a limit, in which a component sends words or credits as it
// stands. Where nothing is left below the limit no component is looked at.
pub(crate) fn next_own(components: &Components, time: u32, to: u32) -> u32
    requires { time ≤ to }
    ensures { IsFirst (HasSender components.now.parts) time to result }
{
    if time < to {
        components.next_sending(time, to)
    } else {
        to
    }
}

// The first of the channel of a number.
fn next_asking(
    channel_state: &ChannelState,
    number: u32,
    takes: &[Taking],
    place: usize,
    time: u32,
    to: u32,
) -> u32
    requires order { IsNonDecreasingBy (λ one. one.cycle) takes.now }
    requires place { place ≡ passed (λ one. one.cycle) time takes.now }
    requires to { time ≤ to }
    ensures { IsFirst (AsksIn channel_state.now number takes.now place) time to result }
{
    if channel_state.taken < channel_state.landed {
        next_pull(channel_state, number, takes, place, time, to)
    } else {
        to
    }
}

// The first where it has words that wait. From row to row it is known how many its receiver takes, and
// since when.
fn next_pull(
    channel_state: &ChannelState,
    number: u32,
    takes: &[Taking],
    place: usize,
    time: u32,
    to: u32,
) -> u32
    requires waits { channel_state.now.taken < channel_state.now.landed }
    requires order { IsNonDecreasingBy (λ one. one.cycle) takes.now }
    requires place { place ≡ passed (λ one. one.cycle) time takes.now }
    requires to { time ≤ to }
    ensures { IsFirst (AsksIn channel_state.now number takes.now place) time to result }
{
    let end = to.min(channel_state.fin);
    let mut pull = channel_state.pull;
    let mut since = time.max(channel_state.go);
    let mut at = place;
    'rows: while is_before(takes, at, limit_of(pull, since, end)) {
        let row = takes[at];
        if row.number == number {
            pull = row.pull;
            since = since.max(row.cycle);
        }
        at += 1;
    }
    if pull > 0 && since < end { since } else { to }
}

// Up to which cycle rows count, where a receiver takes so many words since a cycle: where it takes some,
// those of that cycle and before, and else all below the end.
fn limit_of(pull: u32, since: u32, end: u32) -> u32
    ensures none { pull ≡ 0 → result ≡ end }
    ensures some { 0 < pull → result ≡ min end (since + 1) }
{
    if pull == 0 {
        end
    } else {
        end.min(since.saturating_add(1))
    }
}

// Whether the row at a place is there and of a cycle below a limit.
fn is_before(takes: &[Taking], place: usize, limit: u32) -> bool
    requires { IsNonDecreasingBy (λ one. one.cycle) takes.now }
    ensures exact { IsTrue result ↔ (place < passed (λ one. one.cycle) limit takes.now) }
    ensures fits { IsTrue result → place + 1 < 2 ^ 64 }
{
    if place < takes.len() {
        let row = takes[place];
        row.cycle < limit
    } else {
        false
    }
}

// The place behind the rows before a cycle, from one on that is not behind it.
pub(crate) fn place_before(takes: &[Taking], from: usize, to: u32) -> usize
    requires order { IsNonDecreasingBy (λ one. one.cycle) takes.now }
    requires from { from ≤ passed (λ one. one.cycle) to takes.now }
    ensures place { result ≡ passed (λ one. one.cycle) to takes.now }
    ensures after { from ≤ result }
    ensures within { result ≤ length takes.now }
{
    let mut place = from;
    'rows: while is_before(takes, place, to) {
        place += 1;
    }
    place
}

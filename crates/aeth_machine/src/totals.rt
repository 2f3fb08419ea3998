// What the log of a run comes to.
ghost use Rattle.aeth_machine.specs.Totals.{late_in, late_rows};
ghost use Rattle.aeth_report.specs.Limits.{max_total};
ghost use Rattle.aeth_report.specs.Regular.{landings_in, offered_in};
ghost use Rattle.std.specs.Prelude.{◌≡◌, ◌≤◌, length, sum, sum_by};

use aeth_report::{ChannelLog, Landing, SessionLog};

/// The words that were offered in sessions.
pub fn offered(channels: &[ChannelLog]) -> u64
    requires { sum_by offered_in channels.now ≤ max_total }
    ensures { result ≡ sum_by offered_in channels.now }
{
    channels
        .iter()
        .map(|one| offered_in(&one.sessions))
        .sum::<u128>() as u64
}

// Those of the sessions of a channel.
fn offered_in(sessions: &[SessionLog]) -> u128
    ensures { result ≡ sum_by (λ session. session.offered) sessions.now }
{
    sessions
        .iter()
        .map(|session| u128::from(session.offered))
        .sum()
}

/// The words that were offered outside of all sessions.
pub fn outside(channels: &[ChannelLog]) -> u64
    requires { sum_by (λ one. one.outside) channels.now ≤ max_total }
    ensures { result ≡ sum_by (λ one. one.outside) channels.now }
{
    channels.iter().map(|one| u64::from(one.outside)).sum()
}

/// The landings.
pub fn landings(channels: &[ChannelLog]) -> u64
    requires { sum_by landings_in channels.now ≤ max_total }
    ensures { result ≡ sum_by landings_in channels.now }
{
    channels
        .iter()
        .map(|one| landings_in(&one.sessions))
        .sum::<u128>() as u64
}

// Those of the sessions of a channel.
fn landings_in(sessions: &[SessionLog]) -> u128
    ensures { result ≡ sum_by (λ session. length session.rows) sessions.now }
{
    sessions
        .iter()
        .map(|session| session.rows.len() as u128)
        .sum()
}

/// The landings that are later than their due cycle.
pub fn late(channels: &[ChannelLog]) -> u64
    requires { sum_by late_in channels.now ≤ max_total }
    ensures { result ≡ sum_by late_in channels.now }
{
    channels
        .iter()
        .map(|one| late_in(&one.sessions))
        .sum::<u128>() as u64
}

// Those of the sessions of a channel.
fn late_in(sessions: &[SessionLog]) -> u128
    ensures { result ≡ sum_by (λ session. late_rows session.rows) sessions.now }
{
    sessions
        .iter()
        .map(|session| late_rows(&session.rows) as u128)
        .sum()
}

// Those of a session.
fn late_rows(rows: &[Landing]) -> usize
    ensures { result ≡ late_rows rows.now }
{
    rows.iter()
        .filter(|row| row.due < u64::from(row.landed))
        .count()
}

/// The flits on all links.
pub fn flits(counts: &[u32]) -> u64
    requires { sum counts.now ≤ max_total }
    ensures { result ≡ sum counts.now }
{
    counts.iter().map(|&count| u64::from(count)).sum()
}

// What the lines of a plan text say, each at its position.
ghost use Rattle.std.specs.Prelude.{◌≡◌, IfOk};
ghost use Rattle.aeth_base.specs.Faults.{Reads};
ghost use Rattle.aeth_plan.specs.Refusals.{rule_of};
ghost use Rattle.aeth_text.specs.Grammar.{behind, leading, lines_of, rest_of};
ghost use Rattle.aeth_plan.specs.Lines.{body_in, closed, ended, grant_in, seat_in, text_of};

use crate::fault::PlanFault;
use crate::layout::first_grant_line;
use crate::lines::{grant_in, head_in, is_end, seat_in};
use crate::text::{GrantText, PlanText, SeatText};
use aeth_base::NoMemory;
use aeth_text::{line_after, next_line};
use std::alloc::Global;

/// The bytes of a `grant` line of a short path. Memory is asked for at once for as many grants as
/// the text has room for by this, and at most for those that a plan can have.
const GRANT_BYTES: usize = 32;

/// The most grants of a plan: 16 use cases with two channels of each of 512 connections.
const MOST_GRANTS: usize = 16_384;

/// The seats of the lines at the front, and the text behind them.
fn leading_seats(alloc: Global, text: &[u8]) -> Result<(Vec<SeatText>, &[u8]), NoMemory>
    ensures seats { IfOk result (λ p. p.0.items ≡ leading seat_in (lines_of text.now)) }
    ensures lines { IfOk result (λ p. lines_of p.1.now ≡ behind seat_in (lines_of text.now)) }
    ensures rest { IfOk result (λ p. rest_of p.1.now ≡ rest_of text.now) }
{
    let mut seats = Vec::new(alloc);
    let mut left = text;
    'lines: while let Some((line, rest)) = next_line(left) {
        match seat_in(line) {
            Some(seat) => seats.push(seat)?,
            None => return Ok((seats, left)),
        }
        left = rest;
    }
    Ok((seats, left))
}

/// The grants of the lines at the front, in a plan for tables of so many slots, and the text behind
/// them.
fn leading_grants(
    alloc: Global,
    slots: u32,
    text: &[u8],
) -> Result<(Vec<GrantText>, &[u8]), NoMemory>
    ensures grants { IfOk result (λ p. p.0.items ≡ leading grant_in (lines_of text.now)) }
    ensures lines { IfOk result (λ p. lines_of p.1.now ≡ behind grant_in (lines_of text.now)) }
    ensures rest { IfOk result (λ p. rest_of p.1.now ≡ rest_of text.now) }
{
    let mut grants = Vec::with_capacity(alloc, (text.len() / GRANT_BYTES).min(MOST_GRANTS))?;
    let mut left = text;
    'lines: while let Some((line, rest)) = next_line(left) {
        match grant_in(alloc, slots, line)? {
            Some(grant) => grants.push(grant)?,
            None => return Ok((grants, left)),
        }
        left = rest;
    }
    Ok((grants, left))
}

/// Nothing stands behind the end.
fn ended(line: u32, text: &[u8]) -> Result<(), PlanFault>
    ensures { Reads rule_of (λ u. u) result
        (ended line (lines_of text.now) (rest_of text.now)) }
{
    if let Some(_) = next_line(text) {
        return Err(PlanFault::BadLine { line });
    }
    match text {
        [] => Ok(()),
        [_, ..] => Err(PlanFault::BadLine { line }),
    }
}

/// What is left is the end.
fn closed(line: u32, text: &[u8]) -> Result<(), PlanFault>
    ensures { Reads rule_of (λ u. u) result
        (closed line (lines_of text.now) (rest_of text.now)) }
{
    let Some((last, rest)) = next_line(text) else {
        return Err(PlanFault::BadLine { line });
    };
    if !is_end(last) {
        return Err(PlanFault::BadLine { line });
    }
    ended(line_after(line, 1), rest)
}

/// What the lines after the first say.
#[tactic(auto, unfolding(crate::specs::Lines::body_in))]
fn body_in(alloc: Global, slots: u32, text: &[u8]) -> Result<PlanText, PlanFault>
    ensures { Reads rule_of (λ text. text) result
        (body_in slots (lines_of text.now) (rest_of text.now)) }
{
    let (seats, text) = leading_seats(alloc, text)?;
    let (grants, text) = leading_grants(alloc, slots, text)?;
    let line = line_after(first_grant_line(&seats), grants.len());
    closed(line, text)?;
    Ok(PlanText {
        slots,
        seats,
        grants,
    })
}

/// What a text says, or the first line that hasn't its form at its position.
#[tactic(auto, unfolding(crate::specs::Lines::text_of))]
pub(crate) fn text_of(alloc: Global, text: &[u8]) -> Result<PlanText, PlanFault>
    ensures { Reads rule_of (λ text. text) result (text_of text.now) }
{
    let Some((first, text)) = next_line(text) else {
        return Err(PlanFault::BadLine { line: 1 });
    };
    match head_in(first) {
        Some(slots) => body_in(alloc, slots, text),
        None => Err(PlanFault::BadLine { line: 1 }),
    }
}

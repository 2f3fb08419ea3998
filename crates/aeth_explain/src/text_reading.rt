// What the lines of a text of certificates say, each at its position.
ghost use Rattle.std.specs.Prelude.{◌≡◌, IfOk};
ghost use Rattle.aeth_base.specs.Faults.{Reads};
ghost use Rattle.aeth_explain.specs.CutsFaults.{rule_of};
ghost use Rattle.aeth_explain.specs.Texts.{body_in, headless, line_in, text_of};
ghost use Rattle.aeth_plan.specs.Lines.{closed, ended, is_end};
ghost use Rattle.aeth_text.specs.Grammar.{behind, leading, lines_of, rest_of};

use crate::cuts_fault::CutsFault;
use crate::text_lines::{LineText, is_head, line_in};
use aeth_base::NoMemory;
use aeth_text::{line_after, next_line};
use std::alloc::Global;

/// The lines of either form at the front, and the text behind them.
fn leading_lines(alloc: Global, text: &[u8]) -> Result<(Vec<LineText>, &[u8]), NoMemory>
    ensures front { IfOk result (λ p. p.0.items ≡ leading line_in (lines_of text.now)) }
    ensures lines { IfOk result (λ p. lines_of p.1.now ≡ behind line_in (lines_of text.now)) }
    ensures rest { IfOk result (λ p. rest_of p.1.now ≡ rest_of text.now) }
{
    let mut front = Vec::new(alloc);
    let mut left = text;
    'lines: while let Some((line, rest)) = next_line(left) {
        match line_in(line) {
            Some(words) => front.push(words)?,
            None => return Ok((front, left)),
        }
        left = rest;
    }
    Ok((front, left))
}

/// The first line is no `cut`.
fn headless(lines: &[LineText]) -> Result<(), CutsFault>
    ensures { Reads rule_of (λ u. u) result (headless lines.now) }
{
    let [first, ..] = lines else {
        return Ok(());
    };
    match first {
        LineText::Try { .. } => Ok(()),
        LineText::Cut { .. } => Err(CutsFault::BadLine { line: 2 }),
    }
}

/// `end`.
#[tactic(auto, unfolding(aeth_plan::specs::Lines::is_end))]
fn is_end(line: &[u8]) -> bool
    ensures { result ≡ is_end line.now }
{
    line == b"end".as_slice()
}

/// Nothing stands behind the end.
fn ended(line: u32, text: &[u8]) -> Result<(), CutsFault>
    ensures { Reads rule_of (λ u. u) result
        (ended line (lines_of text.now) (rest_of text.now)) }
{
    if let Some(_) = next_line(text) {
        return Err(CutsFault::BadLine { line });
    }
    match text {
        [] => Ok(()),
        [_, ..] => Err(CutsFault::BadLine { line }),
    }
}

/// What is left is the end.
fn closed(line: u32, text: &[u8]) -> Result<(), CutsFault>
    ensures { Reads rule_of (λ u. u) result
        (closed line (lines_of text.now) (rest_of text.now)) }
{
    let Some((last, rest)) = next_line(text) else {
        return Err(CutsFault::BadLine { line });
    };
    if !is_end(last) {
        return Err(CutsFault::BadLine { line });
    }
    ended(line_after(line, 1), rest)
}

/// What the lines after the first say.
#[tactic(auto, unfolding(crate::specs::Texts::body_in))]
fn body_in(alloc: Global, text: &[u8]) -> Result<Vec<LineText>, CutsFault>
    ensures { Reads rule_of (λ lines. lines.items) result
        (body_in (lines_of text.now) (rest_of text.now)) }
{
    let (front, text) = leading_lines(alloc, text)?;
    headless(&front)?;
    let line = line_after(2, front.len());
    closed(line, text)?;
    Ok(front)
}

/// What a text says, or the first line that hasn't its form at its position.
#[tactic(auto, unfolding(crate::specs::Texts::text_of))]
pub(crate) fn text_of(alloc: Global, text: &[u8]) -> Result<Vec<LineText>, CutsFault>
    ensures { Reads rule_of (λ lines. lines.items) result (text_of text.now) }
{
    let Some((first, text)) = next_line(text) else {
        return Err(CutsFault::BadLine { line: 1 });
    };
    if !is_head(first) {
        return Err(CutsFault::BadLine { line: 1 });
    }
    body_in(alloc, text)
}

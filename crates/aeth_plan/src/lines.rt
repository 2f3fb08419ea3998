// The lines of a plan text, each by its fields.
ghost use Rattle.aeth_base.specs.Name.{name_of};
ghost use Rattle.aeth_text.specs.Fields.{ascending_in, links_in, number_in, side_in};
ghost use Rattle.aeth_text.specs.Grammar.{both, field, last_field, words_left};
ghost use Rattle.aeth_text.specs.Limits.{space};
ghost use Rattle.std.specs.Prelude.{◌≡◌, IfOk, MatchOption, None, Some, option_map};
ghost use Rattle.aeth_plan.specs.Lines.{grant_in, grant_text, head_in, is_end, seat_in, seat_text};

use crate::starts::Starts;
use crate::text::{GrantText, SeatText};
use aeth_base::{Name, NoMemory, Path, Side};
use aeth_text::{links_in, next_word, number_in, side_in};
use std::alloc::Global;

/// `plan 1 SLOTS`.
#[tactic(auto, unfolding(crate::specs::Lines::head_in))]
pub(crate) fn head_in(line: &[u8]) -> Option<u32>
    ensures { result ≡ head_in line.now }
{
    let (first, words) = next_word(Some(line), b' ')?;
    if first != b"plan".as_slice() {
        return None;
    }
    let (version, words) = next_word(words, b' ')?;
    if version != b"1".as_slice() {
        return None;
    }
    last_number(words)
}

/// The number that is left of a line.
fn last_number(words: Option<&[u8]>) -> Option<u32>
    ensures { result ≡ last_field number_in (words_left space words.entry) }
{
    let (word, words) = next_word(words, b' ')?;
    match next_word(words, b' ') {
        Some(_) => None,
        None => number_in(word),
    }
}

/// `seat CORE NI SEAT`.
#[tactic(auto, unfolding(crate::specs::Lines::seat_in))]
pub(crate) fn seat_in(line: &[u8]) -> Option<SeatText>
    ensures { result ≡ seat_in line.now }
{
    let (first, words) = next_word(Some(line), b' ')?;
    if first != b"seat".as_slice() {
        return None;
    }
    seat_fields(words)
}

/// `CORE NI SEAT`, where they are left of a line.
fn seat_fields(words: Option<&[u8]>) -> Option<SeatText>
    ensures { result ≡ option_map seat_text (field name_of (field name_of (last_field number_in))
        (words_left space words.entry)) }
{
    let (core, words) = next_word(words, b' ')?;
    let core = Name::new(core)?;
    let (ni, words) = next_word(words, b' ')?;
    let ni = Name::new(ni)?;
    let seat = last_number(words)?;
    Some(SeatText { core, ni, seat })
}

/// The fields of `grant CONN GROUP SIDE LINKS STARTS`, of which the last is left as it stands.
#[tactic(auto, unfolding(crate::specs::Lines::grant_in))]
fn grant_words(line: &[u8]) -> Option<(Name, u32, Side, Path, &[u8])>
    ensures { MatchOption result (grant_in line.now ≡ None) (λ f. grant_in line.now
        ≡ option_map grant_text (both (Some f.0) (both (Some f.1) (both (Some f.2)
        (both (Some f.3) (ascending_in f.4.now)))))) }
{
    let (first, words) = next_word(Some(line), b' ')?;
    if first != b"grant".as_slice() {
        return None;
    }
    match grant_fields(words) {
        Some(fields) => Some(fields),
        None => None,
    }
}

/// `CONN GROUP SIDE LINKS STARTS`, where they are left of a line.
fn grant_fields(words: Option<&[u8]>) -> Option<(Name, u32, Side, Path, &[u8])>
    ensures { MatchOption result (field name_of (field number_in (field side_in (field links_in
        (last_field ascending_in)))) (words_left space words.entry) ≡ None)
        (λ f. field name_of (field number_in (field side_in (field links_in
        (last_field ascending_in)))) (words_left space words.entry)
        ≡ both (Some f.0) (both (Some f.1) (both (Some f.2) (both (Some f.3)
        (ascending_in f.4.now))))) }
{
    let (conn, words) = next_word(words, b' ')?;
    let conn = Name::new(conn)?;
    let (group, words) = next_word(words, b' ')?;
    let group = number_in(group)?;
    match slot_fields(words) {
        Some((side, links, starts)) => Some((conn, group, side, links, starts)),
        None => None,
    }
}

/// `SIDE LINKS STARTS`, where they are left of a line.
fn slot_fields(words: Option<&[u8]>) -> Option<(Side, Path, &[u8])>
    ensures { MatchOption result (field side_in (field links_in (last_field ascending_in))
        (words_left space words.entry) ≡ None)
        (λ f. field side_in (field links_in (last_field ascending_in))
        (words_left space words.entry)
        ≡ both (Some f.0) (both (Some f.1) (ascending_in f.2.now))) }
{
    let (side, words) = next_word(words, b' ')?;
    let side = side_in(side)?;
    let (links, words) = next_word(words, b' ')?;
    let links = links_in(links)?;
    let (starts, words) = next_word(words, b' ')?;
    match next_word(words, b' ') {
        Some(_) => None,
        None => Some((side, links, starts)),
    }
}

/// `grant CONN GROUP SIDE LINKS STARTS`, in a plan for tables of so many slots.
#[tactic(auto, unfolding(crate::specs::Lines::grant_in))]
pub(crate) fn grant_in(
    alloc: Global,
    slots: u32,
    line: &[u8],
) -> Result<Option<GrantText>, NoMemory>
    ensures { IfOk result (λ found. found ≡ grant_in line.now) }
{
    let Some((conn, group, side, links, starts)) = grant_words(line) else {
        return Ok(None);
    };
    let Some(starts) = Starts::of(alloc, slots, starts)? else {
        return Ok(None);
    };
    Ok(Some(GrantText {
        conn,
        group,
        side,
        links,
        starts,
    }))
}

/// `end`.
#[tactic(auto, unfolding(crate::specs::Lines::is_end))]
pub(crate) fn is_end(line: &[u8]) -> bool
    ensures { result ≡ is_end line.now }
{
    line == b"end".as_slice()
}

// Printing the lines of a log.
ghost use Rattle.aeth_report.specs.LogText.{drop_line, drop_lines, head_line, landing_line};
ghost use Rattle.aeth_report.specs.LogText.{landing_room};
ghost use Rattle.aeth_report.specs.LogText.{link_line, outside_line, outside_lines, session_line};
ghost use Rattle.aeth_report.specs.LogText.{state_word};
ghost use Rattle.aeth_report.specs.Regular.{IsOrdered};
ghost use Rattle.aeth_text.specs.Limits.{line_feed, space};
ghost use Rattle.aeth_text.specs.Spelling.{ended_line, side_word, text_of_lines};
ghost use Rattle.std.specs.Prelude.{◌≡◌, ◌≤◌, ◌++◌, ◌∷◌, [], OnErr, OnOk, decimal, drop, length};

use crate::log::{Landing, SessionLog};
use aeth_base::{NoMemory, Side, push_number};
use aeth_text::{push_side, write_field, write_text};

/// The most bytes of the line of a landing.
const LANDING_ROOM: usize = 110;

// Appends a space and a number.
fn push_field(out: &mut Vec<u8>, n: u64) -> Result<(), NoMemory>
    ensures { OnOk result (out.new.items ≡ out.old.items ++ space ∷ decimal n) }
{
    out.push(b' ')?;
    push_number(out, n)
}

// Appends two fields, each a number.
fn push_pair(out: &mut Vec<u8>, a: u64, b: u64) -> Result<(), NoMemory>
    ensures { OnOk result (out.new.items
        ≡ out.old.items ++ space ∷ (decimal a ++ space ∷ decimal b)) }
{
    push_field(out, a)?;
    push_field(out, b)
}

// Appends the first line.
#[tactic(auto, unfolding(crate::specs::LogText::head_line))]
pub(crate) fn push_head(out: &mut Vec<u8>, cycles: u32) -> Result<(), NoMemory>
    ensures { OnOk result (out.new.items ≡ out.old.items ++ ended_line (head_line cycles)) }
{
    out.extend_from_slice(b"sim 1")?;
    push_field(out, cycles as u64)?;
    out.push(b'\n')?;
    Ok(())
}

// Appends a space and the word of a state.
#[tactic(auto, unfolding(crate::specs::LogText::state_word))]
fn push_state(out: &mut Vec<u8>, ended: bool) -> Result<(), NoMemory>
    ensures { OnOk result (out.new.items ≡ out.old.items ++ space ∷ state_word ended) }
{
    let word = if ended {
        b" ended".as_slice()
    } else {
        b" running".as_slice()
    };
    out.extend_from_slice(word)?;
    Ok(())
}

// Appends the name and the side of a channel, each after a space.
fn push_channel(out: &mut Vec<u8>, name: &[u8], side: Side) -> Result<(), NoMemory>
    ensures { OnOk result (out.new.items
        ≡ out.old.items ++ space ∷ (name.now ++ space ∷ side_word side)) }
{
    out.push(b' ')?;
    out.extend_from_slice(name)?;
    out.push(b' ')?;
    push_side(out, side)
}

// Appends the counts of a session, and a line feed.
fn push_counts(out: &mut Vec<u8>, session: &SessionLog) -> Result<(), NoMemory>
    ensures { OnOk result (out.new.items ≡ out.old.items ++ space ∷ (decimal session.now.offered
        ++ space ∷ (decimal session.now.landed ++ space ∷ (decimal session.now.taken
        ++ line_feed ∷ [])))) }
{
    push_field(out, session.offered as u64)?;
    push_pair(out, session.landed as u64, session.taken as u64)?;
    out.push(b'\n')?;
    Ok(())
}

// Appends the line of a session.
#[tactic(auto, unfolding(crate::specs::LogText::session_line))]
pub(crate) fn push_session_line(
    out: &mut Vec<u8>,
    name: &[u8],
    side: Side,
    session: &SessionLog,
) -> Result<(), NoMemory>
    ensures { OnOk result (out.new.items
        ≡ out.old.items ++ ended_line (session_line name.now side session.now)) }
{
    out.extend_from_slice(b"chan")?;
    push_channel(out, name, side)?;
    push_field(out, session.go)?;
    push_state(out, session.ended)?;
    push_counts(out, session)
}

// Writes the line of a landing at the end of its room, and gives the place at which it begins.
fn write_landing(line: &mut [u8], index: u64, row: &Landing) -> usize
    requires { length line.old ≡ landing_room }
    ensures written { drop result line.new ≡ ended_line (landing_line (index, row.now)) }
    ensures within { result ≤ length line.new }
{
    let at = write_field(line, row.value as u64, b'\n', LANDING_ROOM);
    let at = write_field(line, row.due, b' ', at);
    let at = write_field(line, row.landed as u64, b' ', at);
    let at = write_field(line, row.offered as u64, b' ', at);
    let at = write_field(line, index, b' ', at);
    write_text(line, b"land ", at)
}

// Appends the line of a landing with its number.
pub(crate) fn push_landing(out: &mut Vec<u8>, index: u64, row: &Landing) -> Result<(), NoMemory>
    ensures ok { OnOk result (out.new.items
        ≡ out.old.items ++ ended_line (landing_line (index, row.now))) }
    ensures err { OnErr result (out.new.items ≡ out.old.items) }
{
    let mut line = [0; LANDING_ROOM];
    let start = write_landing(&mut line, index, row);
    out.extend_from_slice(&line[start..])?;
    Ok(())
}

// Appends what was dropped of a session that has ended.
#[tactic(auto, unfolding(crate::specs::LogText::drop_line))]
pub(crate) fn push_dropped(out: &mut Vec<u8>, session: &SessionLog) -> Result<(), NoMemory>
    requires { IsOrdered session.now }
    ensures { OnOk result (out.new.items ≡ out.old.items ++ text_of_lines (drop_lines session.now)) }
{
    if !session.ended {
        return Ok(());
    }
    let unlanded = session.offered - session.landed;
    let untaken = session.landed - session.taken;
    out.extend_from_slice(b"drop")?;
    push_pair(out, unlanded as u64, untaken as u64)?;
    out.push(b'\n')?;
    Ok(())
}

// Appends the words outside of all sessions, where there are any.
#[tactic(auto, unfolding(crate::specs::LogText::outside_line))]
pub(crate) fn push_outside(
    out: &mut Vec<u8>,
    name: &[u8],
    side: Side,
    count: u32,
) -> Result<(), NoMemory>
    ensures { OnOk result (out.new.items
        ≡ out.old.items ++ text_of_lines (outside_lines name.now side count)) }
{
    if count == 0 {
        return Ok(());
    }
    out.extend_from_slice(b"outside")?;
    push_channel(out, name, side)?;
    push_field(out, count as u64)?;
    out.push(b'\n')?;
    Ok(())
}

// Appends the line of a link with its number.
#[tactic(auto, unfolding(crate::specs::LogText::link_line))]
pub(crate) fn push_link(out: &mut Vec<u8>, link: u64, flits: u32) -> Result<(), NoMemory>
    ensures { OnOk result (out.new.items ≡ out.old.items ++ ended_line (link_line (link, flits))) }
{
    out.extend_from_slice(b"link")?;
    push_pair(out, link, flits as u64)?;
    out.push(b'\n')?;
    Ok(())
}

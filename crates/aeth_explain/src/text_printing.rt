// Printing certificates.
ghost use Rattle.std.specs.Prelude.{◌≡◌, ◌++◌, ◌∷◌, [], IfOk, OnErr, OnOk, codes, decimal};
ghost use Rattle.std.specs.Prelude.{length, map, take};
ghost use Rattle.aeth_explain.specs.CutsText.{block_lines, cut_line, cuts_text, line_of, try_line};
ghost use Rattle.aeth_app.specs.Connections.{connection_names};
ghost use Rattle.aeth_plan.specs.Plan.{name_at};
ghost use Rattle.aeth_text.specs.Limits.{line_feed, space};
ghost use Rattle.aeth_text.specs.Spelling.{ended_line, side_word, text_of_lines};

use crate::cuts::Cuts;
use crate::try_line::TryLine;
use aeth_app::App;
use aeth_base::{ConnId, NoMemory, Path, push_number};
use aeth_paths::Trial;
use aeth_text::{push_links, push_side};
use std::alloc::Global;

/// Appends the fields of a try's line behind its connection, and its line feed.
fn push_try_end(out: &mut Vec<u8>, line: &TryLine) -> Result<(), NoMemory>
    ensures ok { OnOk result (out.new.items ≡ out.old.items ++ space ∷ (decimal line.now.unit.group.0
        ++ space ∷ (side_word line.now.side ++ space ∷ (decimal line.now.turn
        ++ line_feed ∷ [])))) }
    ensures err { OnErr result (take (length out.old.items) out.new.items ≡ out.old.items) }
{
    out.push(b' ')?;
    push_number(out, line.unit.group.0 as u64)?;
    out.push(b' ')?;
    push_side(out, line.side)?;
    out.push(b' ')?;
    push_number(out, line.turn as u64)?;
    out.push(b'\n')?;
    Ok(())
}

/// Appends the name of a connection; no bytes where there is none of that number.
fn push_name(out: &mut Vec<u8>, app: &App, conn: ConnId) -> Result<(), NoMemory>
    ensures ok { OnOk result (out.new.items
        ≡ out.old.items ++ name_at (connection_names app.now) conn.0) }
    ensures err { OnErr result (out.new.items ≡ out.old.items) }
{
    if conn.0 < app.connections() {
        let connection = app.connection(conn);
        out.extend_from_slice(connection.name.as_bytes())?;
    }
    Ok(())
}

/// Appends the line of a try.
#[tactic(auto, unfolding(crate::specs::CutsText::try_line))]
fn push_try(out: &mut Vec<u8>, app: &App, line: &TryLine) -> Result<(), NoMemory>
    ensures ok { OnOk result (out.new.items
        ≡ out.old.items ++ ended_line (try_line app.now line.now)) }
    ensures err { OnErr result (take (length out.old.items) out.new.items ≡ out.old.items) }
{
    out.extend_from_slice(b"try ")?;
    push_name(out, app, line.unit.conn)?;
    push_try_end(out, line)
}

/// Appends the line of a cut.
#[tactic(auto, unfolding(crate::specs::CutsText::cut_line))]
fn push_cut(out: &mut Vec<u8>, path: &Path) -> Result<(), NoMemory>
    ensures ok { OnOk result (out.new.items ≡ out.old.items ++ ended_line (cut_line path.now)) }
    ensures err { OnErr result (take (length out.old.items) out.new.items ≡ out.old.items) }
{
    out.extend_from_slice(b"cut ")?;
    push_links(out, path)?;
    out.push(b'\n')?;
    Ok(())
}

/// Appends the lines of cuts.
fn push_cuts(out: &mut Vec<u8>, cuts: &[Path]) -> Result<(), NoMemory>
    ensures ok { OnOk result (out.new.items
        ≡ out.old.items ++ text_of_lines (map cut_line cuts.now)) }
    ensures err { OnErr result (take (length out.old.items) out.new.items ≡ out.old.items) }
{
    for cut in cuts {
        push_cut(out, cut)?;
    }
    Ok(())
}

/// Appends the first line of a text of certificates.
pub fn push_head(out: &mut Vec<u8>) -> Result<(), NoMemory>
    ensures ok { OnOk result (out.new.items ≡ out.old.items ++ ended_line (codes "explain 1")) }
    ensures err { OnErr result (out.new.items ≡ out.old.items) }
{
    out.extend_from_slice(b"explain 1\n")?;
    Ok(())
}

/// Appends the line of a try and those of its cuts. Where memory is wanting, all that stood there still does, at
/// the front.
pub fn push_block(out: &mut Vec<u8>, app: &App, line: &TryLine, cuts: &Cuts) -> Result<(), NoMemory>
    ensures ok { OnOk result (out.new.items
        ≡ out.old.items ++ text_of_lines (block_lines app.now line.now cuts.now)) }
    ensures err { OnErr result (take (length out.old.items) out.new.items ≡ out.old.items) }
{
    push_try(out, app, line)?;
    push_cuts(out, cuts.list())
}

/// Appends the last line.
pub fn push_end(out: &mut Vec<u8>) -> Result<(), NoMemory>
    ensures ok { OnOk result (out.new.items ≡ out.old.items ++ ended_line (codes "end")) }
    ensures err { OnErr result (out.new.items ≡ out.old.items) }
{
    out.extend_from_slice(b"end\n")?;
    Ok(())
}

/// The text of tries and their cuts. `Err` where there was no memory.
#[tactic(auto, unfolding(crate::specs::CutsText::cuts_text))]
pub fn cuts_text(
    alloc: Global,
    trials: &[Trial],
    cuts: &[Cuts],
    app: &App,
) -> Result<Vec<u8>, NoMemory>
    requires { length trials.now ≡ length cuts.now }
    ensures { IfOk result (λ text. text.items
        ≡ cuts_text app.now (map line_of trials.now) cuts.now) }
{
    let mut out = Vec::new(alloc);
    push_head(&mut out)?;
    for i in 0..trials.len() {
        let line = TryLine::of(&trials[i]);
        push_block(&mut out, app, &line, &cuts[i])?;
    }
    push_end(&mut out)?;
    Ok(out)
}

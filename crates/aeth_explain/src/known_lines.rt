// What the lines of a text of certificates name on a chip and in an application, and whether they tell
// of the tries.
ghost use Rattle.std.specs.Prelude.{◌≡◌, IfOk};
ghost use Rattle.aeth_base.specs.Faults.{Reads};
ghost use Rattle.aeth_explain.specs.CutsFaults.{rule_of};
ghost use Rattle.aeth_explain.specs.CutsText.{blocks_of, cuts_behind, known_line, matched};
ghost use Rattle.aeth_plan.specs.Rules.{each, holds};

use crate::cuts::Cuts;
use crate::cuts_fault::CutsFault;
use crate::text_lines::LineText;
use crate::try_line::{KnownLine, TryLine};
use aeth_app::App;
use aeth_base::{GroupId, NoMemory, Unit};
use aeth_chip::Chip;
use aeth_group::Groups;
use aeth_text::line_after;
use std::alloc::Global;

/// A field of a line passes its test.
fn holds(line: u32, field: u32, test: bool) -> Result<(), CutsFault>
    ensures { Reads rule_of (λ u. u) result (holds line field test) }
{
    if test {
        Ok(())
    } else {
        Err(CutsFault::Unknown { line, field })
    }
}

/// What a line's fields name.
#[tactic(auto, unfolding(crate::specs::CutsText::known_line))]
fn known_line(
    chip: &Chip,
    app: &App,
    groups: &Groups,
    line: u32,
    text: &LineText,
) -> Result<KnownLine, CutsFault>
    ensures { Reads rule_of (λ known. known) result
        (known_line chip.now app.now groups.now line text.now) }
{
    match text {
        LineText::Try { words } => {
            let Some(conn) = app.find_connection(&words.conn) else {
                return Err(CutsFault::Unknown { line, field: 2 });
            };
            holds(line, 3, words.group < groups.count())?;
            let group = GroupId(words.group);
            Ok(KnownLine::Tried {
                line: TryLine {
                    unit: Unit { conn, group },
                    side: words.side,
                    turn: words.turn,
                },
            })
        }
        LineText::Cut { links } => {
            holds(line, 2, chip.has_links(links))?;
            Ok(KnownLine::Listed { path: *links })
        }
    }
}

/// What the fields of all lines name, from the second on, or the first unknown one.
pub(crate) fn known_lines(
    alloc: Global,
    chip: &Chip,
    app: &App,
    groups: &Groups,
    texts: &[LineText],
) -> Result<Vec<KnownLine>, CutsFault>
    ensures { Reads rule_of (λ known. known.items) result
        (each (known_line chip.now app.now groups.now) 2 texts.now) }
{
    let mut line = 2;
    let mut known = Vec::new(alloc);
    for text in texts {
        known.push(known_line(chip, app, groups, line, text)?)?;
        line = line_after(line, 1);
    }
    Ok(known)
}

/// The `try` lines are those of the tries, and the end comes behind the last.
pub(crate) fn matched(known: &[KnownLine], tries: &[TryLine]) -> Result<(), CutsFault>
    ensures { Reads rule_of (λ u. u) result (matched 2 known.now tries.now) }
{
    let mut line = 2;
    let mut left = tries;
    for one in known {
        if let KnownLine::Tried { line: other } = one {
            let [own, rest @ ..] = left else {
                return Err(CutsFault::WrongTry { line });
            };
            if !own.is(other) {
                return Err(CutsFault::WrongTry { line });
            }
            left = rest;
        }
        line = line_after(line, 1);
    }
    match left {
        [] => Ok(()),
        [_, ..] => Err(CutsFault::WrongTry { line }),
    }
}

/// The lists up to the next `try`.
fn cuts_behind(alloc: Global, known: &[KnownLine]) -> Result<Cuts, NoMemory>
    ensures { IfOk result (λ cuts. cuts ≡ cuts_behind known.now) }
{
    let mut cuts = Cuts::new(alloc);
    for one in known {
        match one {
            KnownLine::Tried { .. } => return Ok(cuts),
            KnownLine::Listed { path } => cuts.push(*path)?,
        }
    }
    Ok(cuts)
}

/// The lists behind each `try`.
pub(crate) fn blocks_of(alloc: Global, known: &[KnownLine]) -> Result<Vec<Cuts>, NoMemory>
    ensures { IfOk result (λ blocks. blocks.items ≡ blocks_of known.now) }
{
    let mut blocks = Vec::new(alloc);
    let mut left = known;
    'lines: while let [one, rest @ ..] = left {
        if let KnownLine::Tried { .. } = one {
            blocks.push(cuts_behind(alloc, rest)?)?;
        }
        left = rest;
    }
    Ok(blocks)
}

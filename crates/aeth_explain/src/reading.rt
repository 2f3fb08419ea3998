// Reading certificates.
ghost use Rattle.std.specs.Prelude.{◌≡◌, All, IfOk, length, map};
ghost use Rattle.aeth_base.specs.Faults.{Reads};
ghost use Rattle.aeth_explain.specs.CutsFaults.{rule_of};
ghost use Rattle.aeth_explain.specs.CutsText.{AreLinksOf, cuts_of_text, line_of};

use crate::cuts::Cuts;
use crate::cuts_fault::CutsFault;
use crate::known_lines::{blocks_of, known_lines, matched};
use crate::text_reading::text_of;
use crate::try_line::TryLine;
use aeth_app::App;
use aeth_base::NoMemory;
use aeth_chip::Chip;
use aeth_group::Groups;
use aeth_paths::Trial;
use std::alloc::Global;

/// The lists of links that a text has for each try, of which these are the lines.
#[tactic(auto, unfolding(crate::specs::CutsText::cuts_of_text))]
fn cuts_of_text(
    alloc: Global,
    bytes: &[u8],
    chip: &Chip,
    app: &App,
    groups: &Groups,
    tries: &[TryLine],
) -> Result<Vec<Cuts>, CutsFault>
    ensures { Reads rule_of (λ blocks. blocks.items) result
        (cuts_of_text chip.now app.now groups.now tries.now bytes.now) }
{
    let lines = text_of(alloc, bytes)?;
    let known = known_lines(alloc, chip, app, groups, &lines)?;
    matched(&known, tries)?;
    Ok(blocks_of(alloc, &known)?)
}

/// The lists of links that a text has for each try, of which these are the lines, or the first rule that
/// the text breaks; or memory ran out.
pub fn read_blocks(
    alloc: Global,
    bytes: &[u8],
    chip: &Chip,
    app: &App,
    groups: &Groups,
    tries: &[TryLine],
) -> Result<Vec<Cuts>, CutsFault>
    ensures reads { Reads rule_of (λ blocks. blocks.items) result
        (cuts_of_text chip.now app.now groups.now tries.now bytes.now) }
    ensures links { IfOk result (λ blocks. All (AreLinksOf chip.now) blocks.items) }
    ensures count { IfOk result (λ blocks. length blocks.items ≡ length tries.now) }
{
    cuts_of_text(alloc, bytes, chip, app, groups, tries)
}

/// The lines of tries.
fn lines_of(alloc: Global, trials: &[Trial]) -> Result<Vec<TryLine>, NoMemory>
    ensures { IfOk result (λ lines. lines.items ≡ map line_of trials.now) }
{
    let mut lines = Vec::new(alloc);
    for trial in trials {
        lines.push(TryLine::of(trial))?;
    }
    Ok(lines)
}

/// The lists of links that a text has for each of these tries, or the first rule that the text breaks; or
/// memory ran out.
pub fn read_cuts(
    alloc: Global,
    bytes: &[u8],
    chip: &Chip,
    app: &App,
    groups: &Groups,
    trials: &[Trial],
) -> Result<Vec<Cuts>, CutsFault>
    ensures reads { Reads rule_of (λ blocks. blocks.items) result
        (cuts_of_text chip.now app.now groups.now (map line_of trials.now) bytes.now) }
    ensures links { IfOk result (λ blocks. All (AreLinksOf chip.now) blocks.items) }
    ensures count { IfOk result (λ blocks. length blocks.items ≡ length trials.now) }
{
    let tries = lines_of(alloc, trials)?;
    read_blocks(alloc, bytes, chip, app, groups, &tries)
}

// Files of traces that a command reads and judges.
ghost use Rattle.aeth_answers.specs.Files.{judgement};
ghost use Rattle.aeth_answers.specs.Places.{Files, files_of};
ghost use Rattle.aeth_answers.specs.Stop.{Judges};
ghost use Rattle.aeth_run_files.specs.TraceFiles.{receivers_file};
ghost use Rattle.aeth_run_files.specs.TraceFiles.{switches_file, words_file};
ghost use Rattle.aeth_group.specs.Members.{groups_of};
ghost use Rattle.aeth_plan.specs.Design.{IsDesign};
ghost use Rattle.aeth_tables.specs.Switching.{spans_of};
ghost use Rattle.aeth_trace.specs.Receivers.{AreReceiversOf, receivers_of};
ghost use Rattle.aeth_trace.specs.Spans.{SpanData};
ghost use Rattle.aeth_trace.specs.Switches.{AreSwitchesOf, switches_of};
ghost use Rattle.aeth_trace.specs.Words.{AreWordsOf, words_of};
ghost use Rattle.std.specs.Prelude.{◌≡◌, IfOk, IfSome, Ok, codes};

use aeth_answers::{FileName, Stop, judged, read_file};
use aeth_app::App;
use aeth_base::NoMemory;
use aeth_io::Shelf;
use aeth_plan::{Design, Planned};
use aeth_tables::spans;
use aeth_trace::{Receivers, Spans, Switches, Words, read_receivers, read_switches, read_words};
use std::alloc::Global;

/// How a file of words is called in texts.
const WORDS: &str = "words";

/// How a file of receivers' rows is called in texts.
const RECEIVERS: &str = "receivers";

/// How a file of switches is called in texts.
const SWITCHES: &str = "switches";

/// How many bytes a file of switches has at most, as a rule, in which no row follows the first.
const SHORT_FILE: usize = 64;

/// The words of a file's bytes, for an application.
pub fn words_in(alloc: Global, app: &App, bytes: &[u8]) -> Result<Words, Stop>
    ensures judges { (now : Files) → Judges now now
        (judgement (codes "words") (words_of app.now bytes.now)) (λ words. words) result }
    ensures words { IfOk result (AreWordsOf app.now) }
{
    judged(alloc, WORDS, read_words(alloc, bytes, app))
}

/// The receivers' rows of a file's bytes, for an application.
pub fn receivers_in(alloc: Global, app: &App, bytes: &[u8]) -> Result<Receivers, Stop>
    ensures judges { (now : Files) → Judges now now
        (judgement (codes "receivers") (receivers_of app.now bytes.now))
        (λ receivers. receivers) result }
    ensures receivers { IfOk result (AreReceiversOf app.now) }
{
    judged(alloc, RECEIVERS, read_receivers(alloc, bytes, app))
}

/// The switches of a short file's bytes, where no row follows the first. Whatever the plan, the bytes
/// tell these: only a second row asks how long switches take.
fn loaded_alone(alloc: Global, app: &App, bytes: &[u8]) -> Result<Option<Switches>, NoMemory>
    ensures { IfOk result (λ found. IfSome found (λ switches.
        (spans : SpanData) → switches_of app.now spans bytes.now ≡ Ok switches)) }
{
    if bytes.len() > SHORT_FILE {
        return Ok(None);
    }
    let uses = app.uses();
    let spans = Spans::new(uses, vec![in alloc; (0, 0); (uses * uses) as usize]?);
    let Ok(switches) = read_switches(alloc, bytes, app, &spans) else {
        return Ok(None);
    };
    if switches.rows().len() < 2 {
        Ok(Some(switches))
    } else {
        Ok(None)
    }
}

/// The switches of a file's bytes, for an accepted plan, which says how long switches take.
pub fn switches_in(
    alloc: Global,
    design: &Design,
    planned: &Planned,
    bytes: &[u8],
) -> Result<Switches, Stop>
    requires groups { planned.now.groups ≡ groups_of design.now.app }
    requires design { IsDesign design.now.chip design.now.app planned.now.plan }
    ensures judges { (now : Files) → Judges now now
        (judgement (codes "switches") (switches_of design.now.app (spans_of design.now.chip
        design.now.app (groups_of design.now.app) planned.now.plan) bytes.now))
        (λ switches. switches) result }
    ensures switches { IfOk result (AreSwitchesOf design.now.app (spans_of design.now.chip
        design.now.app (groups_of design.now.app) planned.now.plan)) }
{
    let Design { chip, app } = design;
    if let Some(switches) = loaded_alone(alloc, app, bytes)? {
        return Ok(switches);
    }
    let spans = spans(alloc, chip, app, &planned.groups, &planned.plan)?;
    judged(alloc, SWITCHES, read_switches(alloc, bytes, app, &spans))
}

/// The words of a file, for an application.
pub fn read_words_file<H: Shelf>(
    alloc: Global,
    app: &App,
    name: &FileName,
    shelf: &mut H,
) -> Result<Words, Stop>
    ensures judges { Judges (files_of H.Shelf shelf.old) (files_of H.Shelf shelf.new)
        (words_file app.now name.now) (λ words. words) result }
    ensures words { IfOk result (AreWordsOf app.now) }
{
    let bytes = read_file(alloc, WORDS, name, shelf)?;
    words_in(alloc, app, &bytes)
}

/// The receivers' rows of a file, for an application.
pub fn read_receivers_file<H: Shelf>(
    alloc: Global,
    app: &App,
    name: &FileName,
    shelf: &mut H,
) -> Result<Receivers, Stop>
    ensures judges { Judges (files_of H.Shelf shelf.old) (files_of H.Shelf shelf.new)
        (receivers_file app.now name.now) (λ receivers. receivers) result }
    ensures receivers { IfOk result (AreReceiversOf app.now) }
{
    let bytes = read_file(alloc, RECEIVERS, name, shelf)?;
    receivers_in(alloc, app, &bytes)
}

/// The switches of a file, for an accepted plan.
pub fn read_switches_file<H: Shelf>(
    alloc: Global,
    design: &Design,
    planned: &Planned,
    name: &FileName,
    shelf: &mut H,
) -> Result<Switches, Stop>
    requires groups { planned.now.groups ≡ groups_of design.now.app }
    requires design { IsDesign design.now.chip design.now.app planned.now.plan }
    ensures judges { Judges (files_of H.Shelf shelf.old) (files_of H.Shelf shelf.new)
        (switches_file design.now.app (spans_of design.now.chip design.now.app
        (groups_of design.now.app) planned.now.plan) name.now) (λ switches. switches) result }
    ensures switches { IfOk result (AreSwitchesOf design.now.app (spans_of design.now.chip
        design.now.app (groups_of design.now.app) planned.now.plan)) }
{
    let bytes = read_file(alloc, SWITCHES, name, shelf)?;
    switches_in(alloc, design, planned, &bytes)
}

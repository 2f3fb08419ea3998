// Use cases that a command names.
ghost use Rattle.aeth_answers.specs.Places.{Files};
ghost use Rattle.aeth_answers.specs.Refusal.{refused_file};
ghost use Rattle.aeth_answers.specs.Stop.{Judges};
ghost use Rattle.aeth_files.specs.Uses.{named_use, unknown_use};
ghost use Rattle.std.specs.Prelude.{◌≡◌, ◌<◌, IfOk, codes, length};

use aeth_answers::{Answer, Stop};
use aeth_app::App;
use aeth_base::{BrokenRule, Name, NoMemory, Shown, UseId};
use std::alloc::Global;

/// How the word of a use case is called in texts.
const USE: &str = "use";

/// The use case of this name, or the end of the command where no use case has it.
pub fn named_use(alloc: Global, app: &App, name: &Name) -> Result<UseId, Stop>
    ensures judges { (now : Files) → Judges now now (named_use app.now name.now) (λ u. u) result }
    ensures within { IfOk result (λ u. u.0 < length app.now.uses) }
{
    match app.find_use(name) {
        Some(u) => Ok(u),
        None => Err(Stop::Ends(unknown(alloc, name)?)),
    }
}

/// The answer that no use case has this name.
fn unknown(alloc: Global, name: &Name) -> Result<Answer, NoMemory>
    ensures { IfOk result (λ answer. answer ≡ refused_file (codes "use") (unknown_use name.now)) }
{
    let broken = BrokenRule {
        rule: 1,
        name: "UnknownUse",
        place: 0,
        value: Shown::Word(*name),
    };
    Answer::refused_file(alloc, USE, &broken)
}

// The command on refusals, and what it answers.
ghost use Rattle.aeth_answers.specs.Places.{files_of};
ghost use Rattle.aeth_answers.specs.Stop.{Answers};
ghost use Rattle.aeth_explain_commands.specs.Commands.{explain_command, explain_words, refusals_task};
ghost use Rattle.std.specs.Prelude.{◌≡◌, map, string_bytes};

use crate::{confirm, explain};
use aeth_answers::{Answer, FileName, Stop};
use aeth_io::Shelf;
use std::alloc::Global;

/// A command on the units that an allocation refuses.
#[derive(Drop)]
pub enum ExplainCommand<'a> {
    /// `explain CHIP APP`: why channels were refused, by certificates.
    Explain {
        chip: FileName<'a>,
        app: FileName<'a>,
    },
    /// `explain CHIP APP CERT`: whether the certificates of a text are complete.
    Confirm {
        chip: FileName<'a>,
        app: FileName<'a>,
        cert: FileName<'a>,
    },
}

impl<'a> ExplainCommand<'a> {
    /// The command on refusals that a name and the words behind it are, if they are one.
    pub fn of(name: &str, words: &'a [String]) -> Option<ExplainCommand<'a>>
        ensures { result ≡ explain_command name.now (map string_bytes words.now) }
    {
        match name {
            "explain" => command(words),
            _ => None,
        }
    }

    /// What the command asks for, done over the files of a shelf, or what ends it before.
    pub fn answer<H: Shelf>(&self, alloc: Global, shelf: &mut H) -> Result<Answer, Stop>
        ensures { Answers (files_of H.Shelf shelf.old) (files_of H.Shelf shelf.new)
            (refusals_task self.now) result }
    {
        match self {
            ExplainCommand::Explain { chip, app } => explain::answer(alloc, chip, app, shelf),
            ExplainCommand::Confirm { chip, app, cert } => {
                confirm::answer(alloc, chip, app, cert, shelf)
            }
        }
    }
}

/// The command of the words CHIP APP, or CHIP APP CERT.
fn command<'a>(words: &'a [String]) -> Option<ExplainCommand<'a>>
    ensures { result ≡ explain_words (map string_bytes words.now) }
{
    match words {
        [chip, app] => {
            let chip = FileName::new(chip.as_str())?;
            let app = FileName::new(app.as_str())?;
            Some(ExplainCommand::Explain { chip, app })
        }
        [chip, app, cert] => {
            let chip = FileName::new(chip.as_str())?;
            let app = FileName::new(app.as_str())?;
            let cert = FileName::new(cert.as_str())?;
            Some(ExplainCommand::Confirm { chip, app, cert })
        }
        _ => None,
    }
}

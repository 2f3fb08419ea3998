// What a command comes to: a status and a text.
ghost use Rattle.aeth_answers.specs.Job.{done, not_granted, read_fault, usage};
ghost use Rattle.aeth_answers.specs.Refusal.{refusal_front, refused_file, too_long, value_text};
ghost use Rattle.aeth_answers.specs.Stop.{Ended};
ghost use Rattle.std.specs.Prelude.{◌≡◌, ◌++◌, IfOk, OnOk};

use crate::status::Status;
use aeth_base::{BrokenRule, NoMemory, Shown, push_number};
use std::alloc::Global;
use std::marker::Model;

/// The status with which a job ends, and its text, which goes to `out` where the job is done, and
/// else to `err`.
#[derive(Drop)]
pub struct Answer {
    pub status: Status,
    pub text: Vec<u8>,
}

impl Model for Answer {
    ghost use Rattle.aeth_answers.specs.Job.{Job};
    ghost use Rattle.aeth_answers.specs.Status.{status_number};

    ghost Value = { Job };

    ghost view = { λ a. record { status = status_number a.status; text = a.text.items } };
}

/// Why a command doesn't come to its end.
#[derive(Drop)]
pub enum Stop {
    /// It ends before, with an answer.
    Ends(Answer),
    /// Memory was wanting.
    Memory,
}

impl From<NoMemory> for Stop {
    ghost use Rattle.aeth_answers.specs.declared.answer.Stop.TheVariants.{Memory};
    ghost use Rattle.std.specs.Prelude.{◌≡◌};

    ghost from_gives = { λ _ stop. stop ≡ Memory };

    fn from(_: NoMemory) -> Stop {
        Stop::Memory
    }
}

impl Answer {
    /// The job is done, and this is its text.
    pub fn done(text: Vec<u8>) -> Answer
        ensures { result ≡ done text.items }
    {
        Answer {
            status: Status::Done,
            text,
        }
    }

    /// What was asked for can't be granted, for the cause that the text says.
    pub fn not_granted(text: Vec<u8>) -> Answer
        ensures { result ≡ not_granted text.items }
    {
        Answer {
            status: Status::NotGranted,
            text,
        }
    }

    /// The words are no command.
    pub fn usage(alloc: Global) -> Result<Answer, NoMemory>
        ensures { IfOk result (λ answer. answer ≡ usage) }
    {
        Ok(Answer {
            status: Status::Usage,
            text: Vec::from_slice(alloc, b"usage\n")?,
        })
    }

    /// A file breaks a rule.
    pub fn refused_file(alloc: Global, file: &str, broken: &BrokenRule) -> Result<Answer, NoMemory>
        ensures { IfOk result (λ answer. answer ≡ refused_file file.now broken.now) }
    {
        let mut text = refusal_front(alloc, file, broken.rule, broken.name, broken.place)?;
        push_value(&mut text, &broken.value)?;
        text.push(b'\n')?;
        Ok(Answer {
            status: Status::InputRefused,
            text,
        })
    }

    /// A file is too long.
    pub fn too_long(alloc: Global, file: &str) -> Result<Answer, NoMemory>
        ensures { IfOk result (λ answer. answer ≡ refused_file file.now too_long) }
    {
        let too_long = BrokenRule {
            rule: 0,
            name: "TooLong",
            place: 0,
            value: Shown::Nothing,
        };
        Answer::refused_file(alloc, file, &too_long)
    }

    /// A file can't be read.
    pub fn read_fault(alloc: Global, file: &str) -> Result<Answer, NoMemory>
        ensures { IfOk result (λ answer. answer ≡ read_fault file.now) }
    {
        let line = format!(in alloc; "read fault {file}\n")?;
        Ok(Answer {
            status: Status::ReadFault,
            text: line.into_bytes(),
        })
    }
}

/// Hands an answer on, if memory wasn't wanting for it.
pub fn ended(answer: Result<Answer, NoMemory>) -> Result<Answer, Stop>
    ensures { Ended answer result }
{
    match answer {
        Ok(answer) => Ok(answer),
        Err(NoMemory) => Err(Stop::Memory),
    }
}

/// A refusal line up to its value.
fn refusal_front(
    alloc: Global,
    file: &str,
    rule: u32,
    name: &str,
    place: u32,
) -> Result<Vec<u8>, NoMemory>
    ensures { IfOk result (λ text. text.items
        ≡ refusal_front file.now rule name.now place) }
{
    let line = format!(in alloc; "refused {file} {rule} {name} {place} ")?;
    Ok(line.into_bytes())
}

fn push_value(text: &mut Vec<u8>, value: &Shown) -> Result<(), NoMemory>
    ensures { OnOk result (text.new.items ≡ text.old.items ++ value_text value.now) }
{
    match value {
        Shown::Nothing => text.push(b'-')?,
        Shown::Odd => text.push(b'?')?,
        Shown::Number(n) => push_number(text, *n)?,
        Shown::Word(name) => text.extend_from_slice(name.as_bytes())?,
    }
    Ok(())
}

// A small reader of a file, which meets `Reads`, the word for the contract of every reader of files.
ghost use Rattle.aeth_base.specs.Faults.{BrokenRule, Reads};
ghost use Rattle.aeth_ground_tests.specs.WordFile.{check_word, rule_of, word_of};
ghost use Rattle.aeth_ground_tests.specs.declared.word_file.WordFault.TheVariants.{Memory};
ghost use Rattle.std.specs.Prelude.{◌≡◌, Err, IfOk, Some, is_some};

use aeth_base::{Broken, BrokenRule, Fault, NoMemory, Shown};
use std::alloc::Global;

/// Why a file of one word isn't read.
#[derive(Clone, Copy, Debug)]
pub enum WordFault {
    /// The file has no bytes.
    NoWord,
    /// The word has more than 4 bytes; the value is their number.
    TooLong(Broken),
    /// There was no memory.
    Memory,
}

impl From<NoMemory> for WordFault {
    ghost from_gives = { λ _ fault. fault ≡ Memory };

    fn from(_: NoMemory) -> WordFault {
        WordFault::Memory
    }
}

impl Fault for WordFault {
    ghost rule = { rule_of };

    fn broken_rule(&self) -> Option<BrokenRule> {
        match self {
            WordFault::NoWord => Some(broken_rule(0, "NoWord", NOTHING)),
            WordFault::TooLong(broken) => Some(broken_rule(1, "TooLong", *broken)),
            WordFault::Memory => None,
        }
    }
}

const NOTHING: Broken = Broken {
    place: 0,
    value: Shown::Nothing,
};

fn broken_rule(rule: u32, name: &'static str, broken: Broken) -> BrokenRule
    ensures { result ≡ record {
      rule = rule;
      name = name.now;
      place = broken.place;
      value = broken.value;
    } }
{
    BrokenRule {
        rule,
        name,
        place: broken.place,
        value: broken.value,
    }
}

fn copy_of(alloc: Global, word: &[u8]) -> Result<Vec<u8>, NoMemory>
    ensures { IfOk result (λ copy. copy.items ≡ word.now) }
{
    Ok(Vec::from_slice(alloc, word)?)
}

fn check_word(word: &[u8]) -> Result<(), WordFault>
    ensures { Reads rule_of (λ done. done) result (check_word word.now) }
{
    if word.len() <= 4 {
        Ok(())
    } else {
        Err(WordFault::TooLong(Broken {
            place: 7,
            value: Shown::Number(word.len() as u64),
        }))
    }
}

/// The word of a file.
pub fn read_word(alloc: Global, text: &[u8]) -> Result<Vec<u8>, WordFault>
    ensures reads { Reads rule_of (λ word. word.items) result (word_of text.now) }
{
    if text.len() == 0 {
        return Err(WordFault::NoWord);
    }
    check_word(text)?;
    Ok(copy_of(alloc, text)?)
}

/// Whether a fault shows a rule, over the trait alone.
pub(crate) fn shows_rule<F: Fault>(fault: &F) -> bool
    ensures { result ≡ is_some (F.rule fault.now) }
{
    fault.broken_rule().is_some()
}

/// The rule that a file breaks, as a caller of the reader learns it.
pub(crate) fn refused(alloc: Global, text: &[u8]) -> Option<BrokenRule>
    ensures { (broken : BrokenRule) → result ≡ Some broken → word_of text.now ≡ Err broken }
{
    let Err(fault) = read_word(alloc, text) else {
        return None;
    };
    fault.broken_rule()
}

/// Whether a file is read as its word.
#[cfg(test)]
fn is_word(alloc: Global, text: &[u8]) -> bool {
    match read_word(alloc, text) {
        Ok(word) => word.as_slice() == text,
        Err(_) => false,
    }
}

/// Files that are refused, with the number, the name and the value of the rule that they break.
#[cfg(test)]
const REFUSED: [(&[u8], u32, &str, Shown); 2] = [
    (b"", 0, "NoWord", Shown::Nothing),
    (b"flits", 1, "TooLong", Shown::Number(5)),
];

/// Whether a file is refused for such a rule.
#[cfg(test)]
fn is_refused_for(alloc: Global, text: &[u8], rule: u32, name: &str, value: Shown) -> bool {
    match refused(alloc, text) {
        Some(broken) => broken.rule == rule && broken.name == name && broken.value == value,
        None => false,
    }
}

/// The rule of the first file that isn't refused for it.
#[cfg(test)]
fn first_other_rule(alloc: Global) -> Option<&'static str> {
    for &(text, rule, name, value) in &REFUSED {
        if !is_refused_for(alloc, text, rule, name, value) {
            return Some(name);
        }
    }
    None
}

#[test]
fn a_reader_gives_the_word_or_the_broken_rule(rt: HostRuntime) {
    let alloc = rt.alloc();
    assert!(rt; is_word(alloc, b"flit"));
    assert!(rt; shows_rule(&WordFault::NoWord) && !shows_rule(&WordFault::Memory));
    assert_eq!(rt; first_other_rule(alloc), None);
    assert!(rt; refused(alloc, b"flit").is_none());
}

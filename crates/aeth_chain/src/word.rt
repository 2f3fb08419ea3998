// The items of a chain as a word of a command line tells them.
ghost use Rattle.std.specs.Prelude.{◌≡◌, IfSome, is_none};
ghost use Rattle.aeth_text.specs.Grammar.{parts, words_left};
ghost use Rattle.aeth_text.specs.Limits.{comma};
ghost use Rattle.aeth_chain.specs.ItemNames.{AreItemNames, item_in, item_names_of, work_in};
ghost use Rattle.aeth_chain.specs.Limits.{colon};

use crate::names::{ItemName, ItemNames};
use aeth_base::Name;
use aeth_text::{next_word, number_in, side_in};

/// The most cycles that a core works on a word.
const MAX_WORK: u32 = 4_096;

/// The items of a comma list of 1 to 16: `CONN:SIDE:WORK` with a work of 1 to 4,096, and `CONN:SIDE` at
/// the end. `None` exactly where the word is no such list.
#[tactic(auto, unfolding(crate::specs::ItemNames::item_names_of))]
pub fn item_names(word: &[u8]) -> Option<ItemNames>
    ensures gives { result ≡ item_names_of word.now }
    ensures names { IfSome result AreItemNames }
{
    let (piece, rest) = next_word(Some(word), b',')?;
    let mut names = ItemNames::one(item_in(piece, rest.is_none())?);
    let mut left = rest;
    'pieces: while let Some((piece, rest)) = next_word(left, b',') {
        let item = item_in(piece, rest.is_none())?;
        if !names.push(item) {
            return None;
        }
        left = rest;
    }
    Some(names)
}

// The item of a piece, which is the last or isn't.
fn item_in(piece: &[u8], last: bool) -> Option<ItemName>
    ensures { result ≡ item_in last (parts colon piece.now) }
{
    let (name, rest) = next_word(Some(piece), b':')?;
    let (side, rest) = next_word(rest, b':')?;
    let name = Name::new(name)?;
    let side = side_in(side)?;
    let work = work_in(rest, last)?;
    Some(ItemName { name, side, work })
}

// The work that the words behind a side tell.
fn work_in(words: Option<&[u8]>, last: bool) -> Option<u32>
    ensures { result ≡ work_in last (words_left colon words.entry) }
{
    if last {
        return if words.is_none() { Some(0) } else { None };
    }
    let (work, rest) = next_word(words, b':')?;
    if rest.is_some() {
        return None;
    }
    let work = number_in(work)?;
    if 1 <= work && work <= MAX_WORK {
        Some(work)
    } else {
        None
    }
}

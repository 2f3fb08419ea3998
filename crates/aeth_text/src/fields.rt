// The fields of a line.
ghost use Rattle.aeth_text.specs.Fields.{are_ascending, ascending_in, links_in, number_in};
ghost use Rattle.aeth_text.specs.Fields.{side_in};
ghost use Rattle.aeth_text.specs.Grammar.{all_of, parts};
ghost use Rattle.aeth_text.specs.Limits.{comma};
ghost use Rattle.aeth_text.specs.Order.{misplaced};
ghost use Rattle.std.specs.Prelude.{◌≡◌, IfOk, IfSome, IsTrue, nat_lt, is_none, option_map};

use crate::numbers::next_number;
use crate::parts::next_word;
use aeth_base::{LinkId, MIN_PATH_LINKS, NoMemory, Path, Side, read_number};
use std::alloc::Global;

/// The greatest number of a text.
const MAX_NUMBER: u64 = 4_294_967_295;

/// The number whose canonical decimal a word is. `None` where it is none, or above 4,294,967,295.
#[tactic(auto, unfolding(crate::specs::Fields::number_in))]
pub fn number_in(word: &[u8]) -> Option<u32>
    ensures { result ≡ number_in word.now }
{
    let n = read_number(word)?;
    if n <= MAX_NUMBER {
        Some(n as u32)
    } else {
        None
    }
}

/// The side that a word says: `fwd` or `back`.
#[tactic(auto, unfolding(crate::specs::Fields::side_in))]
pub fn side_in(word: &[u8]) -> Option<Side>
    ensures { result ≡ side_in word.now }
{
    match word {
        b"fwd" => Some(Side::Fwd),
        b"back" => Some(Side::Back),
        _ => None,
    }
}

/// The path of a comma list of 2 to 8 links.
#[tactic(auto, unfolding(crate::specs::Fields::links_in))]
pub fn links_in(word: &[u8]) -> Option<Path>
    ensures { result ≡ links_in word.now }
{
    let mut path = Path::empty();
    let mut left = Some(word);
    'words: while let Some((_, number, rest)) = next_number(left) {
        let link = LinkId(number?);
        if !path.push(link) {
            return None;
        }
        left = rest;
    }
    if path.len() < MIN_PATH_LINKS {
        return None;
    }
    Some(path)
}

/// All numbers of a comma list.
fn numbers_in(alloc: Global, word: &[u8]) -> Result<Option<Vec<u32>>, NoMemory>
    ensures { IfOk result (λ found. option_map (λ numbers. numbers.items) found
        ≡ all_of number_in (parts comma word.now)) }
{
    let mut numbers = Vec::new(alloc);
    let mut left = Some(word);
    'words: while let Some((number, rest)) = next_word(left, b',') {
        match number_in(number) {
            Some(number) => numbers.push(number)?,
            None => return Ok(None),
        }
        left = rest;
    }
    Ok(Some(numbers))
}

/// Whether each number is greater than the one before.
fn rise(numbers: &[u32]) -> bool
    ensures { result ≡ is_none (misplaced nat_lt 0 numbers.now) }
{
    let [first, rest @ ..] = numbers else {
        return true;
    };
    let mut last = *first;
    for number in rest {
        if last >= *number {
            return false;
        }
        last = *number;
    }
    true
}

/// The numbers of a comma list of at least one, each greater than the one before. `None` where the
/// word is no such list.
#[tactic(auto, unfolding(crate::specs::Fields::ascending_in))]
pub fn ascending_in(alloc: Global, word: &[u8]) -> Result<Option<Vec<u32>>, NoMemory>
    ensures found { IfOk result (λ found. option_map (λ numbers. numbers.items) found
        ≡ ascending_in word.now) }
    ensures ascending { IfOk result (λ found. IfSome found (λ numbers.
        IsTrue (are_ascending numbers.items))) }
{
    match numbers_in(alloc, word)? {
        Some(numbers) => {
            if numbers.len() >= 1 && rise(&numbers) {
                Ok(Some(numbers))
            } else {
                Ok(None)
            }
        }
        None => Ok(None),
    }
}

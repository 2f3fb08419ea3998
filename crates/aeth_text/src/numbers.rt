// The numbers of a comma list, one after the other.
ghost use Rattle.aeth_base.specs.Number.{IsLed};
ghost use Rattle.aeth_text.specs.Fields.{number_in};
ghost use Rattle.aeth_text.specs.Grammar.{parts, words_left};
ghost use Rattle.aeth_text.specs.Limits.{comma, max_number};
ghost use Rattle.std.specs.Char.{digit_value};
ghost use Rattle.std.specs.Prelude.{◌≡◌, ◌<◌, ◌≤◌, ◌+◌, ◌*◌, ◌∷◌, [], ◌↔◌, IfSome, IsTrue, MatchOption, Some};

use crate::fields::number_in;
use crate::parts::next_word;

/// A number that is less has room for one more digit in 32 bits.
const ROOM: u32 = 400_000_000;

/// The number with the digit of a byte behind its own. `None` where the byte is no digit, and where
/// 32 bits might be too few.
fn with_digit(value: u32, byte: u8) -> Option<u32>
    ensures digit { IfSome result (λ _. digit_value byte < 10) }
    ensures number { IfSome result (λ next. next ≡ value * 10 + digit_value byte) }
    ensures within { IfSome result (λ next. next ≤ max_number) }
{
    if !(b'0' <= byte && byte <= b'9') || value >= ROOM {
        return None;
    }
    Some(value * 10 + (byte - b'0') as u32)
}

/// Whether there is a first byte, and a `0` only where there is no other.
fn is_led(word: &[u8]) -> bool
    ensures { IsTrue result ↔ IsLed word.now }
{
    !word.is_empty() && (word.len() == 1 || word[0] != b'0')
}

/// The first word of a comma list, its number, and what is left after it. `None` where it is no
/// number or may be too great a one.
fn short_number(list: &[u8]) -> Option<(&[u8], u32, Option<&[u8]>)>
    ensures words { IfSome result (λ p. parts comma list.now ≡ p.0.now ∷ words_left comma p.2) }
    ensures number { IfSome result (λ p. number_in p.0.now ≡ Some p.1) }
{
    let mut value = 0;
    'digits: for i in 0..list.len() {
        if list[i] == b',' {
            let word = &list[..i];
            if !is_led(word) {
                return None;
            }
            return Some((word, value, Some(&list[i + 1..])));
        }
        value = with_digit(value, list[i])?;
    }
    if !is_led(list) {
        return None;
    }
    Some((list, value, None))
}

/// The first of the words that are left of a comma list, its number, if it is one, and what is left
/// after it.
pub(crate) fn next_number(words: Option<&[u8]>) -> Option<(&[u8], Option<u32>, Option<&[u8]>)>
    ensures words { MatchOption result (words_left comma words.entry ≡ []) (λ p.
        words_left comma words.entry ≡ p.0.now ∷ words_left comma p.2) }
    ensures number { IfSome result (λ p. p.1 ≡ number_in p.0.now) }
{
    let list = words?;
    if let Some((word, number, rest)) = short_number(list) {
        return Some((word, Some(number), rest));
    }
    let (word, rest) = next_word(Some(list), b',')?;
    Some((word, number_in(word), rest))
}

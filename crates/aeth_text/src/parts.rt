// The parts of a text between separators, one after the other.
ghost use Rattle.std.specs.Prelude.{◌≡◌, ◌<◌, ◌∷◌, [], length, IfSome, IfNone, MatchOption};
ghost use Rattle.aeth_text.specs.Grammar.{lines_of, parts, rest_of, words_left};

use memchr::memchr;

/// The first part, and the text behind its separator. `None` where no separator is left.
fn cut(text: &[u8], separator: u8) -> Option<(&[u8], &[u8])>
    ensures some { IfSome result (λ p. parts separator text.now
        ≡ p.0.now ∷ parts separator p.1.now) }
    ensures shorter { IfSome result (λ p. length p.1.now < length text.now) }
    ensures none { IfNone result (parts separator text.now ≡ text.now ∷ []) }
{
    for place in 0..text.len() {
        if text[place] == separator {
            return Some((&text[..place], &text[place + 1..]));
        }
    }
    None
}

/// The first of the words that are left, and what is left after it.
pub fn next_word(words: Option<&[u8]>, separator: u8) -> Option<(&[u8], Option<&[u8]>)>
    ensures { MatchOption result (words_left separator words.entry ≡ []) (λ p.
        words_left separator words.entry ≡ p.0.now ∷ words_left separator p.1) }
{
    let text = words?;
    match cut(text, separator) {
        Some((word, rest)) => Some((word, Some(rest))),
        None => Some((text, None)),
    }
}

/// The first line, and the text behind its line feed. `None` where no line feed is left.
pub fn next_line(text: &[u8]) -> Option<(&[u8], &[u8])>
    ensures some { IfSome result (λ p. lines_of text.now ≡ p.0.now ∷ lines_of p.1.now) }
    ensures same { IfSome result (λ p. rest_of text.now ≡ rest_of p.1.now) }
    ensures shorter { IfSome result (λ p. length p.1.now < length text.now) }
    ensures none { IfNone result (lines_of text.now ≡ []) }
    ensures rest { IfNone result (rest_of text.now ≡ text.now) }
{
    let end = memchr(b'\n', text)?;
    Some((&text[..end], &text[end + 1..]))
}

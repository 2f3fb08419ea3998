// The lines of a text of certificates, each by its fields.
ghost use Rattle.aeth_text.specs.Grammar.{parts};
ghost use Rattle.aeth_text.specs.Limits.{space};
ghost use Rattle.std.specs.Prelude.{◌≡◌, ◌∷◌, [], MatchOption, codes};
ghost use Rattle.aeth_explain.specs.Texts.{cut_in, is_head, line_in, some_links_in, try_in};

use aeth_base::{LinkId, Name, Path, Side};
use aeth_text::{links_in, next_word, number_in, side_in};

/// What a `try` line says.
#[derive(Clone, Copy)]
pub(crate) struct TryText {
    pub conn: Name,
    pub group: u32,
    pub side: Side,
    pub turn: u32,
}

/// What a line behind the first and before the end says.
#[derive(Clone, Copy)]
pub(crate) enum LineText {
    Try { words: TryText },
    Cut { links: Path },
}

/// `explain 1`.
#[tactic(auto, unfolding(crate::specs::Texts::is_head))]
pub(crate) fn is_head(line: &[u8]) -> bool
    ensures { result ≡ is_head line.now }
{
    line == b"explain 1".as_slice()
}

/// The four words of `try CONN GROUP SIDE TURN` after the first.
#[tactic(auto, unfolding(crate::specs::Texts::try_in))]
fn try_words(line: &[u8]) -> Option<(&[u8], &[u8], &[u8], &[u8])>
    ensures { MatchOption result (try_in line.now ≡ None) (λ words. parts space line.now
        ≡ codes "try" ∷ words.0.now ∷ words.1.now ∷ words.2.now ∷ words.3.now ∷ []) }
{
    let (first, words) = next_word(Some(line), b' ')?;
    if first != b"try".as_slice() {
        return None;
    }
    let (conn, words) = next_word(words, b' ')?;
    let (group, words) = next_word(words, b' ')?;
    let (side, words) = next_word(words, b' ')?;
    let (turn, words) = next_word(words, b' ')?;
    if let Some(_) = next_word(words, b' ') {
        return None;
    }
    Some((conn, group, side, turn))
}

/// `try CONN GROUP SIDE TURN`.
#[tactic(auto, unfolding(crate::specs::Texts::try_in))]
fn try_in(line: &[u8]) -> Option<TryText>
    ensures { result ≡ try_in line.now }
{
    let (conn, group, side, turn) = try_words(line)?;
    let conn = Name::new(conn)?;
    let group = number_in(group)?;
    let side = side_in(side)?;
    let turn = number_in(turn)?;
    Some(TryText {
        conn,
        group,
        side,
        turn,
    })
}

/// The path of one link.
fn one_link(link: LinkId) -> Path
    ensures { result ≡ link ∷ [] }
{
    let mut path = Path::empty();
    path.push(link);
    path
}

/// The links of a comma list of 1 to 8 links.
fn some_links_in(word: &[u8]) -> Option<Path>
    ensures { result ≡ some_links_in word.now }
{
    if let Some(path) = links_in(word) {
        return Some(path);
    }
    let number = number_in(word)?;
    Some(one_link(LinkId(number)))
}

/// The word of `cut LINKS` after the first.
#[tactic(auto, unfolding(crate::specs::Texts::cut_in))]
fn cut_word(line: &[u8]) -> Option<&[u8]>
    ensures { MatchOption result (cut_in line.now ≡ None) (λ word. parts space line.now
        ≡ codes "cut" ∷ word.now ∷ []) }
{
    let (first, words) = next_word(Some(line), b' ')?;
    if first != b"cut".as_slice() {
        return None;
    }
    let (links, words) = next_word(words, b' ')?;
    if let Some(_) = next_word(words, b' ') {
        return None;
    }
    Some(links)
}

/// `cut LINKS`.
#[tactic(auto, unfolding(crate::specs::Texts::cut_in))]
fn cut_in(line: &[u8]) -> Option<Path>
    ensures { result ≡ cut_in line.now }
{
    some_links_in(cut_word(line)?)
}

/// A line of either form.
pub(crate) fn line_in(line: &[u8]) -> Option<LineText>
    ensures { result ≡ line_in line.now }
{
    if let Some(words) = try_in(line) {
        return Some(LineText::Try { words });
    }
    let links = cut_in(line)?;
    Some(LineText::Cut { links })
}

// Words of a command line: numbers in a range, lists of slots, names of files.
ghost use Rattle.aeth_base.specs.Limits.{max_slots};
ghost use Rattle.aeth_answers.specs.Words.{file_name_of, number_within, slot_set_of};
ghost use Rattle.std.specs.Prelude.{◌≡◌, ◌≤◌};

use aeth_base::read_number;
use aeth_slots::SlotSet;
use std::marker::Model;

/// What stands between the numbers of a list.
pub const COMMA: u8 = b',';

/// The number that the word is, where it lies between `low` and `high`.
pub fn number_in(low: u32, high: u32, word: &str) -> Option<u32>
    ensures { result ≡ number_within low high word.now }
{
    let n = u32::try_from(read_number(word.as_bytes())?).ok()?;
    if low <= n && n <= high { Some(n) } else { None }
}

/// The slots of a table that the word lists: strictly ascending numbers below the size with commas
/// between them, or `-` for none.
pub fn slots_in(size: u32, word: &str) -> Option<SlotSet>
    requires some { 1 ≤ size }
    requires within { size ≤ max_slots }
    ensures { result ≡ slot_set_of size word.now }
{
    let mut set = SlotSet::empty(size);
    if word == "-" {
        return Some(set);
    }
    let mut least = 0;
    for piece in word.split(',') {
        let slot = number_in(least, size - 1, piece)?;
        set.insert(slot);
        least = slot + 1;
    }
    Some(set)
}

/// The name of a file on the shelf, which isn't empty.
#[derive(Drop)]
pub struct FileName<'a> {
    text: &'a str,
}

impl<'a> Model for FileName<'a> {
    ghost use Rattle.std.specs.Prelude.{ℕ, List};

    ghost Value = { List ℕ };

    ghost view = { λ name. name.text.now };
}

impl<'a> FileName<'a> {
    /// The word as a name, where it isn't empty.
    pub fn new(word: &'a str) -> Option<FileName<'a>>
        ensures { result ≡ file_name_of word.now }
    {
        if word.is_empty() {
            None
        } else {
            Some(FileName { text: word })
        }
    }

    /// The text of the name.
    pub fn as_str(&self) -> &str
        ensures { result.now ≡ self.now }
    {
        self.text
    }
}

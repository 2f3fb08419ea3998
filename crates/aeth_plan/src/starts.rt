// The starts of a grant, as a set where that may be.
ghost use Rattle.aeth_base.specs.Limits.{max_slots};
ghost use Rattle.aeth_slots.specs.SlotSet.{Ascends};
ghost use Rattle.aeth_text.specs.Fields.{are_ascending, ascending_in};
ghost use Rattle.std.specs.List.{list_all};
ghost use Rattle.std.specs.Prelude.{◌≡◌, ◌≤◌, IfOk, IfSome, IsTrue, Some, nat_lt};

use aeth_base::{MAX_SLOTS, NoMemory};
use aeth_slots::SlotSet;
use aeth_text::{ascending_in, next_word, number_in};
use std::alloc::Global;
use std::marker::Model;

/// The starts of a `grant` line: a set where they are all slots of the plan's table, and else a
/// list. Seen as the list.
#[derive(Drop)]
pub(crate) struct Starts {
    set: Option<SlotSet>,
    list: Vec<u32>,
}

impl Model for Starts {
    ghost use Rattle.std.specs.Prelude.{List, ℕ};
    ghost use Rattle.aeth_plan.specs.Starts.{starts_of};

    ghost Value = { List ℕ };

    ghost view = { λ starts. starts_of starts.set starts.list.items };
}

impl Starts {
    /// The starts of a word, at least one and each greater than the one before, for a table of so
    /// many slots. `None` where the word is no such list.
    pub fn of(alloc: Global, slots: u32, word: &[u8]) -> Result<Option<Starts>, NoMemory>
        ensures found { IfOk result (λ found. found ≡ ascending_in word.now) }
        ensures ascending { IfOk result (λ found. IfSome found (λ starts.
            IsTrue (are_ascending starts))) }
    {
        if let Some(set) = set_in(slots, word) {
            return Ok(Some(Starts {
                set: Some(set),
                list: Vec::new(alloc),
            }));
        }
        match ascending_in(alloc, word)? {
            Some(list) => Ok(Some(Starts { set: None, list })),
            None => Ok(None),
        }
    }

    /// Whether all are below the size of a table.
    pub fn are_below(&self, size: u32) -> bool
        ensures { result ≡ list_all (λ start. nat_lt start size) self.now }
    {
        match &self.set {
            Some(set) => set_is_below(set, size),
            None => are_below(&self.list, size),
        }
    }

    /// The set of them, of a table of this size.
    pub fn set_of(&self, size: u32) -> SlotSet
        requires some { 1 ≤ size }
        requires within { size ≤ max_slots }
        requires ascends { Ascends 0 size self.now }
        ensures { result ≡ record { size = size; slots = self.now } }
    {
        match &self.set {
            Some(set) => resized(size, set),
            None => set_of(size, &self.list),
        }
    }
}

// The set of the starts of a word. `None` where they don't ascend below the size of a table, or the
// word is no list of numbers.
fn set_in(size: u32, word: &[u8]) -> Option<SlotSet>
    ensures found { IfSome result (λ set. ascending_in word.now ≡ Some set.slots) }
    ensures ascending { IfSome result (λ set. IsTrue (are_ascending set.slots)) }
{
    if size == 0 || size > MAX_SLOTS {
        return None;
    }
    let mut set = SlotSet::empty(size);
    let mut next = 0;
    let mut left = Some(word);
    'words: while let Some((number, rest)) = next_word(left, b',') {
        let number = number_in(number)?;
        if number < next || number >= size {
            return None;
        }
        set.insert(number);
        next = number + 1;
        left = rest;
    }
    if next == 0 {
        return None;
    }
    Some(set)
}

// Whether all slots of a set are below the size of a table.
fn set_is_below(set: &SlotSet, size: u32) -> bool
    ensures { result ≡ list_all (λ start. nat_lt start size) set.now.slots }
{
    if set.size() <= size {
        return true;
    }
    for start in set.iter() {
        if start >= size {
            return false;
        }
    }
    true
}

// Whether all starts are below the size of a table.
fn are_below(starts: &[u32], size: u32) -> bool
    ensures { result ≡ list_all (λ start. nat_lt start size) starts.now }
{
    starts.iter().all(|start| *start < size)
}

// The set of the slots of a set, of a table of this size.
fn resized(size: u32, set: &SlotSet) -> SlotSet
    requires some { 1 ≤ size }
    requires within { size ≤ max_slots }
    requires ascends { Ascends 0 size set.now.slots }
    ensures { result ≡ record { size = size; slots = set.now.slots } }
{
    if set.size() == size {
        return *set;
    }
    let mut other = SlotSet::empty(size);
    for start in set.iter() {
        other.insert(start);
    }
    other
}

// The set of these starts.
fn set_of(size: u32, starts: &[u32]) -> SlotSet
    requires some { 1 ≤ size }
    requires within { size ≤ max_slots }
    requires ascends { Ascends 0 size starts.now }
    ensures { result ≡ record { size = size; slots = starts.now } }
{
    let mut set = SlotSet::empty(size);
    for start in starts {
        set.insert(*start);
    }
    set
}

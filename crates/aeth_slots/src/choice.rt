// The choice of slots out of the free ones.
//
// From a slot to an end, the free slots from which the end is reached over at most so many
// further slots are those from an earliest one on. The earliest ones are found from the end
// backwards, each by one look-up, and any two look-ups go back by more than a gap. So a choice takes
// a few times the table size in steps.
ghost use Rattle.std.specs.Prelude.{◌≡◌, ◌+◌, ◌<◌, ◌≤◌, ◌↔◌, ◌∷◌, List, ℕ, IsTrue, Contains};
ghost use Rattle.std.specs.Prelude.{IsSome, IfSome, IfNone};
ghost use Rattle.aeth_base.specs.Limits.{max_slots};
ghost use Rattle.aeth_slots.specs.Choice.{IsSuitable, IsChosen, chosen};
ghost use Rattle.aeth_slots.specs.Ways.{AreEarliest, IsFewest, IsFirstMember, IsFirstRound};
ghost use Rattle.aeth_slots.specs.Ways.{HasRound, IsLeastSize, IsRound, IsWay, StartsWithin};

use crate::SlotSet;
use aeth_base::MAX_SLOTS;

/// The lexicographically first among the suitable subsets of least size: at least `need` slots,
/// with no gap above `gap`. There is none exactly where the whole free set isn't suitable.
pub fn choose(free: &SlotSet, need: u32, gap: u32) -> Option<SlotSet>
    requires { 1 ≤ need }
    ensures chosen { result ≡ chosen free.now need gap }
    ensures some { IfSome result (IsChosen free.now need gap) }
    ensures whole { IsSome result ↔ IsSuitable need gap free.now }
{
    if !free.suitable(need, gap) {
        return None;
    }
    let more = least_size(free, need, gap).max(need) - 1;
    let first = first_member(free, gap, more);
    Some(first_round(free, gap, first, more))
}

/// The least number of slots of a round, or that of one with no more slots than are needed.
fn least_size(free: &SlotSet, need: u32, gap: u32) -> u32
    requires { IsSuitable 1 gap free.now }
    ensures { IsLeastSize free.now need gap result }
{
    let size = free.size();
    let mut least = free.count();

    // A round ends below the size and at most a gap before its first slot one table later.
    for first in 0..size.min(gap) {
        if least <= need {
            return least;
        }
        if let Some(more) = fewest(free, first, gap) {
            least = least.min(more + 1);
        }
    }
    least
}

/// The least slot from which a round leads over `more` further slots.
fn first_member(free: &SlotSet, gap: u32, more: u32) -> u32
    requires { HasRound free.now gap (more + 1) }
    ensures { IsFirstMember free.now gap more result }
{
    let size = free.size();
    let mut first = 0;
    while first < size && !starts(free, first, gap, more) {
        first += 1;
    }
    first
}

/// Whether a round over at most `more` further slots starts there.
fn starts(free: &SlotSet, first: u32, gap: u32, more: u32) -> bool
    requires { first < free.now.size }
    ensures { IsTrue result ↔ StartsWithin free.now gap more first }
{
    match fewest(free, first, gap) {
        Some(count) => count <= more,
        None => false,
    }
}

/// The fewest further slots of a round from a first slot.
pub(crate) fn fewest(free: &SlotSet, first: u32, gap: u32) -> Option<u32>
    requires { first < free.now.size }
    ensures some { IfSome result (IsFewest free.now.slots (first + free.now.size) gap first) }
    ensures member { IsSome result → Contains free.now.slots first }
    ensures none { IfNone result ((way : List ℕ) → IsRound free.now gap (first ∷ way) → ⊥) }
{
    let size = free.size();
    if !free.has(first) {
        return None;
    }
    let mut earliest = free.at_or_after((first + size).saturating_sub(gap))?;
    for count in 0..size {
        if earliest <= first {
            return Some(count);
        }
        let next = free.at_or_after(earliest.saturating_sub(gap))?;

        // No free slot is near enough to the earliest, so nothing reaches the end from before it.
        if next == earliest {
            return None;
        }
        earliest = next;
    }
    None
}

/// The lexicographically first round from a first slot over `more` further slots.
fn first_round(free: &SlotSet, gap: u32, first: u32, more: u32) -> SlotSet
    requires { IsFirstMember free.now gap more first }
    ensures size { result.size ≡ free.now.size }
    ensures round { IsFirstRound free.now gap (more + 1) result.slots }
{
    let size = free.size();
    let mut set = SlotSet::empty(size);
    set.insert(first);
    let Some(earliest) = earliest_slots(free, first + size, gap, more) else {
        return set;
    };
    let mut from = first;
    let mut left = more;
    while left > 0 {
        left -= 1;
        let Some(next) = free.at_or_after(earliest[left as usize].max(from + 1)) else {
            return set;
        };
        set.insert(next);
        from = next;
    }
    set
}

/// For each number of slots below a count, the free slot from which on each one reaches the end
/// over at most so many. There are none where no free slot reaches it.
fn earliest_slots(
    free: &SlotSet,
    end: u32,
    gap: u32,
    count: u32,
) -> Option<[u32; MAX_SLOTS as usize]>
    requires { count ≤ max_slots }
    ensures some { IfSome result (AreEarliest free.now.slots end gap count) }
    ensures none { IfNone result ((way : List ℕ) (from : ℕ) → Contains free.now.slots from
        → IsWay free.now.slots end gap from way → ⊥) }
{
    let mut earliest = free.at_or_after(end.saturating_sub(gap))?;
    let mut slots = [0; MAX_SLOTS as usize];
    for most in 0..count {
        slots[most as usize] = earliest;
        earliest = free.at_or_after(earliest.saturating_sub(gap))?;
    }
    Some(slots)
}

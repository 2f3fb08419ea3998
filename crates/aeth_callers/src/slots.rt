// A channel's slots beside those that are taken.
ghost use Rattle.std.specs.Prelude.{◌≤◌, ◌↔◌, IfSome, IsSome};
ghost use Rattle.aeth_slots.specs.Choice.{IsChosen, IsSuitable};
ghost use Rattle.aeth_slots.specs.SlotSet.{all_slots, without};

use aeth_slots::{SlotSet, choose};

/// The fewest slots beside these that carry `need` flits, no two of them more than `gap` apart.
pub fn slots_beside(taken: &SlotSet, need: u32, gap: u32) -> Option<SlotSet>
    requires { 1 ≤ need }
    ensures some { IsSome result
        ↔ IsSuitable need gap (without (all_slots taken.now.size) taken.now) }
    ensures chosen { IfSome result
        (IsChosen (without (all_slots taken.now.size) taken.now) need gap) }
{
    let free = SlotSet::full(taken.size()).without(taken);
    choose(&free, need, gap)
}

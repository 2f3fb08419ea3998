// The order in which components take their turns within a cycle.

ghost use Rattle.std.specs.Prelude.{◌≡◌, ◌<◌, ◌↔◌, Some, IfOk, IfSome, IsSome, IsTrue};
ghost use Rattle.std.specs.Prelude.{length, slice_get};
ghost use Rattle.aeth_clocked.specs.Order.{IsOrder, rotation_of};

use aeth_base::NoMemory;
use std::alloc::{AllocError, Global};
use std::marker::Model;

/// An order of components: a permutation of the numbers below its length, seen as their list.
#[derive(Drop)]
pub struct Order {
    numbers: Vec<u32>,
}

impl Model for Order {
    ghost use Rattle.std.specs.Prelude.{List, ℕ};
    ghost use Rattle.aeth_clocked.specs.Order.{IsOrder};

    ghost Value = { List ℕ };

    ghost view = { λ order. order.numbers.items };

    ghost invariant = { λ order. IsOrder order.numbers.items };
}

impl Order {
    /// The order that the list gives; `None` exactly where the list is no permutation of the
    /// numbers below its length, or has more than `u32::MAX` of them.
    ///
    /// Takes no memory, and time in the square of the length.
    pub fn of(list: Vec<u32>) -> Option<Order>
        ensures order { IsSome result ↔ IsOrder list.items }
        ensures same { IfSome result (λ order. order ≡ list.items) }
    {
        if is_order(&list) {
            Some(Order { numbers: list })
        } else {
            None
        }
    }

    /// The order of `count` components that begins with the number `turn`, modulo `count`, and
    /// goes round.
    pub fn rotation(alloc: Global, count: u32, turn: u32) -> Result<Order, NoMemory>
        requires { 0 < count }
        ensures { IfOk result (λ order. order ≡ rotation_of count turn) }
    {
        let numbers = rotated(alloc, count, turn)?;
        Ok(Order { numbers })
    }

    /// How many components take a turn.
    pub fn len(&self) -> u32
        ensures length { result ≡ length self.now }
        ensures order { IsOrder self.now }
    {
        self.numbers.len() as u32
    }

    /// The number of the component whose turn comes at this place.
    pub fn at(&self, place: u32) -> u32
        requires { place < length self.now }
        ensures number { slice_get self.now place ≡ Some result }
        ensures below { result < length self.now }
    {
        self.numbers[place as usize]
    }
}

// Whether each number below the length is in the list.
fn is_order(numbers: &[u32]) -> bool
    ensures { IsTrue result ↔ IsOrder numbers.now }
{
    let Ok(count) = u32::try_from(numbers.len()) else {
        return false;
    };
    for number in 0..count {
        if !numbers.contains(&number) {
            return false;
        }
    }
    true
}

// The numbers below a count, from a turn on and round.
fn rotated(alloc: Global, count: u32, turn: u32) -> Result<Vec<u32>, AllocError>
    requires { 0 < count }
    ensures { IfOk result (λ numbers. numbers.items ≡ rotation_of count turn) }
{
    let (turn, round) = (u64::from(turn), u64::from(count));
    (0..count)
        .map(|place| ((turn + u64::from(place)) % round) as u32)
        .collect(alloc)
}

// The items of a chain, by names of connections.
ghost use Rattle.std.specs.Bool.{OnFalse, OnTrue};
ghost use Rattle.std.specs.Prelude.{◌≡◌, ◌<◌, ◌↔◌, ◌++◌, ◌∷◌, [], IsTrue, length};
ghost use Rattle.aeth_chain.specs.Limits.{max_chain_items};

use aeth_base::{Name, Side};
use std::marker::Model;

/// The most channels of a chain.
const MAX_CHAIN_ITEMS: u32 = 16;

/// An item of a chain as a word tells it: the name of a connection, a side, and for how many cycles the
/// core at the end of that channel works on each word: 1 to 4,096, and 0 in the last item.
#[derive(Clone, Copy)]
pub struct ItemName {
    pub name: Name,
    pub side: Side,
    pub work: u32,
}

/// A list of 1 to 16 items.
#[derive(Drop)]
pub struct ItemNames {
    items: [ItemName; MAX_CHAIN_ITEMS as usize],
    len: u32,
}

impl Model for ItemNames {
    ghost use Rattle.std.specs.Prelude.{◌≤◌, List, take};
    ghost use Rattle.aeth_chain.specs.Limits.{max_chain_items};
    ghost use Rattle.aeth_chain.specs.declared.names.ItemName.{ItemName};

    ghost Value = { List ItemName };

    ghost view = { λ names. take names.len names.items };

    ghost invariant = { λ names. (1 ≤ names.len) × (names.len ≤ max_chain_items) };
}

impl ItemNames {
    /// The list of one item.
    pub(crate) fn one(item: ItemName) -> ItemNames
        ensures { result ≡ item ∷ [] }
    {
        ItemNames {
            items: [item; MAX_CHAIN_ITEMS as usize],
            len: 1,
        }
    }

    /// Puts an item at the end. False, and the list is as before, exactly where it has 16 items.
    pub(crate) fn push(&mut self, item: ItemName) -> bool
        ensures room { IsTrue result ↔ (length self.old < max_chain_items) }
        ensures pushed { OnTrue result (self.new ≡ self.old ++ item ∷ []) }
        ensures kept { OnFalse result (self.new ≡ self.old) }
    {
        if self.len == MAX_CHAIN_ITEMS {
            return false;
        }
        self.items[self.len as usize] = item;
        self.len += 1;
        true
    }

    /// The items.
    pub fn as_slice(&self) -> &[ItemName]
        ensures { result.now ≡ self.now }
    {
        &self.items[..self.len as usize]
    }
}

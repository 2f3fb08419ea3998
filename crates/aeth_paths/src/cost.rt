// What links cost: the table of a function's answers.
ghost use Rattle.std.specs.Prelude.{◌≡◌, ◌≤◌, ℕ};
ghost use Rattle.aeth_base.specs.Limits.{max_link_delay, max_slots};
ghost use Rattle.aeth_paths.specs.Costs.{AreCosts, HasOneAnswer, price};
ghost use Rattle.aeth_paths.specs.Limits.{max_cost};

use aeth_base::{MAX_LINK_DELAY, MAX_SLOTS};
use std::marker::Model;

/// How many slots of a link may be used: from none to all of the largest table.
const USED_COUNT: usize = MAX_SLOTS as usize + 1;

/// How many answers a table has.
const COST_COUNT: usize = MAX_LINK_DELAY as usize * USED_COUNT;

/// The answers of a cost function, seen as their table.
#[derive(Drop)]
pub(crate) struct Prices {
    answers: [u32; COST_COUNT],
}

impl Model for Prices {
    ghost use Rattle.std.specs.Prelude.{List, ℕ};
    ghost use Rattle.aeth_paths.specs.Costs.{AreCosts};

    ghost Value = { List ℕ };

    ghost view = { λ prices. prices.answers };

    ghost invariant = { λ prices. AreCosts prices.answers };
}

impl Prices {
    /// The cost of a link by its delay, 1 to 4 cycles, and by the number of its slots that are
    /// used.
    pub(crate) fn of(&self, delay: u32, used: u32) -> u32
        requires some { 1 ≤ delay }
        requires delay { delay ≤ max_link_delay }
        requires used { used ≤ max_slots }
        ensures cost { result ≡ price self.now delay used }
        ensures some { 1 ≤ result }
        ensures most { result ≤ max_cost }
        ensures all { AreCosts self.now }
    {
        self.answers[USED_COUNT * (delay as usize - 1) + used as usize]
    }
}

/// The cost of a link by its delay and by the number of its slots that are used, from 1 to 1,000.
///
/// Seen as the table of the answers that its function gave when it was made: for each delay from 1
/// to 4 cycles and each number of used slots from 0 to 128. This project's own.
#[derive(Drop)]
pub struct Cost<F> {
    _function: F,
    prices: Prices,
}

impl<F> Model for Cost<F> {
    ghost use Rattle.std.specs.Prelude.{List, ℕ};

    ghost Value = { List ℕ };

    ghost view = { λ cost. cost.prices };
}

impl<F: Fn(u32, u32) -> u32> Cost<F> {
    /// The cost that a function gives, which is called for each delay and number of used slots.
    pub fn new(function: F) -> Cost<F>
        requires callable { (d u : ℕ) → 1 ≤ d → d ≤ max_link_delay → u ≤ max_slots
            → F.pre function d u }
        requires answers { (d u : ℕ) → 1 ≤ d → d ≤ max_link_delay → u ≤ max_slots
            → HasOneAnswer (F.post function d u) }
        ensures answers { (d u : ℕ) → 1 ≤ d → d ≤ max_link_delay → u ≤ max_slots
            → F.post function d u (price result d u) }
        ensures costs { AreCosts result }
    {
        let mut answers = [0; COST_COUNT];
        for i in 0..COST_COUNT {
            let delay = 1 + (i / USED_COUNT) as u32;
            answers[i] = function(delay, (i % USED_COUNT) as u32);
        }
        Cost {
            _function: function,
            prices: Prices { answers },
        }
    }
}

impl<F> Cost<F> {
    /// The cost of a link by its delay, 1 to 4 cycles, and by the number of its slots that are
    /// used, 0 to 128.
    pub fn of(&self, delay: u32, used: u32) -> u32
        requires some { 1 ≤ delay }
        requires delay { delay ≤ max_link_delay }
        requires used { used ≤ max_slots }
        ensures cost { result ≡ price self.now delay used }
        ensures some { 1 ≤ result }
        ensures most { result ≤ max_cost }
    {
        self.prices.of(delay, used)
    }

    /// The table of its answers.
    pub(crate) fn prices(&self) -> &Prices
        ensures prices { result.now ≡ self.now }
        ensures costs { AreCosts self.now }
    {
        let _least = self.prices.of(1, 0);
        &self.prices
    }
}

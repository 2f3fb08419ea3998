// What links cost by an application's price.
ghost use Rattle.std.specs.Prelude.{◌≡◌, ◌≤◌, ℕ};
ghost use Rattle.aeth_base.specs.Limits.{max_link_delay, max_slots};
ghost use Rattle.aeth_alloc.specs.Prices.{cost_by, prices_of};

use aeth_app::Price;
use aeth_paths::Cost;

// What a link costs by a price.
pub(crate) fn cost_by(price: Price, _delay: u32, used: u32) -> u32
    requires { used ≤ max_slots }
    ensures { result ≡ cost_by price _delay used }
{
    match price {
        Price::Hops => 1,
        Price::Pressure => 1 + used,
    }
}

// The cost of a price, made of a function that gives this price's answers.
pub(crate) fn priced<F: Fn(u32, u32) -> u32>(price: Price, function: F) -> Cost<F>
    requires callable { (d u : ℕ) → 1 ≤ d → d ≤ max_link_delay → u ≤ max_slots
        → F.pre function d u }
    requires answers { (d u answer : ℕ) → 1 ≤ d → d ≤ max_link_delay → u ≤ max_slots
        → F.post function d u answer → answer ≡ cost_by price d u }
    ensures { result ≡ prices_of price }
{
    Cost::new(function)
}

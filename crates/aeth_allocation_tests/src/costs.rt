// A cost that is read at three places.
ghost use Rattle.aeth_base.specs.Limits.{max_link_delay, max_slots};
ghost use Rattle.std.specs.Prelude.{◌≡◌, ◌+◌, ◌*◌, ◌≤◌};

use aeth_paths::Cost;

/// What links cost of which a cycle of delay costs 200, and a used slot 1: one of 1 cycle without used
/// slots, one of 3 with 7, and one of 4 with 128.
pub fn three_costs() -> [u32; 3] {
    let cost = Cost::new(
        |delay: u32, used: u32| -> u32
            requires delay { delay ≤ max_link_delay }
            requires used { used ≤ max_slots }
            ensures { result ≡ 200 * delay + used }
        { 200 * delay + used },
    );
    [cost.of(1, 0), cost.of(3, 7), cost.of(4, 128)]
}

// The windows of switches that a network comes to.

ghost use Rattle.std.specs.Prelude.{◌≡◌, ◌<◌, ◌≤◌, ◌+◌, ◌^◌, ◌↔◌, IsTrue, Some, length, slice_get, ℕ};
ghost use Rattle.std.specs.List.Sorted.{IsNonDecreasingBy};
ghost use Rattle.aeth_components.specs.First.{IsFirst};
ghost use Rattle.aeth_schedule.specs.Windows.{IsInWindow};
ghost use Rattle.aeth_schedule.specs.declared.windows.Window.{Window};
ghost use Rattle.aeth_network.specs.Behind.{passed};
ghost use Rattle.aeth_network.specs.Next.{HasWindow};
ghost use Rattle.aeth_network.specs.Windows.{AreAscending, AreOver};

use aeth_schedule::Window;

// The first cycle from one on, and below a limit, in which a switch does something. The windows before a
// place are over. Of the others only those are looked at that begin before it.
pub(crate) fn next_window(windows: &[Window], place: usize, time: u32, to: u32) -> u32
    requires order { AreAscending windows.now }
    requires over { AreOver place time windows.now }
    requires to { time ≤ to }
    ensures { IsFirst (HasWindow windows.now) time to result }
{
    let mut next = to;
    let mut at = place;
    'windows: while is_begun(windows, at, next) {
        next = next_within(&windows[at], time, next);
        at += 1;
    }
    next
}

// Whether the window at a place is there and begins before a cycle.
fn is_begun(windows: &[Window], place: usize, limit: u32) -> bool
    requires { IsNonDecreasingBy (λ one. one.until) windows.now }
    ensures exact { IsTrue result ↔ (place < passed (λ one. one.until) limit windows.now) }
    ensures within { IsTrue result → place < length windows.now }
    ensures fits { IsTrue result → place + 1 < 2 ^ 64 }
{
    if place < windows.len() {
        let window = windows[place];
        window.until < u64::from(limit)
    } else {
        false
    }
}

// The first of a window.
fn next_within(window: &Window, time: u32, to: u32) -> u32
    requires { time ≤ to }
    ensures { IsFirst (IsInWindow window.now) time to result }
{
    let next = sooner(window.until, time, to);
    let next = sooner(window.stop, time, next);
    let writes = window.fin.max(u64::from(time));
    if writes <= window.go {
        sooner(writes, time, next)
    } else {
        next
    }
}

// A cycle, where it is not before another one and below a limit; else the limit.
fn sooner(cycle: u64, time: u32, to: u32) -> u32
    requires { time ≤ to }
    ensures { IsFirst (λ t. cycle ≡ t) time to result }
{
    if u64::from(time) <= cycle && cycle < u64::from(to) {
        cycle as u32
    } else {
        to
    }
}

// The place of the first window from one on that isn't over behind a cycle. Those before it are.
pub(crate) fn place_behind(windows: &[Window], from: usize, time: u32) -> usize
    requires { AreOver from time windows.now }
    ensures { AreOver result (time + 1) windows.now }
{
    let mut place = from;
    'windows: while is_over(windows, place, time) {
        place += 1;
    }
    place
}

// Whether the window at a place is there and has no cycle behind one.
fn is_over(windows: &[Window], place: usize, time: u32) -> bool
    ensures over { IsTrue result → (t : ℕ) (window : Window) → slice_get windows.now place ≡ Some window
        → time < t → IsInWindow window t → ⊥ }
    ensures within { IsTrue result → place < length windows.now }
    ensures fits { IsTrue result → place + 1 < 2 ^ 64 }
{
    if place < windows.len() {
        let window = windows[place];
        window.until.max(window.stop).max(window.go) <= u64::from(time)
    } else {
        false
    }
}

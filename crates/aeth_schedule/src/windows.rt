// The cycles of a switch.

/// When a switch does something, in cycles.
#[derive(Clone, Copy)]
pub struct Window {
    /// The channels that it closes accept no word from here on.
    pub until: u64,
    /// They inject no flit from here on.
    pub stop: u64,
    /// All that they sent has landed. From here on the switch writes, one write in a cycle.
    pub fin: u64,
    /// The channels that it opens go.
    pub go: u64,
}

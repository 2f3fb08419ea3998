// An event in its cycle.

use aeth_components::Event;

/// An event, and the cycle at the begin of which it is done.
#[derive(Clone, Copy)]
pub struct Timed {
    pub cycle: u32,
    pub event: Event,
}

/// What becomes of a channel that closes: it injects no more, and later its queues are emptied.
#[derive(Clone, Copy)]
pub enum Closing {
    Halts,
    Finishes,
}

// What events and sessions are made from.

ghost use Rattle.aeth_scheduling.specs.Made.{IsTask};

use aeth_group::Groups;
use aeth_schedule::Lines;
use aeth_trace::{Spans, Words};

// The groups of an application, how long its switches take, the channels of the use cases that a run
// enters, the words of the run, the place of the first word of each connection, and the cycles.
#[derive(Clone, Copy)]
pub(crate) struct Task<'a> {
    pub groups: &'a Groups,
    pub spans: &'a Spans,
    pub all: &'a [Lines],
    pub words: &'a Words,
    pub starts: &'a [u32],
    pub cycles: u32,
    ghost is: { IsTask groups.now spans.now all.now words.now starts.now cycles },
}

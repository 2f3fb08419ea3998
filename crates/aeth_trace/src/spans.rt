// How long switches between use cases take.
ghost use Rattle.std.specs.Prelude.{◌≡◌, ◌<◌, ◌*◌, length};
ghost use Rattle.aeth_trace.specs.Spans.{span_of};

use aeth_base::UseId;
use std::marker::Model;

/// How long the switches between an application's use cases take: for each pair of them the lag,
/// which is the greatest path delay of a channel that closes, in cycles, and the number of writes,
/// which are one a cycle.
#[derive(Drop)]
pub struct Spans {
    uses: u32,
    pairs: Vec<(u32, u32)>,
}

impl Model for Spans {
    ghost use Rattle.std.specs.Prelude.{◌≡◌, ◌*◌, length};
    ghost use Rattle.aeth_trace.specs.Spans.{SpanData};

    ghost Value = { SpanData };

    ghost view = { λ spans. record { uses = spans.uses; pairs = spans.pairs.items } };

    ghost invariant = { λ spans. length spans.pairs.items ≡ spans.uses * spans.uses };
}

impl Spans {
    /// Spans for so many use cases: the lag and the writes of each pair, in the order of the use
    /// case that is left, and then of the one that is entered.
    pub fn new(uses: u32, pairs: Vec<(u32, u32)>) -> Spans
        requires { length pairs.items ≡ uses * uses }
        ensures { result ≡ record { uses = uses; pairs = pairs.items } }
    {
        Spans { uses, pairs }
    }

    /// The lag of this pair: of spans of a plan, the greatest path delay of a channel that closes when the one use
    /// case is left for the other.
    pub fn lag(&self, u: UseId, v: UseId) -> u32
        requires u { u.0 < self.now.uses }
        requires v { v.0 < self.now.uses }
        ensures { result ≡ (span_of self.now u.0 v.0).0 }
    {
        self.span(u, v).0
    }

    /// The writes of this pair: of spans of a plan, their number when the one use case is left for the other, one a
    /// cycle.
    pub fn writes(&self, u: UseId, v: UseId) -> u32
        requires u { u.0 < self.now.uses }
        requires v { v.0 < self.now.uses }
        ensures { result ≡ (span_of self.now u.0 v.0).1 }
    {
        self.span(u, v).1
    }

    fn span(&self, u: UseId, v: UseId) -> (u32, u32)
        requires u { u.0 < self.now.uses }
        requires v { v.0 < self.now.uses }
        ensures { result ≡ span_of self.now u.0 v.0 }
    {
        let uses = self.uses as usize;
        self.pairs[u.0 as usize * uses + v.0 as usize]
    }
}

// Cores, and what the connections between them wish.

ghost use Rattle.std.specs.Prelude.{◌≡◌};
ghost use Rattle.aeth_app.specs.App.{is_end};
ghost use Rattle.aeth_app.specs.Connections.{receiver, sender};

use aeth_base::{CoreId, Name, NiId, Side};

/// The most words that a wish has in its `per` cycles.
pub const MAX_WORDS: u32 = 2_000_000;

/// The most cycles over which a wish counts its words.
pub const MAX_PER: u32 = 1_000_000;

/// The greatest latency of a wish, in cycles.
pub const MAX_LATENCY: u32 = 4_096;

/// What a channel wishes: so many words in each `per` cycles. A word that comes alone lands within
/// `latency` cycles, and the receiver takes a landed word at most `delay` cycles later.
#[derive(Clone, Copy)]
pub struct Wish {
    /// 0 to 2,000,000, and at most two a cycle.
    pub words: u32,
    /// 1 to 1,000,000 cycles.
    pub per: u32,
    /// 1 to 4,096 cycles.
    pub latency: u32,
    /// 0 to 4,096 cycles.
    pub delay: u32,
}

/// A core that sends and receives, and the network interface to which it is fixed, if it is.
#[derive(Clone, Copy)]
pub struct Core {
    pub name: Name,
    pub fixed: Option<NiId>,
}

/// A connection from a core to another: a channel forward, and one back. After Æthereal (2005).
#[derive(Clone, Copy)]
pub struct Connection {
    pub name: Name,
    pub from: CoreId,
    pub to: CoreId,
    pub fwd: Wish,
    pub back: Wish,
}

/// What a link costs when paths are compared: each the same, or more the more of its slots are
/// used. After UMARS (2005).
#[derive(Clone, Copy)]
pub enum Price {
    Hops,
    Pressure,
}

impl Connection {
    /// Whether the core is one of the connection's two.
    pub fn is_end(&self, core: CoreId) -> bool
        ensures { result ≡ is_end core self.now }
    {
        self.from.0 == core.0 || self.to.0 == core.0
    }

    /// The core that sends on a side.
    pub fn sender(&self, side: Side) -> CoreId
        ensures { result ≡ sender self.now side }
    {
        match side {
            Side::Fwd => self.from,
            Side::Back => self.to,
        }
    }

    /// The core that receives on a side.
    pub fn receiver(&self, side: Side) -> CoreId
        ensures { result ≡ receiver self.now side }
    {
        match side {
            Side::Fwd => self.to,
            Side::Back => self.from,
        }
    }
}

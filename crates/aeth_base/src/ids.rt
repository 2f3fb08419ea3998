// The numbers by which things of a chip and an application are called.
ghost use Rattle.aeth_base.specs.Sides.{same_side};
ghost use Rattle.std.specs.Prelude.{◌≡◌};

/// A router, by its number in file order.
#[derive(Clone, Copy, PartialEq, Eq)]
pub struct RouterId(pub u32);

/// A network interface, by its number in file order.
#[derive(Clone, Copy, PartialEq, Eq)]
pub struct NiId(pub u32);

/// A directed link, by its number in file order.
#[derive(Clone, Copy, PartialEq, Eq)]
pub struct LinkId(pub u32);

/// A core, by its number in file order.
#[derive(Clone, Copy, PartialEq, Eq)]
pub struct CoreId(pub u32);

/// A connection, by its number in file order.
#[derive(Clone, Copy, PartialEq, Eq, PartialOrd, Ord)]
pub struct ConnId(pub u32);

/// A use case, by its number in file order.
#[derive(Clone, Copy, PartialEq, Eq)]
pub struct UseId(pub u32);

/// A group of use cases, in the order of their least use cases.
#[derive(Clone, Copy, PartialEq, Eq, PartialOrd, Ord)]
pub struct GroupId(pub u32);

/// A direction of a connection: `Fwd` from its first core to its second, `Back` from the second to
/// the first. After Æthereal (2005), whose connections have a request and a response channel.
#[derive(Clone, Copy, PartialEq, Eq, PartialOrd, Ord)]
pub enum Side {
    Fwd,
    Back,
}

impl Side {
    /// Whether two sides are one.
    pub fn is(self, other: Side) -> bool
        ensures { result ≡ same_side self other }
    {
        match (self, other) {
            (Side::Fwd, Side::Fwd) | (Side::Back, Side::Back) => true,
            _ => false,
        }
    }
}

/// One direction of a connection.
#[derive(Clone, Copy, PartialEq, Eq)]
pub struct Channel {
    pub conn: ConnId,
    pub side: Side,
}

/// A connection with a group of use cases, some use case of which has it.
#[derive(Clone, Copy, PartialEq, Eq, PartialOrd, Ord)]
pub struct Unit {
    pub conn: ConnId,
    pub group: GroupId,
}

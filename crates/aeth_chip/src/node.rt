// Routers and network interfaces, and the links that join them.
ghost use Rattle.std.specs.Prelude.{◌≡◌};
ghost use Rattle.aeth_chip.specs.Nodes.{begins_at, end_node, ends_at, same_node};

use aeth_base::{NiId, RouterId};

/// Where a link begins or ends.
#[derive(Clone, Copy)]
pub enum Node {
    Router(RouterId),
    Ni(NiId),
}

/// A directed link. A flit that enters it in a cycle reaches its far end `delay` cycles later: 1 in
/// a file of version 1, 1 to 4 in one of version 2.
#[derive(Clone, Copy)]
pub struct Link {
    pub from: Node,
    pub to: Node,
    pub delay: u32,
}

impl Node {
    /// Whether both are one node.
    pub fn is_same(self, other: Node) -> bool
        ensures { result ≡ same_node self other }
    {
        match self {
            Node::Router(router) => match other {
                Node::Router(same) => router.0 == same.0,
                Node::Ni(_) => false,
            },
            Node::Ni(ni) => match other {
                Node::Router(_) => false,
                Node::Ni(same) => ni.0 == same.0,
            },
        }
    }
}

/// One of the two ends of a link.
#[derive(Clone, Copy)]
pub(crate) enum End {
    From,
    To,
}

impl Link {
    /// Whether the link begins at the node.
    pub fn begins_at(&self, node: Node) -> bool
        ensures { result ≡ begins_at node self.now }
    {
        self.from.is_same(node)
    }

    /// Whether the link ends at the node.
    pub fn ends_at(&self, node: Node) -> bool
        ensures { result ≡ ends_at node self.now }
    {
        self.to.is_same(node)
    }

    /// The node at this end of the link.
    pub(crate) fn node_at(&self, end: End) -> Node
        ensures { result ≡ end_node end self.now }
    {
        match end {
            End::From => self.from,
            End::To => self.to,
        }
    }
}

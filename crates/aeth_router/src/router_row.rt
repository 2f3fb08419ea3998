// The entries of routers' tables, one by one.

use aeth_base::{LinkId, RouterId};

/// An entry of a router's table: in this slot the router sends through this port the flit that comes
/// on this link.
#[derive(Clone, Copy)]
pub struct RouterRow {
    /// The router in whose table it is.
    pub router: RouterId,
    /// The place of the outgoing link among those of the router, 0 to 7.
    pub port: u8,
    /// 0 to 127, below the chip's table size.
    pub slot: u32,
    /// A link that enters the router.
    pub from: LinkId,
}

//! Header words of flits: packed, unpacked, and moved on by a hop.
#![tactic(auto)]

mod fault;
mod header;

pub use fault::HeaderFault;
pub use header::{
    COUNT_BITS, COUNT_SHIFT, CREDITS_BITS, CREDITS_SHIFT, Header, PORT_BITS, QUEUE_BITS,
    QUEUE_SHIFT, ROUTE_BITS, ROUTE_PORTS, hop, pack, unpack,
};

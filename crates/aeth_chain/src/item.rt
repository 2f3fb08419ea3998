// The channels of a chain, with the work of the cores between them.
use aeth_base::Channel;

/// A channel of a chain, and for how many cycles the core at its end works on each word before it
/// offers it on the next channel: 1 to 4,096, and 0 at the end of the chain.
#[derive(Clone, Copy)]
pub struct ChainItem {
    pub channel: Channel,
    pub work: u32,
}

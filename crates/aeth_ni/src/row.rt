// What an interface's tables hold of one channel.

use aeth_base::{Channel, NiId};
use aeth_slots::SlotSet;

/// The row of one channel in the tables of its sending interface.
#[derive(Clone, Copy)]
pub struct ChannelRow {
    /// The channel.
    pub channel: Channel,
    /// The sending interface.
    pub ni: NiId,
    /// The channel's queue there: below 32.
    pub queue: u8,
    /// The slots in which the channel injects.
    pub slots: SlotSet,
    /// The output ports that its flits take, as in a header: below 2^21.
    pub route: u32,
    /// Its queue at the receiving interface: below 32.
    pub remote: u8,
    /// The words that the receive queue there has room for, with which the counter starts.
    pub credits: u32,
}

// A row of a log of links.
use aeth_base::LinkId;
use aeth_clocked::Flit;

/// A flit that enters a link in a cycle.
#[derive(Clone, Copy)]
pub struct LinkRow {
    /// 0 to 1,000,000.
    pub cycle: u32,
    pub link: LinkId,
    pub flit: Flit,
}

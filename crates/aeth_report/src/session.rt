// When a connection is in use.
use aeth_base::GroupId;

/// How a session closes: it accepts words before cycle `until`, sends before `stop`, and is finished
/// at `fin`, when all that it sent has landed.
#[derive(Clone, Copy)]
pub struct Close {
    pub until: u64,
    pub stop: u64,
    pub fin: u64,
}

/// A session of a connection: from cycle `go` on its channels are in use, by the grants of this
/// group.
#[derive(Clone, Copy)]
pub struct Session {
    pub go: u64,
    pub group: GroupId,
    /// `None` where no switch closes it.
    pub close: Option<Close>,
}

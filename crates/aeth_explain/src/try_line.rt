// What a line of a text of certificates tells.
ghost use Rattle.aeth_explain.specs.CutsText.{line_of, same_try};
ghost use Rattle.std.specs.Prelude.{◌≡◌};

use aeth_base::{Path, Side, Unit};
use aeth_paths::Trial;

/// Of which try a `try` line tells: of a side of a unit in its turn, counted from 1.
#[derive(Clone, Copy)]
pub struct TryLine {
    pub unit: Unit,
    pub side: Side,
    pub turn: u32,
}

/// What a line tells whose names are known.
#[derive(Clone, Copy)]
pub(crate) enum KnownLine {
    Tried { line: TryLine },
    Listed { path: Path },
}

impl TryLine {
    /// The line of a try.
    pub fn of(trial: &Trial) -> TryLine
        ensures { result ≡ line_of trial.now }
    {
        let ask = trial.ask();
        TryLine {
            unit: ask.unit,
            side: ask.side,
            turn: trial.turn(),
        }
    }

    /// Whether two lines tell of one try.
    pub fn is(&self, other: &TryLine) -> bool
        ensures { result ≡ same_try self.now other.now }
    {
        self.unit.conn.0 == other.unit.conn.0
            && self.unit.group.0 == other.unit.group.0
            && self.side.is(other.side)
            && self.turn == other.turn
    }
}

// The channels of use cases, as their tables have them.

ghost use Rattle.std.specs.Prelude.{◌≡◌, ◌<◌, length};
ghost use Rattle.aeth_schedule.specs.Lines.{end_of, lines_at};

use aeth_base::UseId;
use aeth_components::ChannelEnd;
use aeth_ni::ChannelRow;
use aeth_server::ChannelShape;
use std::marker::Model;

/// A channel of a use case: its row, what it is granted and asks for, and the end at which it lands.
#[derive(Clone, Copy)]
pub struct Line {
    pub row: ChannelRow,
    pub shape: ChannelShape,
    pub receiver: ChannelEnd,
}

/// The channels of a use case, in channel order.
#[derive(Drop)]
pub struct Lines {
    list: Vec<Line>,
}

impl Model for Lines {
    ghost use Rattle.std.specs.Prelude.{List};
    ghost use Rattle.aeth_schedule.specs.declared.lines.Line.{Line};

    ghost Value = { List Line };

    ghost view = { λ lines. lines.list.items };
}

impl Lines {
    /// These lines.
    pub fn of(list: Vec<Line>) -> Lines
        ensures { result ≡ list.items }
    {
        Lines { list }
    }

    /// The lines.
    pub fn list(&self) -> &[Line]
        ensures { result.now ≡ self.now }
    {
        &self.list
    }
}

/// The channels of a use case, where these are those of all.
pub fn lines_in(all: &[Lines], u: UseId) -> &[Line]
    requires { u.0 < length all.now }
    ensures { result.now ≡ lines_at all.now u.0 }
{
    all[u.0 as usize].list()
}

/// The queue at its interface from which a channel is sent.
pub fn end_of(row: &ChannelRow) -> ChannelEnd
    ensures { result ≡ end_of row.now }
{
    ChannelEnd {
        ni: row.ni,
        queue: row.queue,
    }
}

// The log of a run.
use aeth_base::Channel;
use std::marker::Model;

/// A word that has landed: the cycle in which it was offered, that in which it landed, that by which
/// it was due, and its value.
#[derive(Clone, Copy)]
pub struct Landing {
    pub offered: u32,
    pub landed: u32,
    pub due: u64,
    pub value: u32,
}

/// A session of a channel: the cycle from which on it is in use, whether a switch has ended it, how
/// many of its words were offered, have landed and were taken, and the landings in the order of the
/// words.
#[derive(Drop)]
pub struct SessionLog {
    pub go: u64,
    pub ended: bool,
    pub offered: u32,
    pub landed: u32,
    pub taken: u32,
    pub rows: Vec<Landing>,
}

impl Model for SessionLog {
    ghost use Rattle.aeth_report.specs.Log.{SessionData};

    ghost Value = { SessionData };

    ghost view = { λ log. record {
      go = log.go;
      ended = log.ended;
      offered = log.offered;
      landed = log.landed;
      taken = log.taken;
      rows = log.rows.items;
    } };
}

/// A channel: its sessions in their order, and how many of its words were offered in none of them.
#[derive(Drop)]
pub struct ChannelLog {
    pub channel: Channel,
    pub sessions: Vec<SessionLog>,
    pub outside: u32,
}

impl Model for ChannelLog {
    ghost use Rattle.aeth_report.specs.Log.{ChannelData};

    ghost Value = { ChannelData };

    ghost view = { λ log. record {
      channel = log.channel;
      sessions = log.sessions.items;
      outside = log.outside;
    } };
}

/// The log of a run: the number of its cycles, its channels in their order, and for each link the
/// number of cycles in which it carries a flit.
#[derive(Drop)]
pub struct SimLog {
    pub cycles: u32,
    pub channels: Vec<ChannelLog>,
    pub flits: Vec<u32>,
}

impl Model for SimLog {
    ghost use Rattle.aeth_report.specs.Log.{LogData};

    ghost Value = { LogData };

    ghost view = { λ log. record {
      cycles = log.cycles;
      channels = log.channels.items;
      flits = log.flits.items;
    } };
}

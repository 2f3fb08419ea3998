// An application as its file tells it.
ghost use Rattle.std.specs.Prelude.{◌≡◌, ◌<◌, ◌≤◌, IsTrue, Some, length, map, option_map, position};
ghost use Rattle.std.specs.Prelude.{◌^◌, slice_get, IfSome, IsSomeAnd};
ghost use Rattle.std.specs.Str.{bytes_eq};
ghost use Rattle.aeth_app.specs.App.{AreNames, IsApp, IsConnection, has_connection, is_end};
ghost use Rattle.aeth_app.specs.App.{is_marked, is_smooth, position_of, wish_of};
ghost use Rattle.aeth_app.specs.AppParts.{app_with};
ghost use Rattle.aeth_app.specs.Ends.{ArePositions};
ghost use Rattle.aeth_app.specs.Limits.{max_connections, max_core_connections, max_cores};
ghost use Rattle.aeth_app.specs.Limits.{max_detour, max_uses, min_uses};
ghost use Rattle.aeth_app.specs.Rates.{need_of};

use crate::connection::{Connection, Core, Price, Wish};
use crate::ends::{Positions, positions_at};
use crate::rates::need_of;
use crate::use_case::UseCase;
use aeth_base::{Channel, ConnId, CoreId, Name, Names, Side, UseId};
use std::marker::Model;

/// The most cores of an application.
pub const MAX_CORES: u32 = 256;

/// The most connections of an application.
pub const MAX_CONNECTIONS: u32 = 512;

/// The most connections of a core.
pub const MAX_CORE_CONNECTIONS: u32 = 8;

/// The fewest use cases of an application.
pub const MIN_USES: u32 = 1;

/// The most use cases of an application.
pub const MAX_USES: u32 = 16;

/// How many links more than the least number a path may have at most.
pub const MAX_DETOUR: u32 = 4;

/// The seats of a network interface.
pub const SEATS_PER_NI: u32 = 4;

/// The names of an application's cores, connections and use cases, in file order.
#[derive(Drop)]
pub(crate) struct PartNames {
    pub cores: Names,
    pub connections: Names,
    pub uses: Names,
}

/// What an application says beside its parts.
#[derive(Clone, Copy)]
pub(crate) struct Settings {
    pub slots: u32,
    pub detour: u32,
    pub price: Price,
}

/// An application's cores, connections and use cases, in file order.
#[derive(Drop)]
pub(crate) struct Parts {
    pub cores: Vec<Core>,
    pub connections: Vec<Connection>,
    pub uses: Vec<UseCase>,
}

/// An application: cores, the connections between them, and the use cases in which these run.
///
/// All are numbered from 0 in the order of the file. After Æthereal (2005) and UMARS (2005).
#[derive(Drop)]
pub struct App {
    settings: Settings,
    parts: Parts,
    names: PartNames,
    positions: Vec<Positions>,
}

impl Model for App {
    ghost use Rattle.std.specs.Prelude.{◌≡◌, map};
    ghost use Rattle.aeth_app.specs.App.{AppData, AreNames, IsApp};
    ghost use Rattle.aeth_app.specs.AppParts.{app_with};
    ghost use Rattle.aeth_app.specs.Ends.{ArePositions};

    ghost Value = { AppData };

    ghost view = { λ app. app_with app.settings app.parts };

    ghost invariant = { λ app. IsApp (app_with app.settings app.parts)
        × AreNames app.names.cores app.names.connections app.names.uses
        app.parts.cores.items app.parts.connections.items app.parts.uses.items
        × ArePositions app.parts.connections.items app.positions.items };
}

impl App {
    pub(crate) fn new(
        settings: Settings,
        parts: Parts,
        names: PartNames,
        positions: Vec<Positions>,
    ) -> App
        requires app { IsApp (app_with settings parts) }
        requires names { AreNames names.cores names.connections names.uses
            parts.cores.items parts.connections.items parts.uses.items }
        requires positions { ArePositions parts.connections.items positions.items }
        ensures { result ≡ app_with settings parts }
    {
        App {
            settings,
            parts,
            names,
            positions,
        }
    }

    /// The size of the slot tables that it is for.
    pub fn slots(&self) -> u32
        ensures slots { result ≡ self.now.slots }
        ensures app { IsApp self.now }
    {
        self.settings.slots
    }

    /// How many links more than the least number a path may have.
    pub fn detour(&self) -> u32
        ensures detour { result ≡ self.now.detour }
        ensures most { result ≤ max_detour }
    {
        self.settings.detour
    }

    /// What a link costs when paths are compared.
    pub fn price(&self) -> Price
        ensures { result ≡ self.now.price }
    {
        self.settings.price
    }

    /// The number of cores.
    pub fn cores(&self) -> u32
        ensures cores { result ≡ length self.now.cores }
        ensures most { result ≤ max_cores }
    {
        self.parts.cores.len() as u32
    }

    /// The number of connections.
    pub fn connections(&self) -> u32
        ensures connections { result ≡ length self.now.connections }
        ensures most { result ≤ max_connections }
    {
        self.parts.connections.len() as u32
    }

    /// The number of use cases.
    pub fn uses(&self) -> u32
        ensures uses { result ≡ length self.now.uses }
        ensures some { min_uses ≤ result }
        ensures most { result ≤ max_uses }
    {
        self.parts.uses.len() as u32
    }

    /// A core by its number.
    pub fn core(&self, core: CoreId) -> Core
        requires { core.0 < length self.now.cores }
        ensures { slice_get self.now.cores core.0 ≡ Some result }
    {
        self.parts.cores[core.0 as usize]
    }

    /// A connection by its number.
    pub fn connection(&self, connection: ConnId) -> Connection
        requires { connection.0 < length self.now.connections }
        ensures connection { slice_get self.now.connections connection.0 ≡ Some result }
        ensures joined { IsConnection (length self.now.cores) result }
    {
        self.parts.connections[connection.0 as usize]
    }

    /// What a channel wishes.
    pub fn wish(&self, channel: Channel) -> Wish
        requires { channel.conn.0 < length self.now.connections }
        ensures { IfSome (slice_get self.now.connections channel.conn.0) (λ connection.
            result ≡ wish_of connection channel.side) }
    {
        let connection = self.connection(channel.conn);
        match channel.side {
            Side::Fwd => connection.fwd,
            Side::Back => connection.back,
        }
    }

    /// What a channel needs, in slots of a table: 1 up to the table's size.
    pub fn need(&self, channel: Channel) -> u32
        requires { channel.conn.0 < length self.now.connections }
        ensures need { IfSome (slice_get self.now.connections channel.conn.0) (λ connection.
            result ≡ need_of self.now.slots connection channel.side) }
        ensures some { 1 ≤ result }
        ensures most { result ≤ self.now.slots }
    {
        let connection = self.connection(channel.conn);
        need_of(self.settings.slots, &connection, channel.side)
    }

    /// The position of a connection at one of its ends: how many connections of the core stand
    /// before it in the file. It is below 8.
    pub fn position(&self, core: CoreId, connection: ConnId) -> u32
        requires { IsSomeAnd (slice_get self.now.connections connection.0) (λ c.
            IsTrue (is_end core c)) }
        ensures position { result ≡ position_of self.now.connections core connection.0 }
        ensures few { result < max_core_connections }
    {
        let its = positions_at(&self.positions, connection.0 as usize);
        if self.connection(connection).from.0 == core.0 {
            its.from
        } else {
            its.to
        }
    }

    /// Whether a use case has a connection.
    pub fn has(&self, u: UseId, connection: ConnId) -> bool
        requires { u.0 < length self.now.uses }
        ensures { result ≡ has_connection self.now.uses u.0 connection.0 }
    {
        is_marked(&self.parts.uses[u.0 as usize].has, connection.0)
    }

    /// Whether a switch between two use cases is smooth: one of them names the other.
    pub fn smooth(&self, u: UseId, v: UseId) -> bool
        requires u { u.0 < length self.now.uses }
        requires v { v.0 < length self.now.uses }
        ensures { result ≡ is_smooth self.now.uses u.0 v.0 }
    {
        is_marked(&self.parts.uses[u.0 as usize].smooth, v.0)
            || is_marked(&self.parts.uses[v.0 as usize].smooth, u.0)
    }

    /// The name of a use case.
    pub fn use_name(&self, u: UseId) -> Name
        requires { u.0 < length self.now.uses }
        ensures { IfSome (slice_get self.now.uses u.0) (λ one. result ≡ one.name) }
    {
        self.parts.uses[u.0 as usize].name
    }

    /// The core of this name; `None` exactly where no core has it.
    pub fn find_core(&self, name: &Name) -> Option<CoreId>
        ensures { option_map (λ core. core.0) result
            ≡ position (bytes_eq name.now) (map (λ core. core.name) self.now.cores) }
    {
        Some(CoreId(place_in(&self.names.cores, name)?))
    }

    /// The connection of this name; `None` exactly where no connection has it.
    pub fn find_connection(&self, name: &Name) -> Option<ConnId>
        ensures { option_map (λ connection. connection.0) result ≡ position (bytes_eq name.now)
            (map (λ connection. connection.name) self.now.connections) }
    {
        Some(ConnId(place_in(&self.names.connections, name)?))
    }

    /// The use case of this name; `None` exactly where no use case has it.
    pub fn find_use(&self, name: &Name) -> Option<UseId>
        ensures { option_map (λ u. u.0) result
            ≡ position (bytes_eq name.now) (map (λ one. one.name) self.now.uses) }
    {
        Some(UseId(place_in(&self.names.uses, name)?))
    }
}

fn place_in(names: &Names, name: &Name) -> Option<u32>
    requires { length names.now < 2 ^ 32 }
    ensures { result ≡ position (bytes_eq name.now) names.now }
{
    match names.place(name) {
        Some(place) => Some(place as u32),
        None => None,
    }
}

fn is_marked(marks: &[bool], place: u32) -> bool
    ensures { result ≡ is_marked marks.now place }
{
    marks.get(place as usize).copied().unwrap_or(false)
}

// What applications and groups tell of their parts.
ghost use Rattle.std.specs.Prelude.{◌<◌, ◌≤◌, length};

use aeth_app::{App, Price};
use aeth_base::{ConnId, CoreId, GroupId, Name, Unit, UseId};
use aeth_group::Groups;

/// The core, the connection and the use case of a name.
pub(crate) type Named = (Option<CoreId>, Option<ConnId>, Option<UseId>);

/// What is asked of an application, with the answer.
#[derive(Clone, Copy)]
pub(crate) enum AskedOfApp {
    /// The table size, the detour, the numbers of cores, connections and use cases, and whether paths cost by hops.
    Numbers([u32; 5], bool),
    /// What has this name.
    Parts(&'static str, Named),
    /// How many connections of a core stand before this connection, if the core is one of its ends.
    Position(u32, u32, Option<u32>),
}

/// What is asked of the groups of two use cases with two connections, with the answer.
#[derive(Clone, Copy)]
pub(crate) struct AskedOfGroups {
    /// The numbers of groups and of units.
    pub counts: [u32; 2],
    /// Whether the first use case has each connection, and whether the second has.
    pub had: [bool; 4],
    /// Whether a switch from the first use case to the second keeps each connection.
    pub kept: [bool; 2],
    /// Whether each group has both connections together.
    pub together: [bool; 2],
    /// Whether each group has the second connection.
    pub members: [bool; 2],
    /// Whether the first use case has the first connection in the first group, and the second use case the second
    /// connection in the second group.
    pub units: [bool; 2],
}

/// Whether the answer is right.
pub(crate) fn is_app_right(app: &App, asked: &AskedOfApp) -> bool {
    match asked {
        AskedOfApp::Numbers(numbers, by_hops) => {
            numbers_of(app) == *numbers && costs_hops(app) == *by_hops
        }
        AskedOfApp::Parts(text, named) => is_named(app, text, named),
        AskedOfApp::Position(core, connection, place) => {
            position(app, CoreId(*core), ConnId(*connection)) == *place
        }
    }
}

fn numbers_of(app: &App) -> [u32; 5] {
    [
        app.slots(),
        app.detour(),
        app.cores(),
        app.connections(),
        app.uses(),
    ]
}

fn costs_hops(app: &App) -> bool {
    match app.price() {
        Price::Hops => true,
        Price::Pressure => false,
    }
}

/// Whether the text is a name, and these have it.
fn is_named(app: &App, text: &str, named: &Named) -> bool {
    match Name::new(text.as_bytes()) {
        Some(name) => {
            app.find_core(&name) == named.0
                && app.find_connection(&name) == named.1
                && app.find_use(&name) == named.2
        }
        None => false,
    }
}

fn position(app: &App, core: CoreId, connection: ConnId) -> Option<u32> {
    if connection.0 < app.connections() && app.connection(connection).is_end(core) {
        Some(app.position(core, connection))
    } else {
        None
    }
}

/// Whether the answer is right.
pub(crate) fn are_groups_right(groups: &Groups, asked: &AskedOfGroups) -> bool {
    groups.uses() == 2
        && [groups.count(), groups.units()] == asked.counts
        && had(groups) == asked.had
        && kept(groups) == asked.kept
        && together(groups) == asked.together
        && members(groups) == asked.members
        && units(groups) == asked.units
}

fn had(groups: &Groups) -> [bool; 4]
    requires { 2 ≤ length groups.now.uses }
{
    [
        groups.has(UseId(0), ConnId(0)),
        groups.has(UseId(0), ConnId(1)),
        groups.has(UseId(1), ConnId(0)),
        groups.has(UseId(1), ConnId(1)),
    ]
}

fn kept(groups: &Groups) -> [bool; 2]
    requires { 2 ≤ length groups.now.uses }
{
    [
        groups.kept(UseId(0), UseId(1), ConnId(0)),
        groups.kept(UseId(0), UseId(1), ConnId(1)),
    ]
}

fn together(groups: &Groups) -> [bool; 2] {
    [
        groups.together(GroupId(0), ConnId(0), ConnId(1)),
        groups.together(GroupId(1), ConnId(0), ConnId(1)),
    ]
}

fn members(groups: &Groups) -> [bool; 2] {
    [
        groups.member(GroupId(0), ConnId(1)),
        groups.member(GroupId(1), ConnId(1)),
    ]
}

fn unit(connection: u32, group: u32) -> Unit {
    Unit {
        conn: ConnId(connection),
        group: GroupId(group),
    }
}

fn units(groups: &Groups) -> [bool; 2] {
    [
        groups.has_unit(UseId(0), unit(0, 0)),
        groups.has_unit(UseId(1), unit(1, 1)),
    ]
}

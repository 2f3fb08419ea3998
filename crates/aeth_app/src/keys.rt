// The keys of an application file's tables.
ghost use Rattle.std.specs.Prelude.{◌≡◌, flat_map};
ghost use Rattle.aeth_app.specs.Keys.{wish_fields, wrong_connection_keys, wrong_keys};
ghost use Rattle.aeth_app.specs.Tables.{wish_at};
ghost use Rattle.aeth_document.specs.Arrays.{tables_in};
ghost use Rattle.aeth_document.specs.Keys.{wrong_key};
ghost use Rattle.aeth_document.specs.Walks.{walked};
ghost use Rattle.toml.specs.View.{table_view};

use aeth_base::{Broken, Shown, shown_text};
use aeth_document::{Field, Kind, Tables, Walk, table_at, tables_at, wrong_key};
use toml::Table;

const ROOT: [Field; 6] = [
    Field("connection", Kind::Tables),
    Field("core", Kind::Tables),
    Field("cost", Kind::OptionalText),
    Field("detour", Kind::Integer),
    Field("use", Kind::Tables),
    Field("version", Kind::Integer),
];

const CORE: [Field; 2] = [Field("name", Kind::Text), Field("ni", Kind::OptionalText)];

const CONNECTION: [Field; 5] = [
    Field("back", Kind::Table),
    Field("from", Kind::Text),
    Field("fwd", Kind::Table),
    Field("name", Kind::Text),
    Field("to", Kind::Text),
];

const WISH: [Field; 4] = [
    Field("delay", Kind::Integer),
    Field("latency", Kind::Integer),
    Field("per", Kind::Integer),
    Field("words", Kind::Integer),
];

const USE: [Field; 3] = [
    Field("connections", Kind::Texts),
    Field("name", Kind::Text),
    Field("smooth", Kind::OptionalTexts),
];

// Where no table stands, the least of its keys is missing.
#[tactic(auto, unfolding(aeth_document::specs::Keys::least_wrong_key))]
fn wrong_wish_key(connection: &Table, side: &str) -> Option<Shown>
    ensures { result ≡ wrong_key wish_fields (wish_at side.now (table_view connection.now)) }
{
    match table_at(connection, side) {
        Some(wish) => wrong_key(wish, &WISH),
        None => Some(shown_text("delay")),
    }
}

// The checks of each connection's own table, its `fwd` and its `back`.
#[tactic(auto, unfolding(aeth_document::specs::Walks::walked))]
fn keys_of_connections(walk: Walk, connections: Tables<'_>) -> Walk
    ensures { result ≡ walked walk
        (flat_map wrong_connection_keys (tables_in connections.entry)) }
{
    let mut walk = walk;
    for connection in connections {
        walk = walk.checks(&[
            wrong_key(connection, &CONNECTION),
            wrong_wish_key(connection, "fwd"),
            wrong_wish_key(connection, "back"),
        ]);
    }
    walk
}

/// The first wrong key of the tables.
pub(crate) fn wrong_keys(root: &Table) -> Option<Broken>
    ensures { result ≡ wrong_keys (table_view root.now) }
{
    let walk = Walk::from(0)
        .check(wrong_key(root, &ROOT))
        .keys(tables_at(root, "core"), &CORE);
    let walk = keys_of_connections(walk, tables_at(root, "connection"));
    walk.keys(tables_at(root, "use"), &USE).found()
}

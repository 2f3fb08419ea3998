// Texts of an application file that name nothing.
ghost use Rattle.std.specs.Prelude.{◌≡◌, ◌<◌, ◌^◌, codes, flat_map, length, map};
ghost use Rattle.std.specs.List.{filter_map};
ghost use Rattle.aeth_app.specs.Names.{AreNamesOf};
ghost use Rattle.aeth_app.specs.Unknown.{ends_in, unknown, unknown_name};
ghost use Rattle.aeth_document.specs.Arrays.{tables_in, texts_in};
ghost use Rattle.aeth_document.specs.Values.{text_if, texts_at};
ghost use Rattle.aeth_document.specs.Walks.{walked};
ghost use Rattle.toml.specs.View.{table_view};

use crate::app::PartNames;
use crate::names::ni_of;
use aeth_base::{Broken, Names, Shown, shown_text};
use aeth_chip::Chip;
use aeth_document::{Tables, Texts, Walk, place_of, tables_at, text_at, text_if, texts_at};
use toml::Table;

fn unknown_ni(chip: &Chip, text: &str) -> Option<Shown>
    ensures { result ≡ unknown chip.now.nis text.now }
{
    match ni_of(chip, Some(text)) {
        Some(_) => None,
        None => Some(shown_text(text)),
    }
}

#[tactic(auto, unfolding(aeth_document::specs::Walks::walked))]
fn interfaces(walk: Walk, chip: &Chip, cores: Tables<'_>) -> Walk
    ensures { result ≡ walked walk
        (map (unknown chip.now.nis) (filter_map (text_if (codes "ni")) (tables_in cores.entry))) }
{
    let mut walk = walk;
    for core in cores {
        if let Some(text) = text_if(core, "ni") {
            walk = walk.check(unknown_ni(chip, text));
        }
    }
    walk
}

fn unknown(names: &Names, text: &str) -> Option<Shown>
    requires { length names.now < 2 ^ 32 }
    ensures { result ≡ unknown names.now text.now }
{
    match place_of(names, text) {
        Some(_) => None,
        None => Some(shown_text(text)),
    }
}

#[tactic(auto, unfolding(aeth_document::specs::Walks::walked))]
fn ends(walk: Walk, names: &Names, connections: Tables<'_>) -> Walk
    requires { length names.now < 2 ^ 32 }
    ensures { result ≡ walked walk
        (map (unknown names.now) (flat_map ends_in (tables_in connections.entry))) }
{
    let mut walk = walk;
    for connection in connections {
        walk = walk.checks(&[
            unknown(names, text_at(connection, "from")),
            unknown(names, text_at(connection, "to")),
        ]);
    }
    walk
}

#[tactic(auto, unfolding(aeth_document::specs::Walks::walked))]
fn texts(walk: Walk, names: &Names, texts: Texts<'_>) -> Walk
    requires { length names.now < 2 ^ 32 }
    ensures { result ≡ walked walk (map (unknown names.now) (texts_in texts.entry)) }
{
    let mut walk = walk;
    for text in texts {
        walk = walk.check(unknown(names, text));
    }
    walk
}

// The texts at a key of the tables.
#[tactic(auto, unfolding(aeth_document::specs::Walks::walked))]
fn texts_of(walk: Walk, names: &Names, tables: Tables<'_>, key: &str) -> Walk
    requires { length names.now < 2 ^ 32 }
    ensures { result ≡ walked walk
        (map (unknown names.now) (flat_map (texts_at key.now) (tables_in tables.entry))) }
{
    let mut walk = walk;
    for table in tables {
        walk = texts(walk, names, texts_at(table, key));
    }
    walk
}

/// The first text of the file that should name something and names nothing.
pub(crate) fn unknown_name(chip: &Chip, root: &Table, names: &PartNames) -> Option<Broken>
    requires { AreNamesOf (table_view root.now) names.now }
    ensures { result ≡ unknown_name chip.now.nis (table_view root.now) }
{
    let after_nis = interfaces(Walk::from(0), chip, tables_at(root, "core"));
    let after_ends = ends(after_nis, &names.cores, tables_at(root, "connection"));
    let uses = tables_at(root, "use");
    let after_members = texts_of(after_ends, &names.connections, uses, "connections");
    texts_of(after_members, &names.uses, tables_at(root, "use"), "smooth").found()
}

// The numbers and names of an application file, and their ranges.
ghost use Rattle.std.specs.Prelude.{◌≡◌, codes, flat_map, map, option_map, None};
ghost use Rattle.aeth_app.specs.Ranges.{IsInRange, connection_ranges, no_price, numbers};
ghost use Rattle.aeth_app.specs.Ranges.{out_of_range, wish_ranges};
ghost use Rattle.aeth_app.specs.Tables.{names_in, wish_at};
ghost use Rattle.aeth_document.specs.Arrays.{tables_in};
ghost use Rattle.aeth_document.specs.Values.{integer_at};
ghost use Rattle.aeth_document.specs.Walks.{no_name, walked};
ghost use Rattle.toml.specs.View.{table_view};

use crate::app::{MAX_CONNECTIONS, MAX_CORES, MAX_DETOUR, MAX_USES, MIN_USES};
use crate::connection::{MAX_LATENCY, MAX_PER, MAX_WORDS};
use aeth_base::{Broken, MAX_RECEIVER_DELAY, Shown, shown_text};
use aeth_document::{
    Tables, Walk, count_outside, integer_at, no_name, outside, table_at, tables_at, text_at,
    text_if,
};
use toml::Table;

/// The version of an application file.
const APP_VERSION: u64 = 1;

fn no_price(cost: Option<&str>) -> Option<Shown>
    ensures { result ≡ no_price (option_map (λ t. t.now) cost.entry) }
{
    match cost {
        None | Some("hops") | Some("pressure") => None,
        Some(text) => Some(shown_text(text)),
    }
}

#[tactic(auto, unfolding(crate::specs::Ranges::numbers))]
fn numbers(walk: Walk, root: &Table) -> Walk
    ensures { result ≡ walked walk (numbers (table_view root.now)) }
{
    let cores = tables_at(root, "core").count_left();
    let connections = tables_at(root, "connection").count_left();
    let uses = tables_at(root, "use").count_left();
    walk.checks(&[
        outside(APP_VERSION, APP_VERSION, integer_at(root, "version")),
        outside(0, MAX_DETOUR as u64, integer_at(root, "detour")),
        no_price(text_if(root, "cost")),
        count_outside(0, MAX_CORES as u64, cores),
        count_outside(0, MAX_CONNECTIONS as u64, connections),
        count_outside(MIN_USES as u64, MAX_USES as u64, uses),
    ])
}

#[tactic(auto, unfolding(aeth_document::specs::Walks::walked))]
fn names(walk: Walk, tables: Tables<'_>) -> Walk
    ensures { result ≡ walked walk (map no_name (names_in (tables_in tables.entry))) }
{
    let mut walk = walk;
    for table in tables {
        walk = walk.check(no_name(text_at(table, "name")));
    }
    walk
}

/// The numbers of a wish as a file tells them, 0 where none stands.
#[derive(Clone, Copy)]
pub(crate) struct WishNumbers {
    pub words: i64,
    pub per: i64,
    pub latency: i64,
    pub delay: i64,
}

/// The numbers of a connection's wish on a side; 0 where no table stands there.
#[tactic(auto, unfolding(aeth_document::specs::Values::integer_at))]
pub(crate) fn wish_numbers(connection: &Table, side: &str) -> WishNumbers
    ensures words { result.words
        ≡ integer_at (codes "words") (wish_at side.now (table_view connection.now)) }
    ensures per { result.per
        ≡ integer_at (codes "per") (wish_at side.now (table_view connection.now)) }
    ensures latency { result.latency
        ≡ integer_at (codes "latency") (wish_at side.now (table_view connection.now)) }
    ensures delay { result.delay
        ≡ integer_at (codes "delay") (wish_at side.now (table_view connection.now)) }
{
    match table_at(connection, side) {
        Some(wish) => WishNumbers {
            words: integer_at(wish, "words"),
            per: integer_at(wish, "per"),
            latency: integer_at(wish, "latency"),
            delay: integer_at(wish, "delay"),
        },
        None => WishNumbers {
            words: 0,
            per: 0,
            latency: 0,
            delay: 0,
        },
    }
}

#[tactic(auto, unfolding(crate::specs::Ranges::wish_ranges))]
fn wish_ranges(walk: Walk, connection: &Table, side: &str) -> Walk
    ensures { result ≡ walked walk (wish_ranges (wish_at side.now (table_view connection.now))) }
{
    let wish = wish_numbers(connection, side);
    walk.checks(&[
        outside(0, MAX_WORDS as u64, wish.words),
        outside(1, MAX_PER as u64, wish.per),
        outside(1, MAX_LATENCY as u64, wish.latency),
        outside(0, MAX_RECEIVER_DELAY as u64, wish.delay),
    ])
}

#[tactic(auto, unfolding(aeth_document::specs::Walks::walked))]
fn wishes(walk: Walk, connections: Tables<'_>) -> Walk
    ensures { result ≡ walked walk
        (flat_map connection_ranges (tables_in connections.entry)) }
{
    let mut walk = walk;
    for connection in connections {
        let after_fwd = wish_ranges(walk, connection, "fwd");
        walk = wish_ranges(after_fwd, connection, "back");
    }
    walk
}

/// The first number or name of the file that is out of its range.
pub(crate) fn out_of_range(root: &Table) -> Option<Broken>
    ensures found { result ≡ out_of_range (table_view root.now) }
    ensures none { result ≡ None → IsInRange (table_view root.now) }
{
    let after_numbers = numbers(Walk::from(1), root);
    let after_cores = names(after_numbers, tables_at(root, "core"));
    let after_connections = names(after_cores, tables_at(root, "connection"));
    let after_uses = names(after_connections, tables_at(root, "use"));
    wishes(after_uses, tables_at(root, "connection")).found()
}

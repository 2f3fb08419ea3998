// What stands at a key.
ghost use Rattle.std.specs.Prelude.{◌≡◌, map, option_map};
ghost use Rattle.toml.specs.Data.{get_member};
ghost use Rattle.toml.specs.View.{view, table_view};
ghost use Rattle.aeth_document.specs.Arrays.{tables_in, texts_in};
ghost use Rattle.aeth_document.specs.Values.{integer_at, integer_if, items_at, table_at, tables_at, text_at};
ghost use Rattle.aeth_document.specs.Values.{text_if, texts_at};

use crate::tables::{Tables, Texts};
use toml::{Table, Value};

/// The value at a key.
pub(crate) fn value_at<'a>(table: &'a Table, key: &str) -> Option<&'a Value>
    ensures { option_map (λ v. view v.now) result ≡ get_member key.now (table_view table.now) }
{
    table.get(key)
}

/// The integer at a key, 0 where none stands there.
#[tactic(auto, unfolding(crate::specs::Values::integer_at))]
pub fn integer_at(table: &Table, key: &str) -> i64
    ensures { result ≡ integer_at key.now (table_view table.now) }
{
    match value_at(table, key) {
        Some(value) => match value.as_integer() {
            Some(number) => number,
            None => 0,
        },
        None => 0,
    }
}

/// The integer at a key, if one stands there.
#[tactic(auto, unfolding(crate::specs::Values::integer_if))]
pub fn integer_if(table: &Table, key: &str) -> Option<i64>
    ensures { result ≡ integer_if key.now (table_view table.now) }
{
    match value_at(table, key) {
        Some(value) => value.as_integer(),
        None => None,
    }
}

/// The text at a key, empty where none stands there.
#[tactic(auto, unfolding(crate::specs::Values::text_at))]
pub fn text_at<'a>(table: &'a Table, key: &str) -> &'a str
    ensures { result.now ≡ text_at key.now (table_view table.now) }
{
    match value_at(table, key) {
        Some(value) => match value.as_str() {
            Some(text) => text,
            None => "",
        },
        None => "",
    }
}

/// The text at a key, if one stands there.
#[tactic(auto, unfolding(crate::specs::Values::text_if))]
pub fn text_if<'a>(table: &'a Table, key: &str) -> Option<&'a str>
    ensures { option_map (λ t. t.now) result ≡ text_if key.now (table_view table.now) }
{
    match value_at(table, key) {
        Some(value) => value.as_str(),
        None => None,
    }
}

/// The table at a key, if one stands there.
#[tactic(auto, unfolding(crate::specs::Values::table_at))]
pub fn table_at<'a>(table: &'a Table, key: &str) -> Option<&'a Table>
    ensures { option_map (λ t. table_view t.now) result ≡ table_at key.now (table_view table.now) }
{
    match value_at(table, key) {
        Some(value) => value.as_table(),
        None => None,
    }
}

#[tactic(auto, unfolding(crate::specs::Values::items_at))]
fn items_at<'a>(table: &'a Table, key: &str) -> &'a [Value]
    ensures { map view result.now ≡ items_at key.now (table_view table.now) }
{
    match value_at(table, key) {
        Some(value) => match value.as_array() {
            Some(values) => values.as_slice(),
            None => &[],
        },
        None => &[],
    }
}

/// The texts of the array at a key, none where no array stands there.
pub fn texts_at<'a>(table: &'a Table, key: &str) -> Texts<'a>
    ensures { texts_in result ≡ texts_at key.now (table_view table.now) }
{
    Texts::among(items_at(table, key))
}

/// The tables of the array at a key, none where no array stands there.
pub fn tables_at<'a>(table: &'a Table, key: &str) -> Tables<'a>
    ensures { tables_in result ≡ tables_at key.now (table_view table.now) }
{
    Tables::among(items_at(table, key))
}

// The keys of a table.
ghost use Rattle.std.specs.Prelude.{◌≡◌, option_map, is_none, is_some};
ghost use Rattle.std.specs.BTreeMap.{IsOrdered};
ghost use Rattle.std.specs.List.{list_all};
ghost use Rattle.std.specs.String.{string_cmp};
ghost use Rattle.toml.specs.Data.{as_array, as_str, as_table, get_member};
ghost use Rattle.toml.specs.View.{view, table_view};
ghost use Rattle.aeth_document.specs.Keys.{all_items, fields_view, has_kind, entries_of};
ghost use Rattle.aeth_document.specs.Keys.{is_expected, is_missing, is_optional};
ghost use Rattle.aeth_document.specs.Keys.{first_of, least, least_wrong_key, lesser_where};
ghost use Rattle.aeth_document.specs.Keys.{missing_keys, misfit_keys};
ghost use Rattle.aeth_document.specs.Keys.{wrong_key};
ghost use Rattle.aeth_document.specs.KeysInOrder.{are_optional, fields_behind, fits_in_order};

use crate::values::value_at;
use aeth_base::{Shown, shown_text};
use toml::{Table, Value};

/// What may stand at a key.
#[derive(Clone, Copy)]
pub enum Kind {
    Integer,
    /// An integer that may be absent.
    OptionalInteger,
    Text,
    /// A text that may be absent.
    OptionalText,
    Table,
    Texts,
    /// An array of texts that may be absent.
    OptionalTexts,
    Tables,
}

/// A key that a table has, and what stands there.
#[derive(Clone, Copy)]
pub struct Field(pub &'static str, pub Kind);

fn are_texts(values: &[Value]) -> bool
    ensures { result ≡ list_all (λ v. is_some (as_str (view v))) values.now }
{
    values.iter().all(|value| value.is_str())
}

fn are_tables(values: &[Value]) -> bool
    ensures { result ≡ list_all (λ v. is_some (as_table (view v))) values.now }
{
    values.iter().all(|value| value.is_table())
}

fn is_texts(value: &Value) -> bool
    ensures { result ≡ all_items (λ x. is_some (as_str x)) (as_array (view value.now)) }
{
    match value.as_array() {
        Some(values) => are_texts(values),
        None => false,
    }
}

fn is_tables(value: &Value) -> bool
    ensures { result ≡ all_items (λ x. is_some (as_table x)) (as_array (view value.now)) }
{
    match value.as_array() {
        Some(values) => are_tables(values),
        None => false,
    }
}

fn has_kind(kind: Kind, value: &Value) -> bool
    ensures { result ≡ has_kind kind (view value.now) }
{
    match kind {
        Kind::Integer | Kind::OptionalInteger => value.is_integer(),
        Kind::Text | Kind::OptionalText => value.is_str(),
        Kind::Table => value.is_table(),
        Kind::Texts | Kind::OptionalTexts => is_texts(value),
        Kind::Tables => is_tables(value),
    }
}

fn is_expected(fields: &[Field], key: &str, value: &Value) -> bool
    ensures { result ≡ is_expected (fields_view fields.now) (key.now, view value.now) }
{
    for field in fields {
        if field.0 == key {
            return has_kind(field.1, value);
        }
    }
    false
}

// The lesser of the keys, where the second is one that counts.
fn lesser_where<'a>(counts: bool, best: Option<&'a str>, key: &'a str) -> Option<&'a str>
    ensures { option_map (λ s. s.now) result
        ≡ lesser_where counts (option_map (λ s. s.now) best.entry) key.now }
{
    match best {
        None => { if counts { Some(key) } else { None } }
        Some(other) => {
            if counts && key < other {
                Some(key)
            } else {
                Some(other)
            }
        }
    }
}

fn is_optional(kind: Kind) -> bool
    ensures { result ≡ is_optional kind }
{
    match kind {
        Kind::OptionalInteger | Kind::OptionalText | Kind::OptionalTexts => true,
        Kind::Integer | Kind::Text | Kind::Table | Kind::Texts | Kind::Tables => false,
    }
}

fn lacks(table: &Table, key: &str) -> bool
    ensures { result ≡ is_none (get_member key.now (table_view table.now)) }
{
    match value_at(table, key) {
        Some(_) => false,
        None => true,
    }
}

fn is_missing(table: &Table, field: &Field) -> bool
    ensures { result ≡ is_missing (table_view table.now) (field.now.0.now, field.now.1) }
{
    if is_optional(field.1) {
        return false;
    }
    lacks(table, field.0)
}

fn missing_key(table: &Table, fields: &[Field]) -> Option<&'static str>
    ensures { option_map (λ s. s.now) result
        ≡ least (missing_keys (table_view table.now) (fields_view fields.now)) }
{
    let mut best: Option<&'static str> = None;
    for field in fields {
        best = lesser_where(is_missing(table, field), best, field.0);
    }
    best
}

// The keys of a table ascend, so the first that doesn't fit is the least.
fn first_misfit<'a>(table: &'a Table, fields: &[Field]) -> Option<&'a str>
    ensures first { option_map (λ s. s.now) result
        ≡ first_of (misfit_keys (fields_view fields.now) (entries_of (table_view table.now))) }
    ensures ordered { IsOrdered string_cmp table.now }
{
    for (key, value) in table {
        if !is_expected(fields, key.as_str(), value) {
            return Some(key.as_str());
        }
    }
    None
}

fn are_optional(fields: &[Field]) -> bool
    ensures { result ≡ are_optional (fields_view fields.now) }
{
    for field in fields {
        if !is_optional(field.1) {
            return false;
        }
    }
    true
}

// The fields behind the one that stands at a key and that the value fits. Only optional ones of
// lesser keys may come before it.
fn fields_behind<'a>(fields: &'a [Field], key: &str, value: &Value) -> Option<&'a [Field]>
    ensures { option_map (λ s. fields_view s.now) result
        ≡ fields_behind (fields_view fields.now) (key.now, view value.now) }
{
    let mut left = fields;
    while let Some((field, others)) = left.split_first() {
        if field.0 == key {
            return if has_kind(field.1, value) {
                Some(others)
            } else {
                None
            };
        }
        if !is_optional(field.1) || field.0 >= key {
            return None;
        }
        left = others;
    }
    None
}

// Whether the keys of a table are its fields in their order, as far as one pass over both tells.
fn fits_in_order(table: &Table, fields: &[Field]) -> bool
    ensures fits { result ≡ fits_in_order (fields_view fields.now)
        (entries_of (table_view table.now)) }
    ensures ordered { IsOrdered string_cmp table.now }
{
    let mut left = fields;
    for (key, value) in table {
        match fields_behind(left, key.as_str(), value) {
            Some(others) => left = others,
            None => return false,
        }
    }
    are_optional(left)
}

fn least_wrong_key<'a>(table: &'a Table, fields: &[Field]) -> Option<&'a str>
    ensures { option_map (λ s. s.now) result
        ≡ least_wrong_key (fields_view fields.now) (table_view table.now) }
{
    if fits_in_order(table, fields) {
        return None;
    }
    let missing = missing_key(table, fields);
    match first_misfit(table, fields) {
        None => missing,
        Some(key) => lesser_where(true, missing, key),
    }
}

/// The least key in byte order that the table lacks, that it has beside its fields, or whose value
/// is of another kind.
pub fn wrong_key(table: &Table, fields: &[Field]) -> Option<Shown>
    ensures { result ≡ wrong_key (fields_view fields.now) (table_view table.now) }
{
    match least_wrong_key(table, fields) {
        None => None,
        Some(key) => Some(shown_text(key)),
    }
}

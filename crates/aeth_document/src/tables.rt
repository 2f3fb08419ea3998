// The tables and the texts of an array, one after the other.
ghost use Rattle.aeth_document.specs.Arrays.{tables_in, texts_in};
ghost use Rattle.std.specs.List.{filter_map};
ghost use Rattle.std.specs.Prelude.{◌≡◌, ◌∷◌, [], length, map, MatchOption};
ghost use Rattle.toml.specs.Data.{as_str, as_table};
ghost use Rattle.toml.specs.View.{table_view, view};

use toml::{Table, Value};

/// The tables of an array in their order, as an iterator over those that are left. Values of
/// another kind are passed over.
#[derive(Clone, Copy)]
pub struct Tables<'a> {
    values: &'a [Value],
}

impl<'a> Tables<'a> {
    /// The tables among some values.
    pub(crate) fn among(values: &'a [Value]) -> Tables<'a>
        ensures { tables_in result ≡ filter_map as_table (map view values.now) }
    {
        Tables { values }
    }

    /// How many tables are left.
    pub fn count_left(&self) -> usize
        ensures { result ≡ length (tables_in self.now) }
    {
        count_tables(self.values)
    }
}

impl<'a> Iterator for Tables<'a> {
    ghost use Rattle.std.specs.Iterator.{YieldsFirstBy, item_count};
    ghost use Rattle.aeth_document.specs.Arrays.{tables_in};
    ghost use Rattle.toml.specs.View.{table_view};

    type Item = &'a Table;

    ghost next_gives = { YieldsFirstBy (λ t. table_view t.now) tables_in };

    ghost remaining = { item_count tables_in };

    fn next(&mut self) -> Option<&'a Table> {
        match first_table(self.values) {
            None => {
                self.values = &[];
                None
            }
            Some((table, others)) => {
                self.values = others;
                Some(table)
            }
        }
    }
}

// The first table among some values, and the values behind it.
fn first_table(values: &[Value]) -> Option<(&Table, &[Value])>
    ensures { MatchOption result (filter_map as_table (map view values.now) ≡ [])
        (λ found. filter_map as_table (map view values.now)
        ≡ table_view found.0.now ∷ filter_map as_table (map view found.1.now)) }
{
    let mut left = values;
    while let Some((value, others)) = left.split_first() {
        if let Some(table) = value.as_table() {
            return Some((table, others));
        }
        left = others;
    }
    None
}

// How many tables are among some values.
fn count_tables(values: &[Value]) -> usize
    ensures { result ≡ length (filter_map as_table (map view values.now)) }
{
    let mut count = 0;
    for value in values {
        if let Some(_) = value.as_table() {
            count += 1;
        }
    }
    count
}

/// The texts of an array in their order, as an iterator over those that are left. Values of another
/// kind are passed over.
#[derive(Clone, Copy)]
pub struct Texts<'a> {
    values: &'a [Value],
}

impl<'a> Texts<'a> {
    /// The texts among some values.
    pub(crate) fn among(values: &'a [Value]) -> Texts<'a>
        ensures { texts_in result ≡ filter_map as_str (map view values.now) }
    {
        Texts { values }
    }

    /// How many texts are left.
    pub fn count_left(&self) -> usize
        ensures { result ≡ length (texts_in self.now) }
    {
        count_texts(self.values)
    }

    // As many as there are texts left at most.
    pub(crate) fn values_left(&self) -> usize {
        self.values.len()
    }
}

impl<'a> Iterator for Texts<'a> {
    ghost use Rattle.aeth_document.specs.Arrays.{texts_in};
    ghost use Rattle.std.specs.Iterator.{YieldsFirstBy, item_count};

    type Item = &'a str;

    ghost next_gives = { YieldsFirstBy (λ t. t.now) texts_in };

    ghost remaining = { item_count texts_in };

    fn next(&mut self) -> Option<&'a str> {
        match first_text(self.values) {
            None => {
                self.values = &[];
                None
            }
            Some((text, others)) => {
                self.values = others;
                Some(text)
            }
        }
    }
}

// The first text among some values, and the values behind it.
fn first_text(values: &[Value]) -> Option<(&str, &[Value])>
    ensures { MatchOption result (filter_map as_str (map view values.now) ≡ [])
        (λ found. filter_map as_str (map view values.now)
        ≡ found.0.now ∷ filter_map as_str (map view found.1.now)) }
{
    let mut left = values;
    while let Some((value, others)) = left.split_first() {
        if let Some(text) = value.as_str() {
            return Some((text, others));
        }
        left = others;
    }
    None
}

// How many texts are among some values.
fn count_texts(values: &[Value]) -> usize
    ensures { result ≡ length (filter_map as_str (map view values.now)) }
{
    let mut count = 0;
    for value in values {
        if let Some(_) = value.as_str() {
            count += 1;
        }
    }
    count
}

// The cores, connections and use cases that the tables of an application file tell.
ghost use Rattle.std.specs.Prelude.{◌≡◌, ◌<◌, ◌^◌, ◌++◌, ◌∷◌, [], ℕ, codes, length, map};
ghost use Rattle.std.specs.Prelude.{option_map, All, IfOk, List};
ghost use Rattle.aeth_app.specs.Tables.{wish_at};
ghost use Rattle.aeth_app.specs.Parts.{connection_of, core_of, end_of, named_marks, told_price};
ghost use Rattle.aeth_app.specs.Parts.{use_of, wish_in};
ghost use Rattle.aeth_app.specs.Ranges.{IsConnectionInRange, IsNamed, IsWishInRange};
ghost use Rattle.aeth_document.specs.Arrays.{tables_in, texts_in};
ghost use Rattle.aeth_document.specs.Values.{text_at};
ghost use Rattle.toml.specs.View.{table_view};

use crate::app::PartNames;
use crate::connection::{Connection, Core, Price, Wish};
use crate::names::{name_at, ni_of};
use crate::ranges::wish_numbers;
use crate::use_case::UseCase;
use aeth_base::{CoreId, Names, NoMemory};
use aeth_chip::Chip;
use aeth_document::{Tables, Texts, place_of, size, text_at, text_if, texts_at};
use std::alloc::Global;
use toml::Table;

/// The cores of the tables.
pub(crate) fn cores_of(
    alloc: Global,
    chip: &Chip,
    tables: Tables<'_>,
) -> Result<Vec<Core>, NoMemory>
    requires { All IsNamed (tables_in tables) }
    ensures { IfOk result (λ cores. cores.items
        ≡ map (core_of chip.now.nis) (tables_in tables.entry)) }
{
    let mut cores = Vec::new(alloc);
    for table in tables {
        cores.push(Core {
            name: name_at(table),
            fixed: ni_of(chip, text_if(table, "ni")),
        })?;
    }
    Ok(cores)
}

fn wish_in(connection: &Table, side: &str) -> Wish
    requires { IsWishInRange (wish_at side.now (table_view connection.now)) }
    ensures { result ≡ wish_in (wish_at side.now (table_view connection.now)) }
{
    let wish = wish_numbers(connection, side);
    Wish {
        words: size(wish.words) as u32,
        per: size(wish.per) as u32,
        latency: size(wish.latency) as u32,
        delay: size(wish.delay) as u32,
    }
}

fn end_of(cores: &Names, text: &str) -> CoreId
    requires { length cores.now < 2 ^ 32 }
    ensures { result ≡ end_of cores.now text.now }
{
    CoreId(place_of(cores, text).unwrap_or(0))
}

/// The connections of the tables, between cores of these names.
pub(crate) fn connections_of(
    alloc: Global,
    cores: &Names,
    tables: Tables<'_>,
) -> Result<Vec<Connection>, NoMemory>
    requires cores { length cores.now < 2 ^ 32 }
    requires named { All IsNamed (tables_in tables) }
    requires wishes { All IsConnectionInRange (tables_in tables) }
    ensures { IfOk result (λ connections. connections.items
        ≡ map (connection_of cores.now) (tables_in tables.entry)) }
{
    let mut connections = Vec::new(alloc);
    for table in tables {
        connections.push(Connection {
            name: name_at(table),
            from: end_of(cores, text_at(table, "from")),
            to: end_of(cores, text_at(table, "to")),
            fwd: wish_in(table, "fwd"),
            back: wish_in(table, "back"),
        })?;
    }
    Ok(connections)
}

// Sets the mark of the name that a text is, if it is one.
fn mark(marks: &mut Vec<bool>, names: &Names, text: &str)
    requires few { length names.now < 2 ^ 32 }
    requires size { length marks.old.items ≡ length names.now }
    ensures { (texts : List (List ℕ)) → marks.old.items ≡ named_marks names.now texts
        → marks.new.items ≡ named_marks names.now (texts ++ text.now ∷ []) }
{
    if let Some(place) = place_of(names, text) {
        marks[place as usize] = true;
    }
}

// For each of the names whether it is among the texts.
fn named_marks(alloc: Global, names: &Names, texts: Texts<'_>) -> Result<Vec<bool>, NoMemory>
    requires { length names.now < 2 ^ 32 }
    ensures { IfOk result (λ marks. marks.items
        ≡ named_marks names.now (texts_in texts.entry)) }
{
    let mut marks = vec![in alloc; false; names.len()]?;
    for text in texts {
        mark(&mut marks, names, text);
    }
    Ok(marks)
}

/// The use cases of the tables, with connections and use cases of these names.
pub(crate) fn uses_of(
    alloc: Global,
    names: &PartNames,
    tables: Tables<'_>,
) -> Result<Vec<UseCase>, NoMemory>
    requires connections { length names.now.connections < 2 ^ 32 }
    requires uses { length names.now.uses < 2 ^ 32 }
    requires named { All IsNamed (tables_in tables) }
    ensures { IfOk result (λ uses. uses.items
        ≡ map (use_of names.now.connections names.now.uses) (tables_in tables.entry)) }
{
    let mut uses = Vec::new(alloc);
    for table in tables {
        uses.push(UseCase {
            name: name_at(table),
            has: named_marks(alloc, &names.connections, texts_at(table, "connections"))?,
            smooth: named_marks(alloc, &names.uses, texts_at(table, "smooth"))?,
        })?;
    }
    Ok(uses)
}

/// What links cost by a text: pressure where it says so, else each the same.
pub(crate) fn told_price(text: Option<&str>) -> Price
    ensures { result ≡ told_price (option_map (λ t. t.now) text.entry) }
{
    match text {
        Some("pressure") => Price::Pressure,
        _ => Price::Hops,
    }
}

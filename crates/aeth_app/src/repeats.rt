// Names that stand twice in an application file.
ghost use Rattle.std.specs.Prelude.{◌≡◌, [], flat_map, map, IfOk, None};
ghost use Rattle.aeth_app.specs.Repeats.{HasDistinctNames, name_twice, repeated_connections};
ghost use Rattle.aeth_app.specs.Tables.{names_in};
ghost use Rattle.aeth_document.specs.Arrays.{tables_in, texts_in};
ghost use Rattle.aeth_document.specs.Walks.{repeats, walked};
ghost use Rattle.toml.specs.View.{table_view};

use aeth_base::{Broken, NoMemory};
use aeth_document::{Tables, Texts, Walk, repeated, repeats, tables_at, text_at, texts_at};
use indexmap::IndexSet;
use std::alloc::Global;
use toml::Table;

// The walk after a check of each table's name, which is to differ from those of a set and from the names
// before it.
#[tactic(auto, unfolding(aeth_document::specs::Walks::walked))]
fn with_names<'a>(
    walk: Walk,
    seen: &mut IndexSet<&'a str>,
    tables: Tables<'a>,
) -> Result<Walk, NoMemory>
    ensures { IfOk result (λ after. after ≡ walked walk
        (repeats (map (λ t. t.now) seen.old.keys) (names_in (tables_in tables.entry)))) }
{
    let mut walk = walk;
    for table in tables {
        walk = walk.check(repeated(seen, text_at(table, "name"))?);
        if !walk.goes_on() {
            return Ok(walk);
        }
    }
    Ok(walk)
}

// The same with a set that has none yet.
fn repeated_names(alloc: Global, walk: Walk, tables: Tables<'_>) -> Result<Walk, NoMemory>
    ensures { IfOk result (λ after. after ≡ walked walk
        (repeats [] (names_in (tables_in tables.entry)))) }
{
    let mut seen = IndexSet::new(alloc);
    with_names(walk, &mut seen, tables)
}

// The walk after a check of each text, which is to differ from those before it.
fn repeated_texts(alloc: Global, walk: Walk, texts: Texts<'_>) -> Result<Walk, NoMemory>
    ensures { IfOk result (λ after. after ≡ walked walk (repeats [] (texts_in texts.entry))) }
{
    let mut seen = IndexSet::new(alloc);
    repeats(walk, &mut seen, texts)
}

#[tactic(auto, unfolding(aeth_document::specs::Walks::walked))]
fn repeated_connections(alloc: Global, walk: Walk, uses: Tables<'_>) -> Result<Walk, NoMemory>
    ensures { IfOk result (λ after. after ≡ walked walk
        (flat_map repeated_connections (tables_in uses.entry))) }
{
    let mut walk = walk;
    for one in uses {
        walk = repeated_texts(alloc, walk, texts_at(one, "connections"))?;
    }
    Ok(walk)
}

/// The first name that stands twice in its list.
pub(crate) fn name_twice(alloc: Global, root: &Table) -> Result<Option<Broken>, NoMemory>
    ensures found { IfOk result (λ found. found ≡ name_twice (table_view root.now)) }
    ensures none { IfOk result (λ found. found ≡ None → HasDistinctNames (table_view root.now)) }
{
    let after_cores = repeated_names(alloc, Walk::from(0), tables_at(root, "core"))?;
    let after_connections = repeated_names(alloc, after_cores, tables_at(root, "connection"))?;
    let after_uses = repeated_names(alloc, after_connections, tables_at(root, "use"))?;
    Ok(repeated_connections(alloc, after_uses, tables_at(root, "use"))?.found())
}

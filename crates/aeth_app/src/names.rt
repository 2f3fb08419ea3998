// The names of an application file's cores, connections and use cases.
ghost use Rattle.std.specs.Prelude.{◌≡◌, codes, option_map, true, All, IfOk};
ghost use Rattle.aeth_base.specs.Name.{is_name};
ghost use Rattle.aeth_app.specs.Parts.{ni_of};
ghost use Rattle.aeth_app.specs.Ranges.{IsInRange, IsNamed};
ghost use Rattle.aeth_app.specs.Names.{AreNamesOf};
ghost use Rattle.aeth_app.specs.Tables.{names_in};
ghost use Rattle.aeth_document.specs.Arrays.{tables_in};
ghost use Rattle.aeth_document.specs.Values.{text_at};
ghost use Rattle.toml.specs.View.{table_view};

use crate::app::PartNames;
use aeth_base::{Name, Names, NiId, NoMemory};
use aeth_chip::Chip;
use aeth_document::{Tables, tables_at, text_at};
use std::alloc::Global;
use toml::Table;

/// The name of a table.
pub(crate) fn name_at(table: &Table) -> Name
    requires { is_name (text_at (codes "name") (table_view table.now)) ≡ true }
    ensures { result ≡ text_at (codes "name") (table_view table.now) }
{
    Name::new(text_at(table, "name").as_bytes()).unwrap()
}

// The names of the tables, as a list.
fn list_of(alloc: Global, tables: Tables<'_>) -> Result<Vec<Name>, NoMemory>
    requires { All IsNamed (tables_in tables) }
    ensures { IfOk result (λ list. list.items ≡ names_in (tables_in tables.entry)) }
{
    let mut list = Vec::new(alloc);
    for table in tables {
        list.push(name_at(table))?;
    }
    Ok(list)
}

// The names of the tables.
fn names_in(alloc: Global, tables: Tables<'_>) -> Result<Names, NoMemory>
    requires { All IsNamed (tables_in tables) }
    ensures { IfOk result (λ names. names ≡ names_in (tables_in tables.entry)) }
{
    let list = list_of(alloc, tables)?;
    Names::of(alloc, list)
}

/// The names of a file.
pub(crate) fn names_of(alloc: Global, root: &Table) -> Result<PartNames, NoMemory>
    requires { IsInRange (table_view root.now) }
    ensures { IfOk result (AreNamesOf (table_view root.now)) }
{
    Ok(PartNames {
        cores: names_in(alloc, tables_at(root, "core"))?,
        connections: names_in(alloc, tables_at(root, "connection"))?,
        uses: names_in(alloc, tables_at(root, "use"))?,
    })
}

/// The network interface that a text names, if there is a text that names one.
pub(crate) fn ni_of(chip: &Chip, text: Option<&str>) -> Option<NiId>
    ensures { result ≡ ni_of chip.now.nis (option_map (λ t. t.now) text.entry) }
{
    chip.find_ni(&Name::new(text?.as_bytes())?)
}

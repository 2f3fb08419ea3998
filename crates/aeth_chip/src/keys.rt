// The keys of a chip file's tables, what stands at those of the root, and rule 2.
ghost use Rattle.std.specs.Prelude.{◌≡◌};
ghost use Rattle.aeth_base.specs.Faults.{Reads};
ghost use Rattle.aeth_chip.specs.ChipFile.{keys_fit, link_fields, wrong_keys};
ghost use Rattle.aeth_chip.specs.Faults.{rule_of};
ghost use Rattle.aeth_chip.specs.Told.{allows_delays, link_tables, nis_of, routers_of, version_of};
ghost use Rattle.aeth_document.specs.Arrays.{tables_in, texts_in};
ghost use Rattle.aeth_document.specs.Keys.{fields_view};
ghost use Rattle.aeth_document.specs.Walks.{walked};
ghost use Rattle.toml.specs.View.{table_view};

use crate::fault::ChipFault;
use aeth_document::{Field, Kind, Tables, Texts, Walk, integer_at, tables_at, texts_at, wrong_key};
use toml::Table;

const ROOT: [Field; 5] = [
    Field("link", Kind::Tables),
    Field("nis", Kind::Texts),
    Field("routers", Kind::Texts),
    Field("slots", Kind::Integer),
    Field("version", Kind::Integer),
];

const LINK: [Field; 2] = [Field("from", Kind::Text), Field("to", Kind::Text)];

const LINK_WITH_DELAY: [Field; 3] = [
    Field("delay", Kind::OptionalInteger),
    Field("from", Kind::Text),
    Field("to", Kind::Text),
];

pub(crate) fn version_of(root: &Table) -> i64
    ensures { result ≡ version_of (table_view root.now) }
{
    integer_at(root, "version")
}

pub(crate) fn routers_of(root: &Table) -> Texts<'_>
    ensures { texts_in result ≡ routers_of (table_view root.now) }
{
    texts_at(root, "routers")
}

pub(crate) fn nis_of(root: &Table) -> Texts<'_>
    ensures { texts_in result ≡ nis_of (table_view root.now) }
{
    texts_at(root, "nis")
}

pub(crate) fn link_tables(root: &Table) -> Tables<'_>
    ensures { tables_in result ≡ link_tables (table_view root.now) }
{
    tables_at(root, "link")
}

// Whether the version of the file allows delays.
pub(crate) fn allows_delays(root: &Table) -> bool
    ensures { result ≡ allows_delays (version_of (table_view root.now)) }
{
    version_of(root) == 2
}

fn link_fields(root: &Table) -> &'static [Field]
    ensures { fields_view result.now ≡ link_fields (version_of (table_view root.now)) }
{
    if allows_delays(root) {
        &LINK_WITH_DELAY
    } else {
        &LINK
    }
}

// The walk after a check of each table's keys.
#[tactic(auto, unfolding(crate::specs::ChipFile::wrong_keys), using(aeth_document::proofs::WalkLemmas::walk_laws))]
fn wrong_keys(walk: Walk, root: &Table) -> Walk
    ensures { result ≡ walked walk (wrong_keys (table_view root.now)) }
{
    walk.check(wrong_key(root, &ROOT))
        .keys(link_tables(root), link_fields(root))
}

#[tactic(auto, unfolding(crate::specs::ChipFile::keys_fit), using(aeth_document::proofs::WalkLemmas::walk_laws))]
pub(crate) fn judge_keys(root: &Table) -> Result<(), ChipFault>
    ensures { Reads rule_of (λ u. u) result (keys_fit (table_view root.now)) }
{
    match wrong_keys(Walk::from(0), root).found() {
        None => Ok(()),
        Some(broken) => Err(ChipFault::WrongKey(broken)),
    }
}

// The links of a file, from the names of their ends.
ghost use Rattle.std.specs.Prelude.{◌≡◌, ◌<◌, ◌^◌, codes, false, length, map, pos, IfOk};
ghost use Rattle.std.specs.List.{AllByRecursion};
ghost use Rattle.aeth_chip.specs.ChipFile.{unknown_end};
ghost use Rattle.aeth_chip.specs.NamedEnds.{AreNamed, IsNamed};
ghost use Rattle.aeth_chip.specs.Told.{HasDelay, delay_at, known, link_of, node_of};
ghost use Rattle.aeth_document.specs.Arrays.{tables_in};
ghost use Rattle.aeth_document.specs.Values.{text_at};
ghost use Rattle.aeth_document.specs.Walks.{first_broken};
ghost use Rattle.toml.specs.View.{table_view};

use crate::node::{Link, Node};
use aeth_base::{Broken, Names, NiId, NoMemory, RouterId};
use aeth_document::{Shown, Tables, Walk, integer_if, place_of, shown_text, size, text_at};
use std::alloc::Global;
use toml::Table;

/// The names of a file's routers and network interfaces, which are distinct.
#[derive(Drop)]
pub(crate) struct NodeNames {
    pub routers: Names,
    pub nis: Names,
}

// A text of a file, and the node that it names.
#[derive(Clone, Copy)]
pub(crate) struct NamedEnd<'a> {
    pub text: &'a str,
    pub node: Option<Node>,
}

// The two ends of a link.
#[derive(Clone, Copy)]
pub(crate) struct NamedEnds<'a> {
    pub from: NamedEnd<'a>,
    pub to: NamedEnd<'a>,
}

// The delay of a link, 1 where none stands there.
pub(crate) fn delay_at(link: &Table) -> i64
    ensures { result ≡ delay_at (table_view link.now) }
{
    match integer_if(link, "delay") {
        Some(delay) => delay,
        None => 1,
    }
}

// The same, which is 1 for each link where they have no delays.
fn told_delay(link: &Table, has_delays: bool) -> i64
    requires { has_delays ≡ false → delay_at (table_view link.now) ≡ pos 1 }
    ensures { result ≡ delay_at (table_view link.now) }
{
    if has_delays { delay_at(link) } else { 1 }
}

#[tactic(auto, unfolding(crate::specs::Told::node_of))]
fn node_of(names: &NodeNames, text: &str) -> Option<Node>
    requires routers { length names.now.routers < 2 ^ 32 }
    requires nis { length names.now.nis < 2 ^ 32 }
    ensures { result ≡ node_of names.now.routers names.now.nis text.now }
{
    match place_of(&names.routers, text) {
        Some(router) => Some(Node::Router(RouterId(router))),
        None => match place_of(&names.nis, text) {
            Some(ni) => Some(Node::Ni(NiId(ni))),
            None => None,
        },
    }
}

// A node that may be unknown; router 0 stands for an unknown one.
fn known(node: Option<Node>) -> Node
    ensures { result ≡ known node }
{
    match node {
        Some(node) => node,
        None => Node::Router(RouterId(0)),
    }
}

// The ends before the first link: the empty text, and what it names.
fn no_ends(names: &NodeNames) -> NamedEnds<'static>
    requires routers { length names.now.routers < 2 ^ 32 }
    requires nis { length names.now.nis < 2 ^ 32 }
    ensures { AreNamed names.now.routers names.now.nis result }
{
    let end = NamedEnd {
        text: "",
        node: node_of(names, ""),
    };
    NamedEnds { from: end, to: end }
}

// The node that a text names, as it was found for an end before where the text is the same.
fn named_end<'a>(names: &NodeNames, text: &'a str, before: NamedEnd<'a>) -> NamedEnd<'a>
    requires routers { length names.now.routers < 2 ^ 32 }
    requires nis { length names.now.nis < 2 ^ 32 }
    requires before { IsNamed names.now.routers names.now.nis before }
    ensures text { result.text.now ≡ text.now }
    ensures node { IsNamed names.now.routers names.now.nis result }
{
    if text == before.text {
        return before;
    }
    NamedEnd {
        text,
        node: node_of(names, text),
    }
}

// The ends of a table's link, after those of the link before: links often stand in pairs, one for
// each way, so one begins where the one before ends, and ends where that begins.
fn ends_in<'a>(names: &NodeNames, table: &'a Table, before: NamedEnds<'a>) -> NamedEnds<'a>
    requires routers { length names.now.routers < 2 ^ 32 }
    requires nis { length names.now.nis < 2 ^ 32 }
    requires before { AreNamed names.now.routers names.now.nis before }
    ensures from { result.from.text.now ≡ text_at (codes "from") (table_view table.now) }
    ensures to { result.to.text.now ≡ text_at (codes "to") (table_view table.now) }
    ensures named { AreNamed names.now.routers names.now.nis result }
{
    NamedEnds {
        from: named_end(names, text_at(table, "from"), before.to),
        to: named_end(names, text_at(table, "to"), before.from),
    }
}

// The link of a table, after one with these ends; the first of its own ends that names no node; and
// its ends.
fn told_link<'a>(
    names: &NodeNames,
    table: &'a Table,
    before: NamedEnds<'a>,
    has_delays: bool,
) -> (Link, Option<Shown>, NamedEnds<'a>)
    requires routers { length names.now.routers < 2 ^ 32 }
    requires nis { length names.now.nis < 2 ^ 32 }
    requires before { AreNamed names.now.routers names.now.nis before }
    requires delay { HasDelay (table_view table.now) }
    requires none { has_delays ≡ false → delay_at (table_view table.now) ≡ pos 1 }
    ensures link { result.0
        ≡ link_of names.now.routers names.now.nis (table_view table.now) }
    ensures unknown { result.1
        ≡ unknown_end names.now.routers names.now.nis (table_view table.now) }
    ensures ends { AreNamed names.now.routers names.now.nis result.2 }
{
    let ends = ends_in(names, table, before);
    let unknown = if ends.from.node.is_none() {
        Some(shown_text(ends.from.text))
    } else if ends.to.node.is_none() {
        Some(shown_text(ends.to.text))
    } else {
        None
    };
    let link = Link {
        from: known(ends.from.node),
        to: known(ends.to.node),
        delay: size(told_delay(table, has_delays)) as u32,
    };
    (link, unknown, ends)
}

/// The links of the tables, which may have delays or have none, and the first of their ends that
/// names no node.
#[tactic(auto, using(aeth_document::proofs::WalkLemmas::walk_laws), unfolding(aeth_document::specs::Walks::walked))]
pub(crate) fn links_of(
    alloc: Global,
    names: &NodeNames,
    tables: Tables<'_>,
    has_delays: bool,
) -> Result<(Vec<Link>, Option<Broken>), NoMemory>
    requires routers { length names.now.routers < 2 ^ 32 }
    requires nis { length names.now.nis < 2 ^ 32 }
    requires delays { AllByRecursion HasDelay (tables_in tables) }
    requires none { has_delays ≡ false
        → AllByRecursion (λ link. delay_at link ≡ pos 1) (tables_in tables) }
    ensures links { IfOk result (λ told. told.0.items
        ≡ map (link_of names.now.routers names.now.nis) (tables_in tables.entry)) }
    ensures unknown { IfOk result (λ told. told.1 ≡ first_broken 0
        (map (unknown_end names.now.routers names.now.nis) (tables_in tables.entry))) }
{
    let mut links = Vec::new(alloc);
    let mut walk = Walk::from(0);
    let mut before = no_ends(names);
    for table in tables {
        let (link, unknown, ends) = told_link(names, table, before, has_delays);
        before = ends;
        links.push(link)?;
        walk = walk.check(unknown);
    }
    Ok((links, walk.found()))
}

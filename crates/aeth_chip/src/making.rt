// Making a chip of a file that keeps the rules on keys, numbers and names, after the rules on links.
ghost use Rattle.std.specs.Prelude.{◌≡◌, ◌<◌, ◌≤◌, ℕ, Ok, length, IfOk};
ghost use Rattle.aeth_base.specs.Faults.{Reads};
ghost use Rattle.aeth_base.specs.Limits.{max_slots};
ghost use Rattle.aeth_base.specs.declared.ids.NiId.{NiId};
ghost use Rattle.aeth_chip.specs.Chip.{IsChip, IsSingle};
ghost use Rattle.aeth_chip.specs.ChipFile.{chip_in, ends_are_known, is_in_range, keys_fit};
ghost use Rattle.aeth_chip.specs.ChipFile.{judged_links, names_differ, nis_are_single, ports_are_few};
ghost use Rattle.aeth_chip.specs.ChipParts.{chip_with};
ghost use Rattle.aeth_chip.specs.Faults.{rule_of};
ghost use Rattle.aeth_chip.specs.Index.{AreLinkLists, AreNiLinks, AreRouterLinks, IsIndex};
ghost use Rattle.aeth_chip.specs.Limits.{max_links, max_nis, max_routers};
ghost use Rattle.aeth_chip.specs.Told.{nis_of, routers_of, slots_of, told_links};
ghost use Rattle.aeth_chip.specs.Wires.{HaveDelays};
ghost use Rattle.aeth_document.specs.Walks.{size_of};
ghost use Rattle.toml.specs.View.{table_view};

use crate::chip::Chip;
use crate::fault::ChipFault;
use crate::index::{Index, IndexedLinks, ends_and_wires};
use crate::keys::{allows_delays, link_tables, nis_of, routers_of};
use crate::links::{NodeNames, links_of};
use crate::lists::{ListedLinks, listed_links};
use crate::node::Link;
use crate::ports::{crowded_routers, unjoined_nis};
use aeth_base::NoMemory;
use aeth_document::{Walk, integer_at, names_of, size};
use std::alloc::Global;
use toml::Table;

// The names of the routers and of the network interfaces.
fn names_in(alloc: Global, root: &Table) -> Result<NodeNames, NoMemory>
    requires { is_in_range (table_view root.now) ≡ Ok tt }
    ensures routers { IfOk result (λ names. names.routers ≡ routers_of (table_view root.now)) }
    ensures nis { IfOk result (λ names. names.nis ≡ nis_of (table_view root.now)) }
    ensures few_routers { IfOk result (λ names. length names.routers ≤ max_routers) }
    ensures few_nis { IfOk result (λ names. length names.nis ≤ max_nis) }
{
    let routers = names_of(alloc, routers_of(root))?;
    let nis = names_of(alloc, nis_of(root))?;
    Ok(NodeNames { routers, nis })
}

// The links of a file whose routers and network interfaces have these names, or the first that has
// an end without a name of these.
#[tactic(auto, unfolding(crate::specs::ChipFile::ends_are_known))]
fn known_links(alloc: Global, root: &Table, names: &NodeNames) -> Result<Vec<Link>, ChipFault>
    requires keys { keys_fit (table_view root.now) ≡ Ok tt }
    requires range { is_in_range (table_view root.now) ≡ Ok tt }
    requires routers { names.now.routers ≡ routers_of (table_view root.now) }
    requires nis { names.now.nis ≡ nis_of (table_view root.now) }
    requires few_routers { length names.now.routers ≤ max_routers }
    requires few_nis { length names.now.nis ≤ max_nis }
    ensures gives { Reads rule_of (λ _. tt) result (ends_are_known (table_view root.now)) }
    ensures links { IfOk result (λ links. links.items ≡ told_links (table_view root.now)) }
{
    let (links, unknown) = links_of(alloc, names, link_tables(root), allows_delays(root))?;
    match unknown {
        None => Ok(links),
        Some(broken) => Err(ChipFault::UnknownName(broken)),
    }
}

#[tactic(auto, unfolding(crate::specs::ChipFile::ports_are_few), using(aeth_document::proofs::WalkLemmas::walk_laws))]
fn judge_ports(routers: u32, listed: &ListedLinks) -> Result<(), ChipFault>
    requires { AreRouterLinks listed.now.links.items routers listed.now.routers }
    ensures { Reads rule_of (λ u. u) result (ports_are_few routers listed.now.links.items) }
{
    match crowded_routers(Walk::from(0), routers, listed).found() {
        None => Ok(()),
        Some(broken) => Err(ChipFault::TooManyPorts(broken)),
    }
}

#[tactic(auto, unfolding(crate::specs::ChipFile::nis_are_single), using(aeth_document::proofs::WalkLemmas::walk_laws))]
fn judge_nis(root: &Table, nis: u32, listed: &ListedLinks) -> Result<(), ChipFault>
    requires lists { AreNiLinks listed.now.links.items nis listed.now.nis }
    requires nis { length (nis_of (table_view root.now)) ≡ nis }
    ensures { Reads rule_of (λ u. u) result
        (nis_are_single (nis_of (table_view root.now)) listed.now.links.items) }
{
    match unjoined_nis(Walk::from(0), nis_of(root), nis, listed).found() {
        None => Ok(()),
        Some(broken) => Err(ChipFault::NiNotSingle(broken)),
    }
}

fn slots_of(root: &Table) -> u32
    requires { size_of (slots_of (table_view root.now)) ≤ max_slots }
    ensures { result ≡ size_of (slots_of (table_view root.now)) }
{
    size(integer_at(root, "slots")) as u32
}

// The links of a file whose routers and network interfaces have these names, with lists of them for
// each, or the first rule on links that it breaks.
#[tactic(auto, unfolding(crate::specs::ChipFile::judged_links))]
fn judged_links(alloc: Global, root: &Table, names: &NodeNames) -> Result<ListedLinks, ChipFault>
    requires keys { keys_fit (table_view root.now) ≡ Ok tt }
    requires range { is_in_range (table_view root.now) ≡ Ok tt }
    requires routers { names.now.routers ≡ routers_of (table_view root.now) }
    requires nis { names.now.nis ≡ nis_of (table_view root.now) }
    requires few_routers { length names.now.routers ≤ max_routers }
    requires few_nis { length names.now.nis ≤ max_nis }
    ensures gives { Reads rule_of (λ listed. listed.links.items) result
        (judged_links (table_view root.now)) }
    ensures lists { IfOk result
        (AreLinkLists (length names.now.routers) (length names.now.nis)) }
{
    let links = known_links(alloc, root, names)?;
    let routers = names.routers.len() as u32;
    let nis = names.nis.len() as u32;
    let listed = listed_links(alloc, routers, nis, links)?;
    judge_ports(routers, &listed)?;
    judge_nis(root, nis, &listed)?;
    Ok(listed)
}

// Links with an index of them.
fn with_index(alloc: Global, nis: u32, listed: ListedLinks) -> Result<IndexedLinks, NoMemory>
    requires few { length listed.links.items ≤ max_links }
    requires delays { HaveDelays listed.links.items }
    requires lists { (routers : ℕ) × AreLinkLists routers nis listed }
    requires single { (ni : NiId) → ni.0 < nis → IsSingle listed.links.items ni }
    ensures links { IfOk result (λ its. its.links.items ≡ listed.links.items) }
    ensures index { (routers : ℕ) → AreLinkLists routers nis listed
        → IfOk result (λ its. IsIndex its.links.items routers nis its.index) }
{
    let found = ends_and_wires(alloc, nis, &listed)?;
    Ok(IndexedLinks {
        links: listed.links,
        index: Index {
            routers: listed.routers,
            found,
        },
    })
}

// The same of a file's links, or the first rule on links that it breaks.
fn indexed_links(alloc: Global, root: &Table, names: &NodeNames) -> Result<IndexedLinks, ChipFault>
    requires keys { keys_fit (table_view root.now) ≡ Ok tt }
    requires range { is_in_range (table_view root.now) ≡ Ok tt }
    requires differ { names_differ (table_view root.now) ≡ Ok tt }
    requires routers { names.now.routers ≡ routers_of (table_view root.now) }
    requires nis { names.now.nis ≡ nis_of (table_view root.now) }
    requires few_routers { length names.now.routers ≤ max_routers }
    requires few_nis { length names.now.nis ≤ max_nis }
    ensures gives { Reads rule_of (λ its. its.links.items) result
        (judged_links (table_view root.now)) }
    ensures index { IfOk result (λ its. IsIndex its.links.items (length names.now.routers)
        (length names.now.nis) its.index) }
{
    let listed = judged_links(alloc, root, names)?;
    Ok(with_index(alloc, names.nis.len() as u32, listed)?)
}

// The chip of these parts.
fn chip_with(slots: u32, names: NodeNames, its: IndexedLinks) -> Chip
    requires chip { IsChip (chip_with slots names its.links.items) }
    requires index { IsIndex its.links.items (length names.routers) (length names.nis)
        its.index }
    ensures { result ≡ chip_with slots names its.links.items }
{
    Chip::new(slots, names.routers, names.nis, its.links, its.index)
}

// The same, where its routers and network interfaces have these names.
#[tactic(auto, unfolding(crate::specs::ChipFile::chip_in))]
fn linked_chip(alloc: Global, root: &Table, names: NodeNames) -> Result<Chip, ChipFault>
    requires keys { keys_fit (table_view root.now) ≡ Ok tt }
    requires range { is_in_range (table_view root.now) ≡ Ok tt }
    requires differ { names_differ (table_view root.now) ≡ Ok tt }
    requires routers { names.routers ≡ routers_of (table_view root.now) }
    requires nis { names.nis ≡ nis_of (table_view root.now) }
    requires few_routers { length names.routers ≤ max_routers }
    requires few_nis { length names.nis ≤ max_nis }
    ensures { Reads rule_of (λ chip. chip) result (chip_in (table_view root.now)) }
{
    let its = indexed_links(alloc, root, &names)?;
    Ok(chip_with(slots_of(root), names, its))
}

/// The chip of a file that keeps the rules on keys, numbers and names, or the first rule on links
/// that it breaks.
#[tactic(auto, unfolding(crate::specs::ChipFile::chip_in))]
pub(crate) fn named_chip(alloc: Global, root: &Table) -> Result<Chip, ChipFault>
    requires keys { keys_fit (table_view root.now) ≡ Ok tt }
    requires range { is_in_range (table_view root.now) ≡ Ok tt }
    requires differ { names_differ (table_view root.now) ≡ Ok tt }
    ensures { Reads rule_of (λ chip. chip) result (chip_in (table_view root.now)) }
{
    let names = names_in(alloc, root)?;
    linked_chip(alloc, root, names)
}

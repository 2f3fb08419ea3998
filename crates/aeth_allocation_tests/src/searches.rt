// What is sought in a network, and whether it is found.
ghost use Rattle.aeth_base.specs.Limits.{max_slots};
ghost use Rattle.std.specs.Prelude.{◌≡◌, ◌+◌, ◌≤◌};

use crate::grants::{mask_of, unit};
use aeth_base::{LinkId, NiId, NoMemory, Path, Side, Steps};
use aeth_book::Book;
use aeth_chip::{Chip, Distances};
use aeth_paths::{Cost, Found, Request, find, find_counted};
use std::marker::Brand;
use std::sync::ledger::{Blank, Ledger};

/// What links cost.
#[derive(Clone, Copy)]
pub(crate) enum Price {
    /// Each link costs 1.
    Links,
    /// A link costs its delay.
    Delay,
    /// A link costs 1 and its used slots.
    Pressure,
}

/// A connection of the first group, what it asks for, and the allowed interfaces.
#[derive(Clone, Copy)]
pub(crate) struct Search {
    pub conn: u32,
    pub latency: u32,
    pub detour: u32,
    pub from: &'static [NiId],
    pub to: &'static [NiId],
    pub crowded: &'static [NiId],
}

/// The links of the path that must be found, and the mask of the slots; no link where nothing must be.
#[derive(Clone, Copy)]
pub(crate) struct Answer(pub &'static [u32], pub u64);

/// Whether `find` and `find_counted` answer so where links have this price.
pub(crate) fn is_first(
    chip: &Chip,
    far: &Distances,
    book: &Book,
    price: Price,
    search: &Search,
    answer: &Answer,
) -> bool
    requires far { far.now ≡ chip.now.links }
    requires book { book.now.links ≡ chip.now.links }
{
    match price {
        Price::Links => by_links(chip, far, book, search, answer),
        Price::Delay => by_delay(chip, far, book, search, answer),
        Price::Pressure => by_pressure(chip, far, book, search, answer),
    }
}

fn by_links(chip: &Chip, far: &Distances, book: &Book, search: &Search, answer: &Answer) -> bool
    requires far { far.now ≡ chip.now.links }
    requires book { book.now.links ≡ chip.now.links }
{
    let cost = Cost::new(
        |_delay: u32, _used: u32| -> u32
            ensures { result ≡ 1 }
        { 1 },
    );
    both_answer(chip, far, book, search, &cost, answer)
}

fn by_delay(chip: &Chip, far: &Distances, book: &Book, search: &Search, answer: &Answer) -> bool
    requires far { far.now ≡ chip.now.links }
    requires book { book.now.links ≡ chip.now.links }
{
    let cost = Cost::new(
        |delay: u32, _used: u32| -> u32
            ensures { result ≡ delay }
        { delay },
    );
    both_answer(chip, far, book, search, &cost, answer)
}

fn by_pressure(chip: &Chip, far: &Distances, book: &Book, search: &Search, answer: &Answer) -> bool
    requires far { far.now ≡ chip.now.links }
    requires book { book.now.links ≡ chip.now.links }
{
    let cost = Cost::new(
        |_delay: u32, used: u32| -> u32
            requires { used ≤ max_slots }
            ensures { result ≡ 1 + used }
        { 1 + used },
    );
    both_answer(chip, far, book, search, &cost, answer)
}

/// Whether both searches answer so at this cost.
fn both_answer<F: Fn(u32, u32) -> u32>(
    chip: &Chip,
    far: &Distances,
    book: &Book,
    search: &Search,
    cost: &Cost<F>,
    answer: &Answer,
) -> bool
    requires far { far.now ≡ chip.now.links }
    requires book { book.now.links ≡ chip.now.links }
{
    let found = found(chip, far, book, search, cost);
    let counted = counted::<F, Brand>(chip, far, book, search, cost, Blank::new(1));
    is_answer(&found, answer) && is_answer(&counted, answer)
}

/// What a search asks for.
fn request(search: &Search) -> Request {
    Request {
        unit: unit(search.conn, 0),
        side: Side::Fwd,
        need: 1,
        latency: search.latency,
        detour: search.detour,
    }
}

/// What is found.
fn found<F: Fn(u32, u32) -> u32>(
    chip: &Chip,
    far: &Distances,
    book: &Book,
    search: &Search,
    cost: &Cost<F>,
) -> Result<Option<Found>, NoMemory>
    requires far { far.now ≡ chip.now.links }
    requires book { book.now.links ≡ chip.now.links }
{
    let ask = request(search);
    find(
        chip,
        far,
        book,
        &ask,
        search.from,
        search.to,
        search.crowded,
        cost,
    )
}

/// What is found with its steps counted.
fn counted<F: Fn(u32, u32) -> u32, L: Ledger>(
    chip: &Chip,
    far: &Distances,
    book: &Book,
    search: &Search,
    cost: &Cost<F>,
    blank: Blank,
) -> Result<Option<Found>, NoMemory>
    requires far { far.now ≡ chip.now.links }
    requires book { book.now.links ≡ chip.now.links }
    requires name { blank.name ≡ L.name }
    requires parts { blank.parts ≡ L.parts }
    requires one { L.parts ≡ 1 }
{
    let mut steps = Steps::<L>::open(blank);
    let ask = request(search);
    find_counted(
        chip,
        far,
        book,
        &ask,
        search.from,
        search.to,
        search.crowded,
        cost,
        &mut steps,
    )
}

/// Whether this is the path that must be found, with its slots.
fn is_answer(found: &Result<Option<Found>, NoMemory>, answer: &Answer) -> bool {
    match found {
        Err(_) => false,
        Ok(None) => answer.0.is_empty(),
        Ok(Some(found)) => has_links(&found.path, answer.0) && mask_of(&found.slots) == answer.1,
    }
}

/// Whether a path has just these links.
pub(crate) fn has_links(path: &Path, links: &[u32]) -> bool {
    let mut has = path.len() as usize == links.len();
    for (i, link) in links.iter().enumerate() {
        has = has && i < path.len() as usize && path.link(i as u32) == LinkId(*link);
    }
    has
}

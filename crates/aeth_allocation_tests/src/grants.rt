// A book of grants, and what is asked of it.
ghost use Rattle.aeth_base.specs.Limits.{max_slots};
ghost use Rattle.std.specs.Prelude.{◌≡◌, ◌<◌, ◌≤◌, All, length};

use crate::searches::{Answer, Price, Search, is_first};
use aeth_app::App;
use aeth_base::{ConnId, GroupId, LinkId, Path, Side, Steps, Unit};
use aeth_book::Book;
use aeth_chip::{Chip, Distances};
use aeth_group::{Grant, Groups};
use aeth_slots::SlotSet;
use std::alloc::Global;
use std::marker::Brand;
use std::sync::ledger::{Blank, Ledger};

/// The links from the first interface of a pair to the second.
static OVER: [u32; 3] = [0, 4, 3];

/// What is asked of a book, with the answer.
#[derive(Clone, Copy)]
pub(crate) enum AskedOfBook {
    /// The mask of the starts that are free for a connection of a group, over these links.
    Starts(u32, u32, &'static [u32], u64),
    /// How many slots of a link are used where a connection of the first group is.
    Used(u32, u32, u32),
    /// The mask of the starts that a link leaves of all, where a flit enters it so many cycles later.
    Narrowed(u32, u32, u64),
    /// The connections of the grants that are taken off, how many are left, and the mask of the starts
    /// that are free for the second connection then.
    TakenOff(&'static [Option<u32>], usize, u64),
    /// The first path.
    First(Price, Search, Answer),
}

/// Whether the answer is right.
pub(crate) fn is_book_right(
    alloc: Global,
    chip: &Chip,
    app: &App,
    groups: &Groups,
    grants: &[(u32, u64)],
    asked: &AskedOfBook,
) -> Option<bool> {
    match Book::new(alloc, chip, app, groups) {
        Ok(mut book) => is_right_after(alloc, chip, &mut book, grants, asked),
        Err(_) => None,
    }
}

/// Whether the answer is right of a book to which these grants are added first.
fn is_right_after(
    alloc: Global,
    chip: &Chip,
    book: &mut Book,
    grants: &[(u32, u64)],
    asked: &AskedOfBook,
) -> Option<bool>
    requires { book.old.links ≡ chip.now.links }
{
    grant_all(chip, book, grants)?;
    Some(is_asked_right(alloc, chip, book, asked))
}

/// Makes grants over links 0, 4 and 3, out of those slots of each mask that are free.
fn grant_all(chip: &Chip, book: &mut Book, grants: &[(u32, u64)]) -> Option<()>
    requires { book.old.links ≡ chip.now.links }
    ensures { book.new.links ≡ chip.now.links }
{
    let path = path_of(chip.links(), &OVER);
    for (conn, slots) in grants {
        grant(chip, book, unit(*conn, 0), path, *slots)?;
    }
    Some(())
}

fn grant(chip: &Chip, book: &mut Book, unit: Unit, path: Path, slots: u64) -> Option<()>
    requires book { book.old.links ≡ chip.now.links }
    requires path { All (λ link. link.0 < length chip.now.links) path }
    ensures { book.new.links ≡ chip.now.links }
{
    let free = book.free(unit, &path);
    let slots = set_of(free.size(), slots).meet(&free);
    let side = Side::Fwd;
    let grant = Grant {
        unit,
        side,
        path,
        slots,
    };
    book.add(grant).ok()
}

fn is_asked_right(alloc: Global, chip: &Chip, book: &mut Book, asked: &AskedOfBook) -> bool
    requires { book.old.links ≡ chip.now.links }
{
    match asked {
        AskedOfBook::Starts(conn, group, links, mask) => {
            starts(chip, book, unit(*conn, *group), links) == *mask
        }
        AskedOfBook::Used(conn, link, slots) => used(chip, book, *conn, *link) == Some(*slots),
        AskedOfBook::Narrowed(link, offset, mask) => {
            leaves(chip, book, *link, *offset) == Some(*mask)
        }
        AskedOfBook::TakenOff(conns, left, mask) => is_taken_off(chip, book, conns, *left, *mask),
        AskedOfBook::First(price, search, answer) => {
            is_first_found(alloc, chip, book, *price, search, answer)
        }
    }
}

/// Whether the first path is found so; not where memory runs out.
fn is_first_found(
    alloc: Global,
    chip: &Chip,
    book: &Book,
    price: Price,
    search: &Search,
    answer: &Answer,
) -> bool
    requires { book.now.links ≡ chip.now.links }
{
    match Distances::of(alloc, chip) {
        Ok(far) => is_first(chip, &far, book, price, search, answer),
        Err(_) => false,
    }
}

fn starts(chip: &Chip, book: &Book, unit: Unit, links: &[u32]) -> u64
    requires { book.now.links ≡ chip.now.links }
{
    let path = path_of(chip.links(), links);
    mask_of(&book.free(unit, &path))
}

fn used(chip: &Chip, book: &Book, conn: u32, link: u32) -> Option<u32>
    requires { book.now.links ≡ chip.now.links }
{
    if link >= chip.links() {
        return None;
    }
    Some(book.used(unit(conn, 0), LinkId(link)))
}

/// The mask of the starts that a link leaves of all, where the chip has the link.
fn leaves(chip: &Chip, book: &Book, link: u32, offset: u32) -> Option<u64>
    requires { book.now.links ≡ chip.now.links }
{
    if link >= chip.links() {
        return None;
    }
    Some(narrowed::<Brand>(chip, book, LinkId(link), offset, Blank::new(1)))
}

fn narrowed<L: Ledger>(chip: &Chip, book: &Book, link: LinkId, offset: u32, blank: Blank) -> u64
    requires book { book.now.links ≡ chip.now.links }
    requires link { link.0 < length chip.now.links }
    requires name { blank.name ≡ L.name }
    requires parts { blank.parts ≡ L.parts }
    requires one { L.parts ≡ 1 }
{
    let mut steps = Steps::<L>::open(blank);
    let unit = unit(1, 0);
    let all = book.free(unit, &Path::empty());
    mask_of(&book.narrow(unit, link, offset, &all, &mut steps))
}

fn is_taken_off(chip: &Chip, book: &mut Book, conns: &[Option<u32>], left: usize, mask: u64) -> bool
    requires { book.old.links ≡ chip.now.links }
{
    let mut is_right = true;
    for conn in conns {
        let taken = book.remove_last().map(|grant| grant.unit.conn.0);
        is_right = is_right && taken == *conn;
    }
    is_right && book.list().len() == left && starts(chip, book, unit(1, 0), &OVER) == mask
}

/// A connection in a group.
pub(crate) fn unit(conn: u32, group: u32) -> Unit {
    let conn = ConnId(conn);
    let group = GroupId(group);
    Unit { conn, group }
}

/// The path over those links that the chip has.
fn path_of(links: u32, numbers: &[u32]) -> Path
    ensures { All (λ link. link.0 < links) result }
{
    let mut path = Path::empty();
    for number in numbers {
        if *number < links {
            path.push(LinkId(*number));
        }
    }
    path
}

/// The slots of a table whose bits are in a mask.
fn set_of(size: u32, mask: u64) -> SlotSet
    requires some { 1 ≤ size }
    requires within { size ≤ max_slots }
    ensures { result.size ≡ size }
{
    let mut set = SlotSet::empty(size);
    for slot in 0..size {
        if slot < 64 && mask >> slot & 1 == 1 {
            set.insert(slot);
        }
    }
    set
}

/// The mask of a set's slots below 64.
pub(crate) fn mask_of(set: &SlotSet) -> u64 {
    let mut mask = 0;
    for slot in set.iter() {
        if slot < 64 {
            mask |= 1 << slot;
        }
    }
    mask
}

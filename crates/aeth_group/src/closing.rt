// Which use cases chains of smooth pairs join: a table of marks that is closed by marking.
ghost use Rattle.std.specs.Prelude.{◌≡◌, ◌<◌, ℕ, false, replicate, IsTrue, length};
ghost use Rattle.std.specs.Bool.{OnFalse};
ghost use Rattle.aeth_app.specs.Limits.{max_uses};
ghost use Rattle.aeth_group.specs.Groups.{in_one_group};
ghost use Rattle.aeth_group.specs.Marks.{IsClosure, IsPair, IsTransitive, LeadsOver, Spreads};
ghost use Rattle.aeth_group.specs.Marks.{marked, pair_place, places, with_mark};

use aeth_app::{App, MAX_USES};
use aeth_base::UseId;

/// As many rows, and marks in a row, as an application may have use cases.
pub(crate) const SIZE: usize = MAX_USES as usize;

/// The marks of a table.
pub(crate) const PLACES: usize = SIZE * SIZE;

/// For each pair of use cases whether it is marked, row by row.
pub(crate) type Marks = [bool; PLACES];

/// For each pair of use cases whether they are in one group.
pub(crate) fn chained(app: &App) -> Marks
    ensures { (u v : ℕ) → u < length app.now.uses → v < length app.now.uses
        → marked result u v ≡ in_one_group app.now.uses u v }
{
    let mut marks = pairs_of(app);
    close(&mut marks);
    marks
}

/// Each use case with itself, and the smooth pairs both ways.
fn pairs_of(app: &App) -> Marks
    ensures only { (u v : ℕ) → IsTrue (marked result u v) → IsPair app.now.uses u v }
    ensures each { (u v : ℕ) → IsPair app.now.uses u v → IsTrue (marked result u v) }
{
    let mut marks = no_marks();
    for u in 0..app.uses() {
        for v in 0..app.uses() {
            if u == v || app.smooth(UseId(u), UseId(v)) {
                mark(&mut marks, u as usize, v as usize);
            }
        }
    }
    marks
}

/// Marks each pair to which two marks lead, until no mark is added.
pub(crate) fn close(marks: &mut Marks)
    ensures { IsClosure marks.old marks.new }
{
    'passes: while pass(marks) {}
}

/// Marks pairs to which two marks lead. Whether a mark was added: if not, there are no such pairs.
fn pass(marks: &mut Marks) -> bool
    ensures spreads { Spreads marks.old marks.new result }
    ensures closed { OnFalse result (IsTransitive (marked marks.new)) }
{
    let mut added = false;
    for u in 0..SIZE {
        for w in 0..SIZE {
            if lead_over(marks, u, w) {
                added = true;
            }
        }
    }
    added
}

/// Marks a use case with all that a second is marked with, where it is marked with this. Whether a
/// mark was added.
fn lead_over(marks: &mut Marks, u: usize, w: usize) -> bool
    requires first { u < max_uses }
    requires second { w < max_uses }
    ensures spreads { Spreads marks.old marks.new result }
    ensures led { OnFalse result (LeadsOver marks.new u w) }
{
    if !marked(marks, u, w) {
        return false;
    }
    let mut added = false;
    for v in 0..SIZE {
        if marked(marks, w, v) && !marked(marks, u, v) {
            mark(marks, u, v);
            added = true;
        }
    }
    added
}

/// A table without marks.
pub(crate) fn no_marks() -> Marks
    ensures { result ≡ replicate places false }
{
    [false; PLACES]
}

/// The place of a pair in a table.
fn pair_place(u: usize, v: usize) -> usize
    requires first { u < max_uses }
    requires second { v < max_uses }
    ensures place { result ≡ pair_place u v }
    ensures within { result < places }
{
    SIZE * u + v
}

/// Whether a pair is marked.
pub(crate) fn marked(marks: &Marks, u: usize, v: usize) -> bool
    requires first { u < max_uses }
    requires second { v < max_uses }
    ensures { result ≡ marked marks.now u v }
{
    marks[pair_place(u, v)]
}

/// Marks a pair.
pub(crate) fn mark(marks: &mut Marks, u: usize, v: usize)
    requires first { u < max_uses }
    requires second { v < max_uses }
    ensures { marks.new ≡ with_mark marks.old u v }
{
    marks[pair_place(u, v)] = true;
}

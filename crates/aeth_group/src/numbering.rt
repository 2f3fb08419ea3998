// The numbers of groups, in the order of their least use cases.
ghost use Rattle.std.specs.Prelude.{◌≡◌, ◌<◌, ◌≤◌};
ghost use Rattle.aeth_app.specs.Limits.{max_uses};
ghost use Rattle.aeth_group.specs.Marks.{marked};
ghost use Rattle.aeth_group.specs.Numbering.{class_of, first_with, firsts_below};

use crate::closing::{Marks, SIZE, marked};

/// How many of the use cases below a bound are the least of their groups.
pub(crate) fn firsts_below(marks: &Marks, uses: u32, bound: u32) -> u32
    requires uses { uses ≤ max_uses }
    requires bound { bound ≤ uses }
    ensures firsts { result ≡ firsts_below (marked marks.now) uses bound }
    ensures within { result ≤ bound }
{
    let mut firsts = 0;
    for u in 0..bound {
        if first_with(marks, uses, u) == u {
            firsts += 1;
        }
    }
    firsts
}

/// The number of a use case's group: how many groups have a lesser least use case.
pub(crate) fn class_of(marks: &Marks, uses: u32, u: u32) -> u32
    requires uses { uses ≤ max_uses }
    requires within { u < uses }
    ensures { result ≡ class_of (marked marks.now) uses u }
{
    firsts_below(marks, uses, first_with(marks, uses, u))
}

/// The least use case that a use case is marked with; the number of use cases where there is none.
fn first_with(marks: &Marks, uses: u32, u: u32) -> u32
    requires uses { uses ≤ max_uses }
    requires u { u < uses }
    ensures first { result ≡ first_with (marked marks.now) uses u }
    ensures within { result ≤ uses }
{
    for v in 0..uses {
        if marked(marks, u as usize, v as usize) {
            return v;
        }
    }
    uses
}

// What no row of the program shows of documents: where the places of a walk end, and what calls give for a key at which
// something of another kind stands.
use aeth_base::{Broken, Shown};
use aeth_document::{Walk, integer_at, integer_if, read_document, tables_at, text_at};
use std::alloc::Global;

// What is found at the last place.
fn last_found() -> Option<Broken> {
    let walk = Walk::from(4_294_967_294).check(None).check(None);
    walk.check(Some(Shown::Odd)).found()
}

#[test]
fn places_end_at_the_last(rt: HostRuntime) {
    let last = Broken {
        place: 4_294_967_295,
        value: Shown::Odd,
    };
    assert!(rt; last_found() == Some(last));
    assert!(rt; Walk::from(3).check(None).goes_on());
}

const VALUES: &[u8] = b"n = 7
t = 'up'
w = {}
ts = ['a', 'b']
ls = [{n = 1}, {m = 1}]
";

// The integer at the key of a text, and the one that may stand there; the length of the text at the key of an integer; how
// many tables there are among texts.
fn of_other_kinds(alloc: Global) -> Option<(i64, Option<i64>, usize, usize)> {
    match read_document(alloc, VALUES) {
        Ok(Some(root)) => Some((
            integer_at(&root, "t"),
            integer_if(&root, "t"),
            text_at(&root, "n").len(),
            tables_at(&root, "ts").count_left(),
        )),
        _ => None,
    }
}

#[test]
fn values_of_another_kind_are_none(rt: HostRuntime) {
    assert_eq!(rt; of_other_kinds(rt.alloc()), Some((0, None, 0, 0)));
}

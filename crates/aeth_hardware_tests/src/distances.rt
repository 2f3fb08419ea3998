// Least numbers of links, between interfaces and from routers on, which were counted by hand.
use aeth_base::{NiId, RouterId};
use aeth_chip::{Distances, read_chip};
use std::alloc::Global;

/// Two routers that send to each other, with an interface at each.
const PAIR: &str = "version = 1\nslots = 8\nrouters = ['r0', 'r1']\nnis = ['n0', 'n1']\n\
    link = [{ from = 'n0', to = 'r0' }, { from = 'r0', to = 'n0' },\n\
    { from = 'n1', to = 'r1' }, { from = 'r1', to = 'n1' },\n\
    { from = 'r0', to = 'r1' }, { from = 'r1', to = 'r0' }]\n";

/// Router `r0` sends to `r1`, which sends to `r2`, and none sends back. Interface `n1` is at `r2`,
/// and `n0` is at `r0`, which also sends to itself.
const ONE_WAY: &str = "version = 1\nslots = 8\nrouters = ['r0', 'r1', 'r2']\nnis = ['n0', 'n1']\n\
    link = [{ from = 'n0', to = 'r0' }, { from = 'r0', to = 'n0' },\n\
    { from = 'n1', to = 'r2' }, { from = 'r2', to = 'n1' }, { from = 'r0', to = 'r0' },\n\
    { from = 'r0', to = 'r1' }, { from = 'r1', to = 'r2' }]\n";

/// The number for an answer: 0 for none.
fn number(answer: Option<u32>) -> u32 {
    answer.unwrap_or(0)
}

/// The answers for a chip: between each two interfaces of `n0` and `n1`, then onward to `n0` and to
/// `n1` from the first, the second and the third router.
fn answers_of(far: &Distances) -> [u32; 10] {
    let a = NiId(0);
    let b = NiId(1);
    [
        number(far.between(a, a)),
        number(far.between(a, b)),
        number(far.between(b, a)),
        number(far.between(b, b)),
        number(far.onward(RouterId(0), a)),
        number(far.onward(RouterId(1), a)),
        number(far.onward(RouterId(2), a)),
        number(far.onward(RouterId(0), b)),
        number(far.onward(RouterId(1), b)),
        number(far.onward(RouterId(2), b)),
    ]
}

fn distances_of(alloc: Global, text: &str) -> Option<Distances> {
    let chip = read_chip(alloc, text.as_bytes()).ok()?;
    Distances::of(alloc, &chip).ok()
}

fn answers(alloc: Global, text: &str) -> Option<[u32; 10]> {
    let far = distances_of(alloc, text)?;
    Some(answers_of(&far))
}

#[test]
fn least_numbers_of_links(rt: HostRuntime) {
    let cases = [
        (PAIR, [2, 3, 3, 2, 1, 2, 0, 2, 1, 0]),
        (ONE_WAY, [2, 4, 0, 2, 1, 0, 0, 3, 2, 1]),
    ];
    for (text, wanted) in cases {
        assert_eq!(rt; answers(rt.alloc(), text), Some(wanted));
    }
}

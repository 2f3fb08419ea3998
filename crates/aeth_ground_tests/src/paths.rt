// A path with as many links as there may be, and one more.
use aeth_base::{LinkId, Path};

// Whether a path without links takes eight, and no ninth, and the eighth is its last.
fn takes_eight() -> bool {
    let mut path = Path::empty();
    let mut is_taken = path.is_empty();
    for number in 10..18 {
        is_taken = path.push(LinkId(number)) && is_taken;
    }
    is_taken && !path.push(LinkId(18)) && path.len() == 8 && path.link(7) == LinkId(17)
}

#[test]
fn a_path_has_eight_links_at_most(rt: HostRuntime) {
    assert!(rt; takes_eight());
}

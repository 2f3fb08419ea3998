// Names with their first places.
use aeth_base::{Name, Names};
use std::alloc::Global;
use std::test::Fail;

/// Texts, and the place of each among four names of which one stands twice.
static PLACES: [(&str, Option<usize>); 4] = [
    ("ni0", Some(0)),
    ("ni1", Some(1)),
    ("ni2", Some(3)),
    ("ni3", None),
];

fn four_names(alloc: Global) -> Result<Names, Fail> {
    let mut list = Vec::new(alloc);
    for &text in &["ni0", "ni1", "ni0", "ni2"] {
        if let Some(name) = Name::new(text.as_bytes()) {
            list.push(name)?;
        }
    }
    Ok(Names::of(alloc, list)?)
}

fn place_of(names: &Names, text: &str) -> Option<usize> {
    names.place(&Name::new(text.as_bytes())?)
}

/// The first text that isn't at its place.
fn first_misplaced(names: &Names) -> Option<&'static str> {
    for &(text, place) in &PLACES {
        if place_of(names, text) != place {
            return Some(text);
        }
    }
    None
}

/// Whether the third name is the first once more, and there are four.
fn are_four(names: &Names) -> bool {
    names.len() == 4 && names.name(2).as_bytes() == b"ni0".as_slice()
}

#[test]
fn each_name_has_its_first_place(rt: HostRuntime) -> Result<(), Fail> {
    let names = four_names(rt.alloc())?;
    assert_eq!(rt; first_misplaced(&names), None);
    assert!(rt; are_four(&names));
    Ok(())
}

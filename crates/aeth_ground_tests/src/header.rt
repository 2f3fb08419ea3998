// Header words that were worked by hand.
use aeth_header::{Header, HeaderFault, hop, pack, unpack};
use std::alloc::Global;
use std::test::Fail;

// A route, queue, credits and count, the word, and the port and the word of its hop. The second word
// has every bit but one.
static WORKED: [((u32, u8, u8, u8), u32, (u8, u32)); 3] = [
    ((2, 9, 3, 2), 0x8D20_0002, (2, 0x8D20_0000)),
    ((0x1F_FFFF, 31, 15, 2), 0xBFFF_FFFF, (7, 0xBFE3_FFFF)),
    ((1, 0, 0, 2), 0x8000_0001, (1, 0x8000_0000)),
];

// The first word that doesn't hold its fields.
fn first_other_word() -> Option<u32> {
    for &((route, queue, credits, count), word, hopped) in &WORKED {
        let header = Header {
            route,
            queue,
            credits,
            count,
        };
        if pack(&header) != word || unpack(word) != Ok(header) || hop(word) != hopped {
            return Some(word);
        }
    }
    None
}

#[test]
fn words_hold_their_fields(rt: HostRuntime) {
    assert_eq!(rt; first_other_word(), None);
    assert!(rt; unpack(0xC000_0000) == Err(HeaderFault));
}

// Whether the fault is shown as this text.
fn is_shown_as(alloc: Global, text: &str) -> Result<bool, Fail> {
    let shown = format!(in alloc; "{HeaderFault}")?;
    Ok(shown.as_str() == text)
}

#[test]
fn the_fault_says_why(rt: HostRuntime) -> Result<(), Fail> {
    let is_shown = is_shown_as(rt.alloc(), "the header has a payload count of 3")?;
    assert!(rt; is_shown);
    Ok(())
}

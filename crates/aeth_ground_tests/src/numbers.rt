// Numbers that are written and read, and a quotient that is rounded up.
use aeth_base::{ceil_div, push_number, read_number};
use std::alloc::Global;
use std::test::Fail;

static NUMBERS: [(&str, Option<u64>); 11] = [
    ("0", Some(0)),
    ("7", Some(7)),
    ("18446744073709551615", Some(u64::MAX)),
    ("18446744073709551616", None),
    ("", None),
    ("00", None),
    ("07", None),
    ("+7", None),
    ("-0", None),
    ("7 ", None),
    ("é", None),
];

/// The first text that isn't read as its number.
fn first_misread() -> Option<&'static str> {
    for &(text, number) in &NUMBERS {
        if read_number(text.as_bytes()) != number {
            return Some(text);
        }
    }
    None
}

/// Whether a number, where there is one, is written as this text.
fn is_written_as(alloc: Global, number: Option<u64>, text: &str) -> Result<bool, Fail> {
    let Some(number) = number else {
        return Ok(true);
    };
    let mut written = Vec::new(alloc);
    push_number(&mut written, number)?;
    Ok(written.as_slice() == text.as_bytes())
}

/// The first text that its number isn't written as.
fn first_miswritten(alloc: Global) -> Result<Option<&'static str>, Fail> {
    for &(text, number) in &NUMBERS {
        if !is_written_as(alloc, number, text)? {
            return Ok(Some(text));
        }
    }
    Ok(None)
}

#[test]
fn numbers_are_written_and_read(rt: HostRuntime) -> Result<(), Fail> {
    let miswritten = first_miswritten(rt.alloc())?;
    assert_eq!(rt; [first_misread(), miswritten], [None, None]);
    assert_eq!(rt; read_number(&[0xff]), None);
    Ok(())
}

#[test]
fn quotients_are_rounded_up(rt: HostRuntime) {
    assert_eq!(rt; [ceil_div(8, 3), ceil_div(9, 3), ceil_div(0, 3)], [3, 3, 0]);
}

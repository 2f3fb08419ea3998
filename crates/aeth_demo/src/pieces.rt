// Pieces of texts: numbered names, and lists of them.
ghost use Rattle.aeth_demo.specs.Pieces.{comma_before, labelled, name_at, names_text};
ghost use Rattle.std.specs.Prelude.{◌≡◌, ◌≤◌, ◌+◌, ◌++◌, OnOk};

use aeth_base::{NoMemory, push_number};

/// Appends a text and a number.
pub(crate) fn push_labelled(text: &mut Vec<u8>, label: &str, n: u32) -> Result<(), NoMemory>
    ensures { OnOk result (text.new.items ≡ text.old.items ++ labelled label.now n) }
{
    text.extend_from_slice(label.as_bytes())?;
    push_number(text, u64::from(n))
}

/// Appends a text.
pub(crate) fn push_text(text: &mut Vec<u8>, piece: &str) -> Result<(), NoMemory>
    ensures { OnOk result (text.new.items ≡ text.old.items ++ piece.now) }
{
    text.extend_from_slice(piece.as_bytes())?;
    Ok(())
}

/// Appends a comma and a space, where this isn't the first place.
pub(crate) fn push_comma(text: &mut Vec<u8>, place: u32) -> Result<(), NoMemory>
    ensures { OnOk result (text.new.items ≡ text.old.items ++ comma_before place) }
{
    if place > 0 {
        text.extend_from_slice(b", ")?;
    }
    Ok(())
}

/// Appends names of a letter and so many numbers from a first one on, with commas between them.
pub(crate) fn push_names(
    text: &mut Vec<u8>,
    letter: &str,
    first: u32,
    count: u32,
) -> Result<(), NoMemory>
    requires { first + count ≤ 64 }
    ensures { OnOk result (text.new.items ≡ text.old.items ++ names_text letter.now first count) }
{
    for place in 0..count {
        push_name(text, letter, first, place)?;
    }
    Ok(())
}

// Appends the name at a place.
fn push_name(text: &mut Vec<u8>, letter: &str, first: u32, place: u32) -> Result<(), NoMemory>
    requires { first + place ≤ 64 }
    ensures { OnOk result (text.new.items
        ≡ text.old.items ++ name_at letter.now first place) }
{
    push_comma(text, place)?;
    text.push(b'"')?;
    push_labelled(text, letter, first + place)?;
    text.push(b'"')?;
    Ok(())
}

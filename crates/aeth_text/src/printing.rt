// Printing the fields of a line.
ghost use Rattle.aeth_text.specs.Spelling.{item, links_word, side_word};
ghost use Rattle.std.specs.Prelude.{◌≡◌, ◌++◌, OnErr, OnOk, decimal, length, take};

use aeth_base::{NoMemory, Path, Side, push_number};

/// Appends the word of a side: `fwd` or `back`.
#[tactic(auto, unfolding(crate::specs::Spelling::side_word))]
pub fn push_side(out: &mut Vec<u8>, side: Side) -> Result<(), NoMemory>
    ensures ok { OnOk result (out.new.items ≡ out.old.items ++ side_word side) }
    ensures err { OnErr result (out.new.items ≡ out.old.items) }
{
    let word = match side {
        Side::Fwd => b"fwd".as_slice(),
        Side::Back => b"back".as_slice(),
    };
    out.extend_from_slice(word)?;
    Ok(())
}

/// Appends a number of a list, after a comma where it isn't the first. Where memory is wanting, all that stood
/// there still does, at the front.
pub fn push_item(out: &mut Vec<u8>, first: bool, n: u32) -> Result<(), NoMemory>
    ensures ok { OnOk result (out.new.items ≡ out.old.items ++ item first (decimal n)) }
    ensures err { OnErr result (take (length out.old.items) out.new.items ≡ out.old.items) }
{
    if !first {
        out.push(b',')?;
    }
    push_number(out, n as u64)
}

/// Appends the links of a path, with commas between. Where memory is wanting, all that stood there still does,
/// at the front.
#[tactic(auto, unfolding(crate::specs::Spelling::links_word))]
pub fn push_links(out: &mut Vec<u8>, path: &Path) -> Result<(), NoMemory>
    ensures ok { OnOk result (out.new.items ≡ out.old.items ++ links_word path.now) }
    ensures err { OnErr result (take (length out.old.items) out.new.items ≡ out.old.items) }
{
    let mut first = true;
    for i in 0..path.len() {
        push_item(out, first, path.link(i).0)?;
        first = false;
    }
    Ok(())
}

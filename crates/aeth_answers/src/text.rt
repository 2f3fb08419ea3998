// Texts that commands print.
ghost use Rattle.aeth_answers.specs.Text.{list_text};
ghost use Rattle.std.specs.Prelude.{◌≡◌, ◌++◌, OnErr, OnOk, decimal, length, take};

use crate::words::COMMA;
use aeth_base::{NoMemory, push_number};
use aeth_slots::SlotSet;

/// Appends the slots, ascending, with commas between them. Where memory is wanting, all that stood there still
/// does, at the front.
pub fn push_slots(text: &mut Vec<u8>, set: &SlotSet) -> Result<(), NoMemory>
    ensures ok { OnOk result (text.new.items ≡ text.old.items ++ list_text set.now.slots) }
    ensures err { OnErr result (take (length text.old.items) text.new.items ≡ text.old.items) }
{
    let mut slots = set.iter();
    let Some(first) = slots.next() else {
        return Ok(());
    };
    push_number(text, u64::from(first))?;
    for slot in slots {
        text.push(COMMA)?;
        push_number(text, u64::from(slot))?;
    }
    Ok(())
}

/// Appends a label and a number. Where memory is wanting, all that stood there still does, at the front.
pub fn push_count(text: &mut Vec<u8>, label: &str, count: u32) -> Result<(), NoMemory>
    ensures ok { OnOk result (text.new.items ≡ text.old.items ++ label.now ++ decimal count) }
    ensures err { OnErr result (take (length text.old.items) text.new.items ≡ text.old.items) }
{
    push_total(text, label, u64::from(count))
}

/// Appends a label and a total. Where memory is wanting, all that stood there still does, at the front.
pub fn push_total(text: &mut Vec<u8>, label: &str, total: u64) -> Result<(), NoMemory>
    ensures ok { OnOk result (text.new.items ≡ text.old.items ++ label.now ++ decimal total) }
    ensures err { OnErr result (take (length text.old.items) text.new.items ≡ text.old.items) }
{
    text.extend_from_slice(label.as_bytes())?;
    push_number(text, total)
}

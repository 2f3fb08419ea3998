// `slots SIZE NEED GAP FREE`: the chosen set out of the free slots of a table.
ghost use Rattle.aeth_design_commands.specs.Commands.{HasRanges};
ghost use Rattle.aeth_design_commands.specs.Slots.{chosen_job, slots_command};
ghost use Rattle.std.specs.Prelude.{◌≡◌, ◌≤◌, IfOk, IfSome, map, string_bytes};

use crate::command::DesignCommand;
use aeth_answers::{Answer, number_in, push_slots, slots_in};
use aeth_base::{MAX_SLOTS, NoMemory};
use aeth_slots::{SlotSet, choose};
use std::alloc::Global;

/// The greatest gap that a command asks for, in slots.
const MAX_GAP: u32 = 4096;

/// The command of the words SIZE NEED GAP FREE.
pub fn command<'a>(words: &'a [String]) -> Option<DesignCommand<'a>>
    ensures command { result ≡ slots_command (map string_bytes words.now) }
    ensures ranges { IfSome result HasRanges }
{
    let [size, need, gap, free] = words else {
        return None;
    };
    let size = number_in(1, MAX_SLOTS, size.as_str())?;
    let need = number_in(1, MAX_SLOTS, need.as_str())?;
    let gap = number_in(0, MAX_GAP, gap.as_str())?;
    let free = slots_in(size, free.as_str())?;
    Some(DesignCommand::Slots { need, gap, free })
}

/// The slots that are chosen out of the free ones, or that there are none.
pub fn answer(alloc: Global, need: u32, gap: u32, free: &SlotSet) -> Result<Answer, NoMemory>
    requires { 1 ≤ need }
    ensures { IfOk result (λ answer. answer ≡ chosen_job need gap free.now) }
{
    let Some(set) = choose(free, need, gap) else {
        let text = Vec::from_slice(alloc, b"no slots\n")?;
        return Ok(Answer::not_granted(text));
    };
    let mut text = Vec::new(alloc);
    push_slots(&mut text, &set)?;
    text.push(b'\n')?;
    Ok(Answer::done(text))
}

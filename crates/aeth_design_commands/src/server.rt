// `server SIZE NEED LINKS SLOTS`: the rate that a need stands for, the least latency that the slots
// guarantee at this rate, and the total over a path.
ghost use Rattle.aeth_base.specs.Limits.{max_path_delay, max_slots};
ghost use Rattle.aeth_design_commands.specs.Commands.{HasRanges};
ghost use Rattle.aeth_design_commands.specs.Server.{latency_job, latency_text, server_command};
ghost use Rattle.std.specs.Prelude.{◌≡◌, ◌≤◌, IfOk, IfSome, length, map, string_bytes};

use crate::command::DesignCommand;
use aeth_answers::{Answer, number_in, slots_in};
use aeth_base::{MAX_PATH_DELAY, MAX_SLOTS, MIN_PATH_LINKS, NoMemory, WORDS_PER_FLIT};
use aeth_server::latency;
use aeth_slots::SlotSet;
use std::alloc::Global;

/// The command of the words SIZE NEED LINKS SLOTS.
pub fn command<'a>(words: &'a [String]) -> Option<DesignCommand<'a>>
    ensures command { result ≡ server_command (map string_bytes words.now) }
    ensures ranges { IfSome result HasRanges }
{
    let [size, need, links, slots] = words else {
        return None;
    };
    let size = number_in(1, MAX_SLOTS, size.as_str())?;
    let need = number_in(1, MAX_SLOTS, need.as_str())?;
    let links = number_in(MIN_PATH_LINKS, MAX_PATH_DELAY, links.as_str())?;
    let slots = slots_in(size, slots.as_str())?;
    Some(DesignCommand::Server { need, links, slots })
}

/// The rate and the latency, or that the slots are too few for the need.
pub fn answer(alloc: Global, need: u32, links: u32, slots: &SlotSet) -> Result<Answer, NoMemory>
    requires least { 1 ≤ need }
    requires most { need ≤ max_slots }
    requires path { links ≤ max_path_delay }
    ensures { IfOk result (λ answer. answer ≡ latency_job need links slots.now) }
{
    if slots.count() < need {
        let text = Vec::from_slice(alloc, b"too few slots\n")?;
        return Ok(Answer::not_granted(text));
    }
    Ok(Answer::done(latency_line(alloc, need, links, slots)?))
}

fn latency_line(alloc: Global, need: u32, links: u32, slots: &SlotSet) -> Result<Vec<u8>, NoMemory>
    requires least { 1 ≤ need }
    requires capacity { need ≤ length slots.now.slots }
    requires most { need ≤ max_slots }
    requires path { links ≤ max_path_delay }
    ensures { IfOk result (λ text. text.items ≡ latency_text need links slots.now) }
{
    let size = slots.size();
    let rate = WORDS_PER_FLIT * need;
    let theta = latency(slots, WORDS_PER_FLIT, rate);
    let total = theta + links;
    let line = format!(in alloc; "rate {rate}/{size} latency {theta} total {total}\n")?;
    Ok(line.into_bytes())
}

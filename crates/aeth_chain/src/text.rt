// Printing a run of a chain.
ghost use Rattle.std.specs.Prelude.{◌≡◌, ◌<◌, ◌++◌, [], IfOk, OnOk, length, slice_get, unwrap_or};
ghost use Rattle.aeth_text.specs.Spelling.{ended_line};
ghost use Rattle.aeth_trace.specs.Switches.{use_names};
ghost use Rattle.aeth_chain.specs.ChainText.{bound_line, chain_text, left_line};

use crate::bound::ChainBound;
use crate::log::ChainLog;
use aeth_app::App;
use aeth_base::{NoMemory, UseId, push_number};
use aeth_report::push_landings;
use std::alloc::Global;

// Appends the line of a bound, in a use case of this name.
#[tactic(auto, unfolding(crate::specs::ChainText::bound_line))]
fn push_bound(out: &mut Vec<u8>, name: &[u8], bound: &ChainBound) -> Result<(), NoMemory>
    ensures { OnOk result (out.new.items
        ≡ out.old.items ++ ended_line (bound_line name.now bound.now)) }
{
    out.extend_from_slice(b"chain 1 ")?;
    out.extend_from_slice(name)?;
    out.push(b' ')?;
    push_number(out, bound.rate as u64)?;
    out.push(b' ')?;
    push_number(out, bound.latency)?;
    out.push(b'\n')?;
    Ok(())
}

// Appends the line of the bound in a use case.
fn push_use(out: &mut Vec<u8>, app: &App, u: UseId, bound: &ChainBound) -> Result<(), NoMemory>
    requires { u.0 < length app.now.uses }
    ensures { OnOk result (out.new.items ≡ out.old.items
        ++ ended_line (bound_line (unwrap_or (slice_get (use_names app.now) u.0) []) bound.now)) }
{
    let name = app.use_name(u);
    push_bound(out, name.as_bytes(), bound)
}

// Appends the line of the words that are left.
#[tactic(auto, unfolding(crate::specs::ChainText::left_line))]
fn push_left(out: &mut Vec<u8>, left: u32) -> Result<(), NoMemory>
    ensures { OnOk result (out.new.items ≡ out.old.items ++ ended_line (left_line left)) }
{
    out.extend_from_slice(b"left ")?;
    push_number(out, left as u64)?;
    out.push(b'\n')?;
    Ok(())
}

/// The text of a run of a chain in a use case: its rate and its latency, a line for each landing on the
/// last channel, and how many words are left. `Err` where there was no memory.
#[tactic(auto, unfolding(crate::specs::ChainText::chain_text))]
pub fn chain_text(
    alloc: Global,
    log: &ChainLog,
    bound: &ChainBound,
    app: &App,
    u: UseId,
) -> Result<Vec<u8>, NoMemory>
    requires { u.0 < length app.now.uses }
    ensures { IfOk result (λ text. text.items ≡ chain_text log.now bound.now app.now u.0) }
{
    let mut out = Vec::new(alloc);
    push_use(&mut out, app, u, bound)?;
    push_landings(&mut out, log.landings())?;
    push_left(&mut out, log.left())?;
    out.extend_from_slice(b"end\n")?;
    Ok(out)
}

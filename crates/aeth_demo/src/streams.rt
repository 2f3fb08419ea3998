// The application of the run: four rounds of connections.
ghost use Rattle.aeth_demo.specs.Limits.{mesh_routers};
ghost use Rattle.aeth_demo.specs.Pieces.{texts_below};
ghost use Rattle.aeth_demo.specs.Streams.{connection_text, core_text, round_text, streams_with};
ghost use Rattle.aeth_demo.specs.Streams.{use_text, uses_text};
ghost use Rattle.std.specs.Prelude.{◌≡◌, ◌≤◌, ◌<◌, ◌+◌, ◌++◌, IfOk, OnOk};

use crate::mesh::ROUTERS;
use crate::pieces::{push_comma, push_labelled, push_names, push_text};
use aeth_base::NoMemory;
use std::alloc::Global;

/// The application file, where the rounds lead so far.
#[tactic(auto, unfolding(crate::specs::Streams::streams_with))]
pub(crate) fn streams_with(
    alloc: Global,
    s0: u32,
    s1: u32,
    s2: u32,
    s3: u32,
) -> Result<Vec<u8>, NoMemory>
    requires s0 { s0 < mesh_routers }
    requires s1 { s1 < mesh_routers }
    requires s2 { s2 < mesh_routers }
    requires s3 { s3 < mesh_routers }
    ensures { IfOk result (λ text. text.items ≡ streams_with s0 s1 s2 s3) }
{
    let mut text = Vec::new(alloc);
    push_text(&mut text, "version = 1\ndetour = 1\ncore = [ ")?;
    push_cores(&mut text)?;
    push_text(&mut text, " ]\n")?;
    push_round(&mut text, 0, 64, s0)?;
    push_round(&mut text, 1, 64, s1)?;
    push_round(&mut text, 2, 16, s2)?;
    push_round(&mut text, 3, 32, s3)?;
    push_uses(&mut text)?;
    Ok(text)
}

// Appends all cores.
fn push_cores(text: &mut Vec<u8>) -> Result<(), NoMemory>
    ensures { OnOk result (text.new.items
        ≡ text.old.items ++ texts_below core_text mesh_routers) }
{
    for k in 0..ROUTERS {
        push_core(text, k)?;
    }
    Ok(())
}

// Appends a core.
fn push_core(text: &mut Vec<u8>, k: u32) -> Result<(), NoMemory>
    ensures { OnOk result (text.new.items ≡ text.old.items ++ core_text k) }
{
    push_comma(text, k)?;
    push_labelled(text, "{name = \"k", k)?;
    push_labelled(text, "\", ni = \"n", k)?;
    push_text(text, "\"}")
}

// Appends the connections of a round.
fn push_round(text: &mut Vec<u8>, round: u32, per: u32, shift: u32) -> Result<(), NoMemory>
    requires round { round < 4 }
    requires shift { shift < mesh_routers }
    ensures { OnOk result (text.new.items ≡ text.old.items ++ round_text round per shift) }
{
    for i in 0..ROUTERS {
        push_connection(text, round, per, shift, i)?;
    }
    Ok(())
}

// Appends a connection of a round.
fn push_connection(
    text: &mut Vec<u8>,
    round: u32,
    per: u32,
    shift: u32,
    i: u32,
) -> Result<(), NoMemory>
    requires round { round < 4 }
    requires shift { shift < mesh_routers }
    requires core { i < mesh_routers }
    ensures { OnOk result (text.new.items ≡ text.old.items ++ connection_text round per shift i) }
{
    push_labelled(text, "[[connection]]\nname = \"c", ROUTERS * round + i)?;
    push_labelled(text, "\"\nfrom = \"k", i)?;
    push_labelled(text, "\"\nto = \"k", (i + shift) % ROUTERS)?;
    push_labelled(text, "\"\nfwd = {words = 1, per = ", per)?;
    push_text(
        text,
        ", latency = 100, delay = 0}\nback = {words = 0, per = 1, latency = 100, delay = 0}\n",
    )?;
    Ok(())
}

// Appends the use cases.
fn push_uses(text: &mut Vec<u8>) -> Result<(), NoMemory>
    ensures { OnOk result (text.new.items ≡ text.old.items ++ uses_text) }
{
    push_use(text, 0, 0, 16)?;
    push_text(text, "smooth = [\"u1\"]\n")?;
    push_use(text, 1, 0, 32)?;
    push_use(text, 2, 32, 16)?;
    push_use(text, 3, 48, 16)
}

// Appends a use case with so many connections from a first one on.
fn push_use(text: &mut Vec<u8>, u: u32, first: u32, count: u32) -> Result<(), NoMemory>
    requires { first + count ≤ 64 }
    ensures { OnOk result (text.new.items ≡ text.old.items ++ use_text u first count) }
{
    push_labelled(text, "[[use]]\nname = \"u", u)?;
    push_text(text, "\"\nconnections = [")?;
    push_names(text, "c", first, count)?;
    push_text(text, "]\n")?;
    Ok(())
}

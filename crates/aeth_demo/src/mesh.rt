// The chip of the run: a mesh.
ghost use Rattle.aeth_demo.specs.Limits.{mesh_routers};
ghost use Rattle.aeth_demo.specs.Mesh.{interface_links, link_text, mesh_text, pair_links};
ghost use Rattle.aeth_demo.specs.Mesh.{router_links};
ghost use Rattle.aeth_demo.specs.Pieces.{texts_below};
ghost use Rattle.std.specs.Prelude.{◌≡◌, ◌<◌, ◌++◌, IfOk, OnOk};

use crate::pieces::{push_labelled, push_names, push_text};
use aeth_base::NoMemory;
use std::alloc::Global;

/// The routers of the mesh, its interfaces, the cores, and the connections of a round.
pub(crate) const ROUTERS: u32 = 16;

/// The routers of a row of the mesh.
const COLUMNS: u32 = 4;

/// The chip file of the mesh.
#[tactic(auto, unfolding(crate::specs::Mesh::mesh_text))]
pub(crate) fn mesh_text(alloc: Global) -> Result<Vec<u8>, NoMemory>
    ensures { IfOk result (λ text. text.items ≡ mesh_text) }
{
    let mut text = Vec::new(alloc);
    push_text(&mut text, "version = 1\nslots = 64\nrouters = [")?;
    push_names(&mut text, "r", 0, ROUTERS)?;
    push_text(&mut text, "]\nnis = [")?;
    push_names(&mut text, "n", 0, ROUTERS)?;
    push_text(&mut text, "]\nlink = [\n")?;
    push_interfaces(&mut text)?;
    push_routers(&mut text)?;
    push_text(&mut text, "]\n")?;
    Ok(text)
}

// Appends the links of all interfaces.
fn push_interfaces(text: &mut Vec<u8>) -> Result<(), NoMemory>
    ensures { OnOk result (text.new.items
        ≡ text.old.items ++ texts_below interface_links mesh_routers) }
{
    for k in 0..ROUTERS {
        push_interface(text, k)?;
    }
    Ok(())
}

// Appends the links of an interface.
fn push_interface(text: &mut Vec<u8>, k: u32) -> Result<(), NoMemory>
    ensures { OnOk result (text.new.items ≡ text.old.items ++ interface_links k) }
{
    push_link(text, "n", k, "r", k)?;
    push_link(text, "r", k, "n", k)
}

// Appends the links between routers.
fn push_routers(text: &mut Vec<u8>) -> Result<(), NoMemory>
    ensures { OnOk result (text.new.items
        ≡ text.old.items ++ texts_below router_links mesh_routers) }
{
    for k in 0..ROUTERS {
        push_router(text, k)?;
    }
    Ok(())
}

// Appends the links between a router and those behind it in its row and its column.
fn push_router(text: &mut Vec<u8>, k: u32) -> Result<(), NoMemory>
    requires { k < mesh_routers }
    ensures { OnOk result (text.new.items ≡ text.old.items ++ router_links k) }
{
    if k % COLUMNS < COLUMNS - 1 {
        push_pair(text, k, k + 1)?;
    }
    if k / COLUMNS < COLUMNS - 1 {
        push_pair(text, k, k + COLUMNS)?;
    }
    Ok(())
}

// Appends the links between two routers.
fn push_pair(text: &mut Vec<u8>, k: u32, m: u32) -> Result<(), NoMemory>
    ensures { OnOk result (text.new.items ≡ text.old.items ++ pair_links k m) }
{
    push_link(text, "r", k, "r", m)?;
    push_link(text, "r", m, "r", k)
}

// Appends a link.
fn push_link(text: &mut Vec<u8>, from: &str, k: u32, to: &str, m: u32) -> Result<(), NoMemory>
    ensures { OnOk result (text.new.items ≡ text.old.items ++ link_text from.now k to.now m) }
{
    push_text(text, "  {from = \"")?;
    push_labelled(text, from, k)?;
    push_text(text, "\", to = \"")?;
    push_labelled(text, to, m)?;
    push_text(text, "\"},\n")?;
    Ok(())
}

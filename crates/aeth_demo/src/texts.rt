// The files of the run.
ghost use Rattle.aeth_demo.specs.Limits.{max_demo_number};
ghost use Rattle.aeth_demo.specs.Texts.{texts_of};
ghost use Rattle.std.specs.Prelude.{◌≡◌, ◌≤◌, IfOk};

use crate::draws::{next_number, part_of};
use crate::mesh::mesh_text;
use crate::streams::streams_with;
use crate::traces::words_from;
use aeth_base::NoMemory;
use std::alloc::Global;
use std::marker::Model;

/// The greatest number from which files are made.
pub const MAX_DEMO_NUMBER: u32 = 1_000_000;

/// The cycles of the run.
pub const DEMO_CYCLES: u32 = 22_000;

/// The files of a large run: a chip, an application, words, receivers and switches.
#[derive(Drop)]
pub struct DemoTexts {
    pub chip: Vec<u8>,
    pub app: Vec<u8>,
    pub words: Vec<u8>,
    pub receivers: Vec<u8>,
    pub switches: Vec<u8>,
}

impl Model for DemoTexts {
    ghost use Rattle.aeth_demo.specs.Texts.{TextsData};

    ghost Value = { TextsData };

    ghost view = { λ texts. record {
      chip = texts.chip.items;
      app = texts.app.items;
      words = texts.words.items;
      receivers = texts.receivers.items;
      switches = texts.switches.items;
    } };
}

/// The files that are made from a number up to 1,000,000: a mesh of 4 by 4 routers, four rounds of 16
/// connections whose receivers the number decides, 10,000 words on connections that it draws, and a
/// switch in every 5,000 cycles. `Err` where there was no memory.
#[tactic(auto, unfolding(crate::specs::Draws::number_after))]
pub fn demo_texts(alloc: Global, n: u32) -> Result<DemoTexts, NoMemory>
    requires { n ≤ max_demo_number }
    ensures { IfOk result (λ texts. texts ≡ texts_of n) }
{
    let first = next_number(n);
    let second = next_number(first);
    let third = next_number(second);
    let fourth = next_number(third);
    let app = streams_with(
        alloc,
        1 + part_of(15, first),
        1 + part_of(15, second),
        1 + part_of(15, third),
        1 + part_of(15, fourth),
    )?;
    Ok(DemoTexts {
        chip: mesh_text(alloc)?,
        app,
        words: words_from(alloc, fourth)?,
        receivers: Vec::from_slice(alloc, b"connection,side,cycle,pull\n")?,
        switches: Vec::from_slice(
            alloc,
            b"cycle,use,drain\n0,u0,0\n5000,u1,16\n10000,u2,16\n15000,u3,16\n",
        )?,
    })
}

// The program with networks as its machines, as `main` runs it.
ghost use Rattle.aeth_cli.specs.Promise.{Promise};
ghost use Rattle.aeth_cli.specs.Asked.{Answers};
ghost use Rattle.aeth_cli.specs.Headline.{Headline};
ghost use Rattle.aeth_cli.specs.Machines.{network_outcomes};
ghost use Rattle.std.specs.Prelude.{map, string_bytes};

use crate::program::run;
use aeth_io::{Shelf, Sink};
use aeth_sim::Network;
use aeth_table_network::TableNetwork;
use std::alloc::Global;

/// The program, as `main` runs it: does what the words ask for, reads files from the shelf, writes its text
/// to `out` or `err`, and gives the status with which the program ends. The words are those after the
/// program's name. `Network` plays runs, and `TableNetwork` those of `simulate-tables`.
///
/// What it promises is one record, `specs/Promise.antt`, and what it keeps of what it prints is another,
/// `specs/Headline.antt`.
pub fn start<H: Shelf, O: Sink, E: Sink>(
    alloc: Global,
    words: &[String],
    shelf: &mut H,
    out: &mut O,
    err: &mut E,
) -> u8
    ensures promise { Promise network_outcomes H.Shelf O.Sink E.Sink (map string_bytes words.now)
        (record { shelf = shelf.old; out = out.old; err = err.old })
        (record { shelf = shelf.new; out = out.new; err = err.new }) result }
    ensures headline { Headline (H.content shelf.old) (Answers H.Shelf O.Sink E.Sink
        (map string_bytes words.now)
        (record { shelf = shelf.old; out = out.old; err = err.old })
        (record { shelf = shelf.new; out = out.new; err = err.new }) result) }
{
    // The calls tell what holds of every run, of every allocation, and of the jobs of commands.
    crate::laws::runs_hold();
    aeth_alloc::laws::refusals();
    aeth_alloc::laws::plans();
    crate::laws::commands_are_in_range();
    crate::laws::simulations_end();
    crate::laws::simulated_runs();
    crate::laws::allocated_designs();
    crate::laws::refusals_are_explained();
    crate::laws::tables_bind();
    crate::laws::chains_meet_bounds();
    crate::laws::audits_are_exact();
    crate::laws::links_are_clean();
    run::<Network, TableNetwork, H, O, E>(alloc, words, shelf, out, err)
}

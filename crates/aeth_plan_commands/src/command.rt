// The commands on accepted plans, and what each answers.
ghost use Rattle.aeth_answers.specs.Places.{files_of};
ghost use Rattle.aeth_answers.specs.Stop.{Answers};
ghost use Rattle.aeth_plan_commands.specs.Commands.{HasRanges, plan_command, plan_task};
ghost use Rattle.std.specs.Prelude.{◌≡◌, IfSome, map, string_bytes};

use crate::audit::AuditFiles;
use crate::chain::ChainFiles;
use crate::planned_uses::UseFiles;
use crate::{audit, chain, route_tables, tables};
use aeth_answers::{Answer, Stop};
use aeth_base::Name;
use aeth_chain::ItemNames;
use aeth_io::Shelf;
use std::alloc::Global;

/// A command on an accepted plan.
#[derive(Drop)]
pub enum PlanCommand<'a> {
    /// `tables CHIP APP PLAN USE`: the tables of the interfaces in the use case of this name.
    Tables(UseFiles<'a>),
    /// `route-tables CHIP APP PLAN USE`: the tables of routers that look a table up, in the use case of
    /// this name.
    RouteTables(UseFiles<'a>),
    /// `audit CHIP APP PLAN SWITCHES LOG CYCLES`: whether each flit of a log of links, in so many
    /// cycles, is one that the network of the plan may carry there.
    Audit {
        files: AuditFiles<'a>,
        cycles: u32,
    },
    /// `chain CHIP APP PLAN USE CHAIN WORDS RECEIVERS CYCLES`: what a run of a chain of forwarding cores, of
    /// so many cycles, shows in the use case of this name.
    Chain {
        files: ChainFiles<'a>,
        name: Name,
        items: ItemNames,
        cycles: u32,
    },
}

impl<'a> PlanCommand<'a> {
    /// The command on a plan that a name and the words behind it are, if they are one.
    pub fn of(name: &str, words: &'a [String]) -> Option<PlanCommand<'a>>
        ensures command { result ≡ plan_command name.now (map string_bytes words.now) }
        ensures ranges { IfSome result HasRanges }
    {
        match name {
            "tables" => tables::command(words),
            "route-tables" => route_tables::command(words),
            "audit" => audit::command(words),
            "chain" => chain::command(words),
            _ => None,
        }
    }

    /// What the command asks for, done over the files of a shelf, or what ends it before.
    pub fn answer<H: Shelf>(&self, alloc: Global, shelf: &mut H) -> Result<Answer, Stop>
        requires { HasRanges self.now }
        ensures { Answers (files_of H.Shelf shelf.old) (files_of H.Shelf shelf.new)
            (plan_task self.now) result }
    {
        match self {
            PlanCommand::Tables(files) => tables::answer(alloc, files, shelf),
            PlanCommand::RouteTables(files) => route_tables::answer(alloc, files, shelf),
            PlanCommand::Audit { files, cycles } => audit::answer(alloc, files, *cycles, shelf),
            PlanCommand::Chain {
                files,
                name,
                items,
                cycles,
            } => chain::answer(alloc, files, name, items, *cycles, shelf),
        }
    }
}

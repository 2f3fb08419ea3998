// The commands on designs, and what each answers.
ghost use Rattle.aeth_answers.specs.Places.{files_of};
ghost use Rattle.aeth_answers.specs.Stop.{Answers};
ghost use Rattle.aeth_design_commands.specs.Commands.{HasRanges, design_command, design_task};
ghost use Rattle.std.specs.Prelude.{◌≡◌, IfSome, map, string_bytes};

use crate::{allocate, app, check, chip, server, slots};
use aeth_answers::{Answer, FileName, Stop, ended};
use aeth_io::Shelf;
use aeth_slots::SlotSet;
use std::alloc::Global;

/// A command on slots, a chip, an application or a plan.
#[derive(Drop)]
pub enum DesignCommand<'a> {
    /// `slots SIZE NEED GAP FREE`: the chosen set out of the free slots, with at least `need` slots
    /// and no gap above `gap`.
    Slots {
        need: u32,
        gap: u32,
        free: SlotSet,
    },
    /// `server SIZE NEED LINKS SLOTS`: the rate that the need stands for, the least latency that
    /// the slots guarantee at this rate, and the total over a path of so many links.
    Server {
        need: u32,
        links: u32,
        slots: SlotSet,
    },
    /// `chip CHIP`: the summary of a chip file.
    Chip {
        chip: FileName<'a>,
    },
    /// `app CHIP APP`: the summary of an application file for a chip file, and what its connections
    /// need.
    App {
        chip: FileName<'a>,
        app: FileName<'a>,
    },
    /// `allocate CHIP APP`: the plan of the allocation, or the units that are refused.
    Allocate {
        chip: FileName<'a>,
        app: FileName<'a>,
    },
    /// `check CHIP APP PLAN`: whether a plan is accepted, or the first rule that it breaks.
    Check {
        chip: FileName<'a>,
        app: FileName<'a>,
        plan: FileName<'a>,
    },
}

impl<'a> DesignCommand<'a> {
    /// The command on a design that a name and the words behind it are, if they are one.
    pub fn of(name: &str, words: &'a [String]) -> Option<DesignCommand<'a>>
        ensures command { result ≡ design_command name.now (map string_bytes words.now) }
        ensures ranges { IfSome result HasRanges }
    {
        match name {
            "slots" => slots::command(words),
            "server" => server::command(words),
            "chip" => chip::command(words),
            "app" => app::command(words),
            "allocate" => allocate::command(words),
            "check" => check::command(words),
            _ => None,
        }
    }

    /// What the command asks for, done over the files of a shelf, or what ends it before.
    pub fn answer<H: Shelf>(&self, alloc: Global, shelf: &mut H) -> Result<Answer, Stop>
        requires { HasRanges self.now }
        ensures { Answers (files_of H.Shelf shelf.old) (files_of H.Shelf shelf.new)
            (design_task self.now) result }
    {
        match self {
            DesignCommand::Slots { need, gap, free } => {
                ended(slots::answer(alloc, *need, *gap, free))
            }
            DesignCommand::Server { need, links, slots } => {
                ended(server::answer(alloc, *need, *links, slots))
            }
            DesignCommand::Chip { chip } => chip::answer(alloc, chip, shelf),
            DesignCommand::App { chip, app } => app::answer(alloc, chip, app, shelf),
            DesignCommand::Allocate { chip, app } => allocate::answer(alloc, chip, app, shelf),
            DesignCommand::Check { chip, app, plan } => {
                check::answer(alloc, chip, app, plan, shelf)
            }
        }
    }
}

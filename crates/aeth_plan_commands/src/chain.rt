// `chain CHIP APP PLAN USE CHAIN WORDS RECEIVERS CYCLES`: what a run of a chain of forwarding cores shows.
ghost use Rattle.aeth_answers.specs.Places.{Files, files_of};
ghost use Rattle.aeth_answers.specs.Stop.{Answers, Judges};
ghost use Rattle.aeth_base.specs.Limits.{max_cycles};
ghost use Rattle.aeth_chain.specs.Chain.{AreDistinct, IsChain};
ghost use Rattle.aeth_chain.specs.ChainItems.{AreItemsOf};
ghost use Rattle.aeth_chain.specs.ItemNames.{AreItemNames};
ghost use Rattle.aeth_plan_commands.specs.Commands.{HasRanges};
ghost use Rattle.aeth_plan_commands.specs.Chain.{chain_command, chain_job, chain_task, items_task};
ghost use Rattle.aeth_plan_commands.specs.Chain.{judged_items, named_task, planned_task};
ghost use Rattle.aeth_plan_commands.specs.Chain.{pulled_task, shapes_job, words_task};
ghost use Rattle.aeth_group.specs.Members.{groups_of};
ghost use Rattle.aeth_plan.specs.Design.{IsDesign};
ghost use Rattle.std.specs.Prelude.{◌≡◌, ◌<◌, ◌≤◌, IfOk, IfSome, length, map, string_bytes};

use crate::accepted::AcceptedDesign;
use crate::command::PlanCommand;
use aeth_answers::{Answer, FileName, Stop, ended, judged, number_in};
use aeth_app::App;
use aeth_base::{MAX_CYCLES, Name, NoMemory, UseId};
use aeth_chain::{
    ChainItem, ItemName, ItemNames, chain_bound, chain_items, chain_shapes, chain_text, item_names,
    run_chain,
};
use aeth_files::{named_use, read_accepted, read_design};
use aeth_io::Shelf;
use aeth_plan::{Design, Planned};
use aeth_run_files::{read_receivers_file, read_words_file};
use aeth_server::ChannelShape;
use aeth_trace::{Receivers, Words};
use std::alloc::Global;

/// How the word of a chain is called in texts.
const CHAIN: &str = "chain";

/// The files of a chain.
#[derive(Drop)]
pub struct ChainFiles<'a> {
    pub chip: FileName<'a>,
    pub app: FileName<'a>,
    pub plan: FileName<'a>,
    pub words: FileName<'a>,
    pub receivers: FileName<'a>,
}

/// A chain in a use case, and for how many cycles it runs.
#[derive(Drop)]
pub struct ForwardingRun {
    pub u: UseId,
    pub items: Vec<ChainItem>,
    pub cycles: u32,
}

/// A chain as words name it: its use case, its items, and for how many cycles it runs.
#[derive(Clone, Copy)]
struct NamedChain<'a> {
    u: &'a Name,
    items: &'a [ItemName],
    cycles: u32,
}

/// The command of the words CHIP APP PLAN USE CHAIN WORDS RECEIVERS CYCLES.
pub fn command<'a>(words: &'a [String]) -> Option<PlanCommand<'a>>
    ensures command { result ≡ chain_command (map string_bytes words.now) }
    ensures ranges { IfSome result HasRanges }
{
    let [chip, app, plan, name, items, words, receivers, cycles] = words else {
        return None;
    };
    let files = ChainFiles {
        chip: FileName::new(chip.as_str())?,
        app: FileName::new(app.as_str())?,
        plan: FileName::new(plan.as_str())?,
        words: FileName::new(words.as_str())?,
        receivers: FileName::new(receivers.as_str())?,
    };
    let name = Name::new(name.as_bytes())?;
    let items = item_names(items.as_bytes())?;
    let cycles = number_in(1, MAX_CYCLES, cycles.as_str())?;
    Some(PlanCommand::Chain {
        files,
        name,
        items,
        cycles,
    })
}

/// What a chain of these items shows in so many cycles, in the use case of this name.
pub fn answer<H: Shelf>(
    alloc: Global,
    files: &ChainFiles,
    name: &Name,
    items: &ItemNames,
    cycles: u32,
    shelf: &mut H,
) -> Result<Answer, Stop>
    requires names { AreItemNames items.now }
    requires least { 1 ≤ cycles }
    requires most { cycles ≤ max_cycles }
    ensures { Answers (files_of H.Shelf shelf.old) (files_of H.Shelf shelf.new)
        (chain_task files.now name.now items.now cycles) result }
{
    let design = read_design(alloc, &files.chip, &files.app, shelf)?;
    let chain = NamedChain {
        u: name,
        items: items.as_slice(),
        cycles,
    };
    named_answer(alloc, &design, files, &chain, shelf)
}

/// The same for a chip and an application.
fn named_answer<H: Shelf>(
    alloc: Global,
    design: &Design,
    files: &ChainFiles,
    chain: &NamedChain,
    shelf: &mut H,
) -> Result<Answer, Stop>
    requires names { AreItemNames chain.now.items.now }
    requires least { 1 ≤ chain.now.cycles }
    requires most { chain.now.cycles ≤ max_cycles }
    ensures { Answers (files_of H.Shelf shelf.old) (files_of H.Shelf shelf.new)
        (named_task design.now files.now chain.now.u.now chain.now.items.now chain.now.cycles)
        result }
{
    let u = named_use(alloc, &design.app, chain.u)?;
    items_answer(alloc, design, files, u, chain, shelf)
}

/// The same for a use case.
fn items_answer<H: Shelf>(
    alloc: Global,
    design: &Design,
    files: &ChainFiles,
    u: UseId,
    chain: &NamedChain,
    shelf: &mut H,
) -> Result<Answer, Stop>
    requires names { AreItemNames chain.now.items.now }
    requires use_case { u.0 < length design.now.app.uses }
    requires least { 1 ≤ chain.now.cycles }
    requires most { chain.now.cycles ≤ max_cycles }
    ensures { Answers (files_of H.Shelf shelf.old) (files_of H.Shelf shelf.new)
        (items_task design.now files.now u chain.now.items.now chain.now.cycles) result }
{
    let items = judged_items(alloc, &design.app, u, chain.items)?;
    let run = ForwardingRun {
        u,
        items,
        cycles: chain.cycles,
    };
    planned_answer(alloc, design, files, &run, shelf)
}

/// The items of names in a use case, or the end of the command by the rule that they break.
fn judged_items(
    alloc: Global,
    app: &App,
    u: UseId,
    names: &[ItemName],
) -> Result<Vec<ChainItem>, Stop>
    requires names { AreItemNames names.now }
    requires use_case { u.0 < length app.now.uses }
    ensures judges { (now : Files) → Judges now now (judged_items app.now u names.now)
        (λ items. items.items) result }
    ensures items { IfOk result (λ items. AreItemsOf app.now u.0 items.items) }
{
    judged(alloc, CHAIN, chain_items(alloc, names, app, u))
}

/// What a chain shows, for a chip and an application.
fn planned_answer<H: Shelf>(
    alloc: Global,
    design: &Design,
    files: &ChainFiles,
    run: &ForwardingRun,
    shelf: &mut H,
) -> Result<Answer, Stop>
    requires use_case { run.now.u.0 < length design.now.app.uses }
    requires items { AreItemsOf design.now.app run.now.u.0 run.now.items.items }
    requires least { 1 ≤ run.now.cycles }
    requires most { run.now.cycles ≤ max_cycles }
    ensures { Answers (files_of H.Shelf shelf.old) (files_of H.Shelf shelf.new)
        (planned_task design.now files.now run.now.u run.now.items.items run.now.cycles) result }
{
    let planned = read_accepted(alloc, design, &files.plan, shelf)?;
    let accepted = AcceptedDesign {
        design,
        planned: &planned,
    };
    words_answer(alloc, &accepted, files, run, shelf)
}

/// The same for an accepted plan.
fn words_answer<H: Shelf>(
    alloc: Global,
    accepted: &AcceptedDesign,
    files: &ChainFiles,
    run: &ForwardingRun,
    shelf: &mut H,
) -> Result<Answer, Stop>
    requires groups { accepted.now.planned.now.groups ≡ groups_of accepted.now.design.now.app }
    requires design { IsDesign accepted.now.design.now.chip accepted.now.design.now.app
        accepted.now.planned.now.plan }
    requires use_case { run.now.u.0 < length accepted.now.design.now.app.uses }
    requires items { AreItemsOf accepted.now.design.now.app run.now.u.0 run.now.items.items }
    requires least { 1 ≤ run.now.cycles }
    requires most { run.now.cycles ≤ max_cycles }
    ensures { Answers (files_of H.Shelf shelf.old) (files_of H.Shelf shelf.new)
        (words_task accepted.now.design.now files.now accepted.now.planned.now.plan run.now.u
        run.now.items.items run.now.cycles) result }
{
    let words = read_words_file(alloc, &accepted.design.app, &files.words, shelf)?;
    pulled_answer(alloc, accepted, files, run, &words, shelf)
}

/// The same for words.
fn pulled_answer<H: Shelf>(
    alloc: Global,
    accepted: &AcceptedDesign,
    files: &ChainFiles,
    run: &ForwardingRun,
    words: &Words,
    shelf: &mut H,
) -> Result<Answer, Stop>
    requires groups { accepted.now.planned.now.groups ≡ groups_of accepted.now.design.now.app }
    requires design { IsDesign accepted.now.design.now.chip accepted.now.design.now.app
        accepted.now.planned.now.plan }
    requires use_case { run.now.u.0 < length accepted.now.design.now.app.uses }
    requires items { AreItemsOf accepted.now.design.now.app run.now.u.0 run.now.items.items }
    requires least { 1 ≤ run.now.cycles }
    requires most { run.now.cycles ≤ max_cycles }
    ensures { Answers (files_of H.Shelf shelf.old) (files_of H.Shelf shelf.new)
        (pulled_task accepted.now.design.now files.now accepted.now.planned.now.plan run.now.u
        run.now.items.items run.now.cycles words.now) result }
{
    let AcceptedDesign { design, planned } = *accepted;
    let receivers = read_receivers_file(alloc, &design.app, &files.receivers, shelf)?;
    ended(printed(alloc, design, planned, run, words, &receivers))
}

/// The text of a chain by an accepted plan.
fn printed(
    alloc: Global,
    design: &Design,
    planned: &Planned,
    run: &ForwardingRun,
    words: &Words,
    receivers: &Receivers,
) -> Result<Answer, NoMemory>
    requires groups { planned.now.groups ≡ groups_of design.now.app }
    requires design { IsDesign design.now.chip design.now.app planned.now.plan }
    requires use_case { run.now.u.0 < length design.now.app.uses }
    requires items { AreItemsOf design.now.app run.now.u.0 run.now.items.items }
    requires least { 1 ≤ run.now.cycles }
    requires most { run.now.cycles ≤ max_cycles }
    ensures { IfOk result (λ answer. answer ≡ chain_job design.now planned.now.plan run.now.u
        run.now.items.items run.now.cycles words.now receivers.now) }
{
    let shapes = chain_shapes(alloc, design, planned, run.u, &run.items)?;
    text_of(alloc, &design.app, run, &shapes, words, receivers)
}

/// The text of a chain whose channels have these shapes.
fn text_of(
    alloc: Global,
    app: &App,
    run: &ForwardingRun,
    shapes: &[ChannelShape],
    words: &Words,
    receivers: &Receivers,
) -> Result<Answer, NoMemory>
    requires use_case { run.now.u.0 < length app.now.uses }
    requires chain { IsChain run.now.items.items shapes.now }
    requires distinct { AreDistinct run.now.items.items }
    requires least { 1 ≤ run.now.cycles }
    requires most { run.now.cycles ≤ max_cycles }
    ensures { IfOk result (λ answer. answer ≡ shapes_job app.now run.now.u run.now.items.items
        shapes.now run.now.cycles words.now receivers.now) }
{
    let bound = chain_bound(&run.items, shapes);
    let log = run_chain(alloc, &run.items, shapes, words, receivers, run.cycles)?;
    Ok(Answer::done(chain_text(alloc, &log, &bound, app, run.u)?))
}

// The inputs of a run as one value.

ghost use Rattle.std.specs.Prelude.{◌≡◌};
ghost use Rattle.aeth_accepted.specs.Inputs.{AreAccepted, inputs_with};
ghost use Rattle.aeth_group.specs.Members.{groups_of};

use aeth_app::App;
use aeth_chip::Chip;
use aeth_group::Groups;
use aeth_plan::Plan;
use aeth_trace::{Receivers, Switches, Words};
use std::marker::Model;

/// The traces of a run, which are borrowed: the words that are offered in it, how its receivers take
/// them, and its switches between use cases.
#[derive(Clone, Copy)]
pub struct BorrowedTraces<'a> {
    pub words: &'a Words,
    pub receivers: &'a Receivers,
    pub switches: &'a Switches,
}

/// The inputs of a run, which are accepted, with the groups of their application. They are borrowed,
/// and passed on as one value.
#[derive(Drop)]
pub struct RunInputs<'a> {
    chip: &'a Chip,
    app: &'a App,
    groups: &'a Groups,
    plan: &'a Plan,
    traces: BorrowedTraces<'a>,
    cycles: u32,
}

impl<'a> Model for RunInputs<'a> {
    ghost use Rattle.std.specs.Prelude.{◌≡◌};
    ghost use Rattle.aeth_accepted.specs.Inputs.{AreAccepted, Inputs, inputs_with};
    ghost use Rattle.aeth_group.specs.Members.{groups_of};

    ghost Value = { Inputs };

    ghost view = { λ all. inputs_with all.chip.now all.app.now all.plan.now all.traces.words.now
        all.traces.receivers.now all.traces.switches.now all.cycles };

    ghost invariant = { λ all. (all.groups.now ≡ groups_of all.app.now)
        × AreAccepted (inputs_with all.chip.now all.app.now all.plan.now all.traces.words.now
        all.traces.receivers.now all.traces.switches.now all.cycles) };
}

impl<'a> RunInputs<'a> {
    /// The inputs of a run of so many cycles. The groups are those of the application.
    pub fn of(
        chip: &'a Chip,
        app: &'a App,
        groups: &'a Groups,
        plan: &'a Plan,
        traces: BorrowedTraces<'a>,
        cycles: u32,
    ) -> RunInputs<'a>
        requires groups { groups.now ≡ groups_of app.now }
        requires accepted { AreAccepted (inputs_with chip.now app.now plan.now traces.words.now
            traces.receivers.now traces.switches.now cycles) }
        ensures { result ≡ inputs_with chip.now app.now plan.now traces.entry.words.now
            traces.entry.receivers.now traces.entry.switches.now cycles }
    {
        RunInputs {
            chip,
            app,
            groups,
            plan,
            traces,
            cycles,
        }
    }

    /// The law that they are accepted. It does nothing.
    pub fn are_accepted(&self)
        ensures { AreAccepted self.now }
    {
        let _cycles = self.cycles;
    }

    /// The chip.
    pub fn chip(&self) -> &'a Chip
        ensures { result.now ≡ self.now.chip }
    {
        self.chip
    }

    /// The application.
    pub fn app(&self) -> &'a App
        ensures { result.now ≡ self.now.app }
    {
        self.app
    }

    /// The groups of its use cases.
    pub fn groups(&self) -> &'a Groups
        ensures { result.now ≡ groups_of self.now.app }
    {
        self.groups
    }

    /// The plan.
    pub fn plan(&self) -> &'a Plan
        ensures { result.now ≡ self.now.plan }
    {
        self.plan
    }

    /// The words that are offered.
    pub fn words(&self) -> &'a Words
        ensures { result.now ≡ self.now.words }
    {
        self.traces.words
    }

    /// How receivers take words.
    pub fn receivers(&self) -> &'a Receivers
        ensures { result.now ≡ self.now.pulls }
    {
        self.traces.receivers
    }

    /// The switches between use cases.
    pub fn switches(&self) -> &'a Switches
        ensures { result.now ≡ self.now.switches }
    {
        self.traces.switches
    }

    /// The number of cycles.
    pub fn cycles(&self) -> u32
        ensures { result ≡ self.now.cycles }
    {
        self.cycles
    }
}

// The tries of the channels for which units are refused.
ghost use Rattle.std.specs.Prelude.{◌≡◌, ◌<◌, ◌≤◌, All, IfOk, IfSome, OnOk, Some, length};
ghost use Rattle.std.specs.Prelude.{map, option_map, slice_get};
ghost use Rattle.aeth_app.specs.App.{IsAppOf};
ghost use Rattle.aeth_group.specs.Members.{groups_of};
ghost use Rattle.aeth_paths.specs.Trials.{IsTrialOf};
ghost use Rattle.aeth_alloc.specs.Holds.{IsStateOf};
ghost use Rattle.aeth_alloc.specs.Prices.{prices_of};
ghost use Rattle.aeth_alloc.specs.Trials.{refused_of, trial_in, trials_of};
ghost use Rattle.aeth_alloc.specs.Tries.{AreWithin, trial_over};
ghost use Rattle.aeth_alloc.specs.Turns.{after_turn};

use crate::attempts::Try;
use crate::channels::Design;
use crate::outcome::Refused;
use crate::prices::{cost_by, priced};
use crate::turns::State;
use aeth_app::App;
use aeth_base::NoMemory;
use aeth_book::Book;
use aeth_chip::{Chip, Distances};
use aeth_group::Groups;
use aeth_paths::{Cost, Trial};
use std::alloc::Global;
use std::marker::Model;

impl State {
    // One turn, and the try of its refusal, if there is one. What a refusal leaves is what was there
    // before.
    fn noted_turn<F: Fn(u32, u32) -> u32>(
        &mut self,
        alloc: Global,
        design: &Design<F>,
        turn: u32,
    ) -> Result<Option<Try>, NoMemory>
        requires { IsStateOf design.now self.old }
        ensures state { OnOk result (self.new ≡ after_turn design.now turn self.old) }
        ensures trial { IfOk result (λ one.
            option_map (trial_over self.new.reserved.book.grants) one
            ≡ trial_in design.now turn self.old) }
        ensures within { IfOk result (λ one. IfSome one (λ one.
            one.before ≤ length self.new.reserved.book.grants)) }
    {
        let refusals = self.refused.len();
        self.turn(alloc, design, turn)?;
        match self.refusal(refusals) {
            None => Ok(None),
            Some(refused) => self.reserved.refused_try(alloc, design, refused),
        }
    }

    // The refusal at a place, if there is one.
    fn refusal(&self, place: usize) -> Option<Refused>
        ensures { result ≡ slice_get self.now.refused place }
    {
        match self.refused.get(place) {
            None => None,
            Some(refused) => Some(*refused),
        }
    }

    // The tries that were kept, with the grants of all turns.
    fn with_tries(self, tries: Vec<Try>) -> Tries
        requires { AreWithin (length self.reserved.book.grants) tries.items }
        ensures { result ≡ map (trial_over self.reserved.book.grants) tries.items }
    {
        let reserved = self.reserved;
        Tries {
            book: reserved.book,
            tries,
        }
    }
}

/// The tries of the channels for which units are refused, in the order of turns. A trial is made of
/// one at a time, since each has all grants before it: here they stand once.
#[derive(Drop)]
pub struct Tries {
    book: Book,
    tries: Vec<Try>,
}

impl Model for Tries {
    ghost use Rattle.std.specs.Prelude.{List, length, map};
    ghost use Rattle.aeth_paths.specs.Trials.{TrialData};
    ghost use Rattle.aeth_alloc.specs.Tries.{AreWithin, trial_over};

    ghost Value = { List TrialData };

    ghost view = { λ tries. map (trial_over tries.book.grants) tries.tries.items };

    ghost invariant = { λ tries. AreWithin (length tries.book.grants) tries.tries.items };
}

impl Tries {
    /// The tries of an allocation with the application's price, by the chip's distances. `Err` where
    /// there was no memory.
    pub fn of(
        alloc: Global,
        chip: &Chip,
        far: &Distances,
        app: &App,
        groups: &Groups,
    ) -> Result<Tries, NoMemory>
        requires far { far.now ≡ chip.now.links }
        requires app { IsAppOf chip.now app.now }
        requires groups { groups.now ≡ groups_of app.now }
        ensures gives { IfOk result (λ tries.
            tries ≡ trials_of chip.now app.now groups.now (prices_of app.now.price)) }
        ensures fit { IfOk result (All (IsTrialOf chip.now)) }
    {
        let price = app.price();
        let cost = priced(price, move |delay, used| cost_by(price, delay, used));
        tries_with(alloc, chip, far, app, groups, &cost)
    }

    /// How many there are.
    pub fn len(&self) -> usize
        ensures { result ≡ length self.now }
    {
        self.tries.len()
    }

    /// The refusal of which one of them tells.
    pub fn refusal(&self, i: usize) -> Refused
        requires { i < length self.now }
        ensures { option_map refused_of (slice_get self.now i) ≡ Some result }
    {
        let one = &self.tries[i];
        Refused {
            unit: one.ask.unit,
            side: one.ask.side,
            turn: one.turn,
        }
    }

    /// One of them, as a trial of its own. `Err` where there was no memory.
    pub fn trial(&self, alloc: Global, i: usize) -> Result<Trial, NoMemory>
        requires { i < length self.now }
        ensures { IfOk result (λ trial. slice_get self.now i ≡ Some trial) }
    {
        self.tries[i].trial(alloc, self.book.list())
    }
}

// The tries where links cost what a cost says.
fn tries_with<F: Fn(u32, u32) -> u32>(
    alloc: Global,
    chip: &Chip,
    far: &Distances,
    app: &App,
    groups: &Groups,
    cost: &Cost<F>,
) -> Result<Tries, NoMemory>
    requires far { far.now ≡ chip.now.links }
    requires app { IsAppOf chip.now app.now }
    requires groups { groups.now ≡ groups_of app.now }
    ensures gives { IfOk result (λ tries. tries
        ≡ trials_of chip.now app.now groups.now cost.now) }
    ensures fit { IfOk result (All (IsTrialOf chip.now)) }
{
    let _slots = chip.slots();
    let _app_slots = app.slots();
    let design = Design {
        chip,
        far,
        app,
        cost,
    };
    tries_of(alloc, &design, groups)
}

// The tries of a design's turns.
fn tries_of<F: Fn(u32, u32) -> u32>(
    alloc: Global,
    design: &Design<F>,
    groups: &Groups,
) -> Result<Tries, NoMemory>
    requires { groups.now ≡ groups_of design.now.app }
    ensures gives { IfOk result (λ tries.
        tries ≡ trials_of design.now.chip design.now.app groups.now design.now.prices) }
    ensures fit { IfOk result (All (IsTrialOf design.now.chip)) }
{
    let mut state = State::new(alloc, design.chip, design.app, groups)?;
    let mut tries = Vec::new(alloc);
    for turn in 0..groups.units() {
        if let Some(one) = state.noted_turn(alloc, design, turn + 1)? {
            tries.push(one)?;
        }
    }
    Ok(state.with_tries(tries))
}

/// The tries of the channels for which units are refused, as trials, in the order of turns. `Err`
/// where there was no memory.
///
/// One for each refusal of the allocation with the application's price: with what the refused channel
/// asked, the grants that were made before its try, of which the last is the `fwd` grant of its unit
/// where it is a `back` channel, and its candidate interfaces.
pub fn trials(
    alloc: Global,
    chip: &Chip,
    app: &App,
    groups: &Groups,
) -> Result<Vec<Trial>, NoMemory>
    requires app { IsAppOf chip.now app.now }
    requires groups { groups.now ≡ groups_of app.now }
    ensures gives { IfOk result (λ trials.
        trials.items ≡ trials_of chip.now app.now groups.now (prices_of app.now.price)) }
    ensures fit { IfOk result (λ trials. All (IsTrialOf chip.now) trials.items) }
{
    let far = Distances::of(alloc, chip)?;
    let tries = Tries::of(alloc, chip, &far, app, groups)?;
    all_trials(alloc, &tries)
}

// All of them, as trials.
fn all_trials(alloc: Global, tries: &Tries) -> Result<Vec<Trial>, NoMemory>
    ensures { IfOk result (λ trials. trials.items ≡ tries.now) }
{
    let mut trials = Vec::new(alloc);
    for i in 0..tries.len() {
        trials.push(tries.trial(alloc, i)?)?;
    }
    Ok(trials)
}

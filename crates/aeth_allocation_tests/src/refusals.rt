// The try of a refused channel, its certificate, and what is found of texts of lists for it.
ghost use Rattle.aeth_app.specs.App.{IsAppOf};
ghost use Rattle.aeth_explain.specs.CutsText.{AreLinksOf};
ghost use Rattle.aeth_group.specs.Members.{groups_of};
ghost use Rattle.aeth_paths.specs.Trials.{IsTrialOf};
ghost use Rattle.std.specs.Prelude.{◌≡◌, All, length};

use crate::grants::{mask_of, unit};
use crate::searches::has_links;
use aeth_alloc::trials;
use aeth_app::App;
use aeth_base::{NiId, Side};
use aeth_chip::Chip;
use aeth_explain::{CutVerdict, Cuts, certify, cuts_text, read_cuts, verify};
use aeth_group::{Grant, Groups};
use aeth_paths::{Request, Trial};
use std::alloc::Global;

/// What a channel of the first group asks: the connection, the side, the slots, the latency and the detour.
#[derive(Clone, Copy)]
pub(crate) struct Asked(pub u32, pub Side, pub u32, pub u32, pub u32);

/// A grant of the first group: the connection, the side, the links and the mask of the slots.
#[derive(Clone, Copy)]
pub(crate) struct Granted(pub u32, pub Side, pub &'static [u32], pub u64);

/// What must be found of the lists of a text.
#[derive(Clone, Copy)]
pub(crate) enum Verdict {
    Complete,
    NotDead(u32),
    Open(&'static [u32]),
}

/// A text with the lists that it has for the try, and what is found of them.
#[derive(Clone, Copy)]
pub(crate) struct Judged(pub &'static str, pub &'static [&'static [u32]], pub Verdict);

/// The only refusal of an allocation: its try, its certificate with the text, and other texts.
#[derive(Clone, Copy)]
pub(crate) struct AskedOfRefusal {
    pub asked: Asked,
    pub turn: u32,
    pub grants: &'static [Granted],
    pub from: &'static [NiId],
    pub to: &'static [NiId],
    pub crowded: &'static [NiId],
    pub cuts: &'static [&'static [u32]],
    pub text: &'static str,
    pub judged: &'static [Judged],
}

/// Whether the allocation refuses one channel, and all is right of it.
pub(crate) fn is_refusal_right(
    alloc: Global,
    chip: &Chip,
    app: &App,
    groups: &Groups,
    asked: &AskedOfRefusal,
) -> Option<bool>
    requires app { IsAppOf chip.now app.now }
    requires groups { groups.now ≡ groups_of app.now }
{
    match trials(alloc, chip, app, groups) {
        Ok(trials) => is_right_of(alloc, chip, app, groups, &trials, asked),
        Err(_) => None,
    }
}

/// The same of the tries of the allocation.
fn is_right_of(
    alloc: Global,
    chip: &Chip,
    app: &App,
    groups: &Groups,
    trials: &[Trial],
    asked: &AskedOfRefusal,
) -> Option<bool>
    requires { All (IsTrialOf chip.now) trials.now }
{
    if trials.len() != 1 {
        return None;
    }
    let is_made = is_certified(alloc, chip, app, groups, trials, asked)?;
    let is_judged = are_judged(alloc, chip, app, groups, trials, asked.judged)?;
    Some(is_trial(&trials[0], asked) && is_made && is_judged)
}

/// Whether this is the try.
fn is_trial(trial: &Trial, asked: &AskedOfRefusal) -> bool {
    is_asked(&trial.ask(), &asked.asked)
        && trial.turn() == asked.turn
        && are_grants(trial.grants(), asked.grants)
        && trial.from() == asked.from
        && trial.to() == asked.to
        && trial.crowded() == asked.crowded
}

fn is_asked(ask: &Request, asked: &Asked) -> bool {
    let Asked(conn, side, need, latency, detour) = *asked;
    ask.unit == unit(conn, 0)
        && ask.side == side
        && (ask.need, ask.latency, ask.detour) == (need, latency, detour)
}

fn are_grants(grants: &[Grant], asked: &[Granted]) -> bool {
    let mut are = grants.len() == asked.len();
    for (i, grant) in grants.iter().enumerate() {
        are = are && i < asked.len() && is_grant(grant, &asked[i]);
    }
    are
}

fn is_grant(grant: &Grant, asked: &Granted) -> bool {
    let Granted(conn, side, links, mask) = *asked;
    grant.unit == unit(conn, 0)
        && grant.side == side
        && has_links(&grant.path, links)
        && mask_of(&grant.slots) == mask
}

/// Whether the try has this certificate, with this text.
fn is_certified(
    alloc: Global,
    chip: &Chip,
    app: &App,
    groups: &Groups,
    trials: &[Trial],
    asked: &AskedOfRefusal,
) -> Option<bool>
    requires fit { All (IsTrialOf chip.now) trials.now }
    requires one { length trials.now ≡ 1 }
{
    match certify(alloc, chip, app, groups, &trials[0]) {
        Ok(Some(cuts)) => is_printed(alloc, app, trials, cuts, asked),
        Ok(None) => None,
        Err(_) => None,
    }
}

/// Whether a certificate has these cuts, with this text.
fn is_printed(
    alloc: Global,
    app: &App,
    trials: &[Trial],
    cuts: Cuts,
    asked: &AskedOfRefusal,
) -> Option<bool>
    requires { length trials.now ≡ 1 }
{
    let has = has_lists(&cuts, asked.cuts);
    let mut all = Vec::new(alloc);
    match all.push(cuts) {
        Ok(()) => Some(has && is_text(alloc, app, trials, &all, asked.text)?),
        Err(_) => None,
    }
}

fn is_text(alloc: Global, app: &App, trials: &[Trial], cuts: &[Cuts], wanted: &str) -> Option<bool>
    requires { length trials.now ≡ length cuts.now }
{
    match cuts_text(alloc, trials, cuts, app) {
        Ok(text) => Some(text.as_slice() == wanted.as_bytes()),
        Err(_) => None,
    }
}

/// Whether these are the lists.
fn has_lists(cuts: &Cuts, lists: &[&[u32]]) -> bool {
    let mut has = cuts.len() as usize == lists.len();
    for (i, path) in cuts.list().iter().enumerate() {
        has = has && i < lists.len() && has_links(path, lists[i]);
    }
    has
}

/// Whether all texts have their lists, and that is found of them.
fn are_judged(
    alloc: Global,
    chip: &Chip,
    app: &App,
    groups: &Groups,
    trials: &[Trial],
    judged: &[Judged],
) -> Option<bool>
    requires fit { All (IsTrialOf chip.now) trials.now }
    requires one { length trials.now ≡ 1 }
{
    let mut are = true;
    for one in judged {
        are = is_judged(alloc, chip, app, groups, trials, one)? && are;
    }
    Some(are)
}

fn is_judged(
    alloc: Global,
    chip: &Chip,
    app: &App,
    groups: &Groups,
    trials: &[Trial],
    judged: &Judged,
) -> Option<bool>
    requires fit { All (IsTrialOf chip.now) trials.now }
    requires one { length trials.now ≡ 1 }
{
    match read_cuts(alloc, judged.0.as_bytes(), chip, app, groups, trials) {
        Ok(blocks) => match verdict_on(alloc, chip, app, groups, &trials[0], &blocks) {
            Some(found) => Some(is_found(&blocks, &found, judged)),
            None => None,
        },
        Err(_) => None,
    }
}

/// The verdict on the text's only lists.
fn verdict_on(
    alloc: Global,
    chip: &Chip,
    app: &App,
    groups: &Groups,
    trial: &Trial,
    blocks: &[Cuts],
) -> Option<CutVerdict>
    requires trial { IsTrialOf chip.now trial.now }
    requires links { All (AreLinksOf chip.now) blocks.now }
{
    if blocks.len() != 1 {
        return None;
    }
    match verify(alloc, chip, app, groups, trial, &blocks[0]) {
        Ok(found) => Some(found),
        Err(_) => None,
    }
}

/// Whether the text's only lists are these, and that is found of them.
fn is_found(blocks: &[Cuts], found: &CutVerdict, judged: &Judged) -> bool {
    blocks.len() == 1 && has_lists(&blocks[0], judged.1) && is_verdict(found, &judged.2)
}

fn is_verdict(found: &CutVerdict, wanted: &Verdict) -> bool {
    match (found, wanted) {
        (CutVerdict::Complete, Verdict::Complete) => true,
        (CutVerdict::NotDead { cut }, Verdict::NotDead(place)) => *cut == *place,
        (CutVerdict::Open { path }, Verdict::Open(links)) => has_links(path, links),
        _ => false,
    }
}

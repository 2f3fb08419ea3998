// The shortest cuts of a try, by a walk over the lists with which its paths begin.
ghost use Rattle.std.specs.Prelude.{◌≡◌, ◌≤◌, ◌<◌, ◌+◌, ◌-◌, ◌∷◌, [], true, false, ℕ, All, Contains, IfOk, OnOk, length};
ghost use Rattle.std.specs.List.{list_any};
ghost use Rattle.aeth_base.specs.Limits.{max_path_links};
ghost use Rattle.aeth_chip.specs.Paths.{to_of};
ghost use Rattle.aeth_chip.specs.declared.node.Node.{Node};
ghost use Rattle.aeth_chip.specs.declared.node.Node.TheVariants.{Ni, Router};
ghost use Rattle.aeth_explain.specs.Certificate.{shorter_fronts};
ghost use Rattle.aeth_explain.specs.Fronts.{IsFront, lists_below};
ghost use Rattle.aeth_explain.specs.Senders.{IsReach};
ghost use Rattle.aeth_explain.specs.TryPaths.{is_dead, leaving_lists, may_take};
ghost use Rattle.aeth_explain.specs.Walks.{IsTried, IsWalked};
ghost use Rattle.aeth_paths.specs.Task.{links_from};

use crate::cuts::Cuts;
use crate::open_paths::{Front, Listed, Over, open_below, over_link, with_link};
use crate::places::all_places;
use crate::senders::{Sender, is_among};
use crate::try_judge::TryJudge;
use aeth_base::{LinkId, MAX_PATH_LINKS, NiId, NoMemory, Path};
use aeth_chip::{MAX_PORTS, Node};
use std::alloc::Global;

/// What comes of a path that the try may take, of which no shorter list is dead: it is a cut where it is
/// dead, and else `true` is answered.
fn end(judge: &TryJudge, listed: &Listed, path: &Path, cuts: &mut Cuts) -> Result<bool, NoMemory>
    requires tried { IsTried judge.now listed.now }
    requires links { All (λ link. link.0 < length listed.now.chip.now.links) path.now }
    requires some { 1 ≤ length path.now }
    requires may { may_take listed.now.chip.now listed.now.trial.now path.now ≡ true }
    requires fronts { list_any (is_dead listed.now.chip.now judge.now.groups listed.now.trial.now)
        (shorter_fronts path.now) ≡ false }
    ensures { IfOk result (λ found. (left : ℕ) (node : Node)
        → IsWalked listed.now.chip.now judge.now.groups listed.now.trial.now
        (lists_below listed.now.chip.now.links left node path.now) cuts.old found cuts.new) }
{
    if judge.is_dead(path) {
        cuts.push(*path)?;
        return Ok(false);
    }
    Ok(true)
}

/// Puts a dead list down where a path that the try may take goes on from it.
fn put_cut(
    judge: &TryJudge,
    listed: &Listed,
    sender: &Sender,
    front: &Front,
    left: u32,
    cuts: &mut Cuts,
) -> Result<(), NoMemory>
    requires tried { IsTried judge.now listed.now }
    requires reach { IsReach listed.now.chip.now listed.now.trial.now sender.now.ni
        sender.now.most_to.items sender.now.most_at.items }
    requires sender { Contains listed.now.trial.now.from sender.now.ni }
    requires front { IsFront listed.now sender.now.ni front.now }
    requires room { length front.now.path + left ≡ max_path_links }
    requires dead { is_dead listed.now.chip.now judge.now.groups listed.now.trial.now
        front.now.path ≡ true }
    requires fronts { list_any (is_dead listed.now.chip.now judge.now.groups listed.now.trial.now)
        (shorter_fronts front.now.path) ≡ false }
    ensures { OnOk result (IsWalked listed.now.chip.now judge.now.groups listed.now.trial.now
        (lists_below listed.now.chip.now.links left (Router front.now.router) front.now.path)
        cuts.old false cuts.new) }
{
    if open_below(listed, sender, front, left).is_some() {
        cuts.push(front.path)?;
    }
    Ok(())
}

/// Puts down the shortest cuts that begin with a list, of which no shorter one is dead, and go on over
/// at most so many links. `true` is answered where a path among them is live.
fn walk(
    judge: &TryJudge,
    listed: &Listed,
    sender: &Sender,
    front: &Front,
    left: u32,
    cuts: &mut Cuts,
) -> Result<bool, NoMemory>
    requires tried { IsTried judge.now listed.now }
    requires reach { IsReach listed.now.chip.now listed.now.trial.now sender.now.ni
        sender.now.most_to.items sender.now.most_at.items }
    requires sender { Contains listed.now.trial.now.from sender.now.ni }
    requires front { IsFront listed.now sender.now.ni front.now }
    requires room { length front.now.path + left ≡ max_path_links }
    requires fronts { list_any (is_dead listed.now.chip.now judge.now.groups listed.now.trial.now)
        (shorter_fronts front.now.path) ≡ false }
    ensures { IfOk result (λ found. IsWalked listed.now.chip.now judge.now.groups
        listed.now.trial.now (lists_below listed.now.chip.now.links left (Router front.now.router)
        front.now.path) cuts.old found cuts.new) }
{
    if judge.is_dead(&front.path) {
        put_cut(judge, listed, sender, front, left, cuts)?;
        return Ok(false);
    }
    if left == 0 {
        return Ok(false);
    }
    for port in 0..MAX_PORTS as u8 {
        let Some(link) = listed.chip.exit(front.router, port) else {
            return Ok(false);
        };
        let came = match over_link(listed, sender, front, link, left - 1) {
            Over::Away => Ok(false),
            Over::Open { path } => end(judge, listed, &path, cuts),
            Over::Onward { front } => walk(judge, listed, sender, &front, left - 1, cuts),
        };
        let found = came?;
        if found {
            return Ok(true);
        }
    }
    Ok(false)
}

/// Puts down the shortest cuts that begin with a link of a sender. `true` is answered where a path
/// over it is live.
fn walk_from(
    alloc: Global,
    judge: &TryJudge,
    listed: &Listed,
    ni: NiId,
    link: LinkId,
    cuts: &mut Cuts,
) -> Result<bool, NoMemory>
    requires tried { IsTried judge.now listed.now }
    requires sender { Contains listed.now.trial.now.from ni }
    requires link { Contains (links_from listed.now.chip.now.links (Ni ni)) link }
    ensures { IfOk result (λ found. IsWalked listed.now.chip.now judge.now.groups
        listed.now.trial.now (lists_below listed.now.chip.now.links (max_path_links - 1)
        (to_of listed.now.chip.now.links link) (link ∷ [])) cuts.old found cuts.new) }
{
    match listed.chip.link(link).to {
        Node::Ni(_) => Ok(false),
        Node::Router(router) => {
            let sender = Sender::new(alloc, listed.chip, listed.far, listed.trial, ni)?;
            let path = with_link(&Path::empty(), link);
            let front = Front {
                path,
                router,
                places: all_places(listed.cuts),
            };
            walk(judge, listed, &sender, &front, MAX_PATH_LINKS - 1, cuts)
        }
    }
}

/// Puts down the shortest cuts of a try. `true` is answered where the try has a candidate.
pub(crate) fn walk_all(
    alloc: Global,
    judge: &TryJudge,
    listed: &Listed,
    cuts: &mut Cuts,
) -> Result<bool, NoMemory>
    requires { IsTried judge.now listed.now }
    ensures { IfOk result (λ found. IsWalked listed.now.chip.now judge.now.groups
        listed.now.trial.now (leaving_lists listed.now.chip.now listed.now.trial.now.from) cuts.old
        found cuts.new) }
{
    for number in 0..listed.chip.links() {
        let link = LinkId(number);
        if let Node::Ni(ni) = listed.chip.link(link).from {
            if is_among(listed.trial.from(), ni) {
                let found = walk_from(alloc, judge, listed, ni, link, cuts)?;
                if found {
                    return Ok(true);
                }
            }
        }
    }
    Ok(false)
}

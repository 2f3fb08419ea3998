// The first path that a try may take and that begins with none of a certificate's lists.
ghost use Rattle.std.specs.Prelude.{◌≡◌, ◌<◌, ◌+◌, ◌-◌, ◌++◌, ◌∷◌, [], All, Contains, IfOk, length, slice_get};
ghost use Rattle.aeth_base.specs.Limits.{max_path_links};
ghost use Rattle.aeth_chip.specs.Paths.{to_of};
ghost use Rattle.aeth_chip.specs.declared.node.Node.TheVariants.{Ni, Router};
ghost use Rattle.aeth_explain.specs.Fronts.{IsFront, IsListed, IsOver, first_open, lists_below};
ghost use Rattle.aeth_explain.specs.Senders.{IsReach};
ghost use Rattle.aeth_explain.specs.Verdict.{open_paths};
ghost use Rattle.aeth_paths.specs.Search.{passes};
ghost use Rattle.aeth_paths.specs.Task.{links_from};

use crate::cuts::Cuts;
use crate::places::{Places, all_places, is_covered, narrowed};
use crate::senders::{Sender, is_among};
use aeth_base::{LinkId, MAX_PATH_LINKS, NiId, NoMemory, Path, RouterId};
use aeth_chip::{Chip, Distances, MAX_PORTS, Node};
use aeth_paths::Trial;
use std::alloc::Global;

/// A try, and the lists that a certificate has for it.
#[derive(Clone, Copy)]
pub(crate) struct Listed<'a> {
    pub chip: &'a Chip,
    pub far: &'a Distances,
    pub trial: &'a Trial,
    pub cuts: &'a Cuts,
}

/// A list of links from a sender that has come to a router, and between which places the certificate's
/// lists are that begin with it.
#[derive(Clone, Copy)]
pub(crate) struct Front {
    pub path: Path,
    pub router: RouterId,
    pub places: Places,
}

/// What comes of one more link: an open path, a list to go on from, or neither.
#[derive(Clone, Copy)]
pub(crate) enum Over {
    Away,
    Open { path: Path },
    Onward { front: Front },
}

/// Whether a link of a path ends at a router.
fn passes(chip: &Chip, path: &Path, router: RouterId) -> bool
    requires { All (λ link. link.0 < length chip.now.links) path.now }
    ensures { result ≡ passes (to_of chip.now.links) path.now (Router router) }
{
    for i in 0..path.len() {
        if chip.link(path.link(i)).ends_at(Node::Router(router)) {
            return true;
        }
    }
    false
}

/// A path with one more link.
pub(crate) fn with_link(path: &Path, link: LinkId) -> Path
    requires { length path.now < max_path_links }
    ensures { result ≡ path.now ++ link ∷ [] }
{
    let mut longer = *path;
    longer.push(link);
    longer
}

/// What comes of a link that leaves a list's end.
pub(crate) fn over_link(
    listed: &Listed,
    sender: &Sender,
    front: &Front,
    link: LinkId,
    left: u32,
) -> Over
    requires listed { IsListed listed.now }
    requires reach { IsReach listed.now.chip.now listed.now.trial.now sender.now.ni
        sender.now.most_to.items sender.now.most_at.items }
    requires sender { Contains listed.now.trial.now.from sender.now.ni }
    requires front { IsFront listed.now sender.now.ni front.now }
    requires room { length front.now.path + (left + 1) ≡ max_path_links }
    requires link { Contains (links_from listed.now.chip.now.links (Router front.now.router)) link }
    ensures { IsOver listed.now sender.now.ni front.now link left result }
{
    let path = with_link(&front.path, link);
    if is_covered(listed.cuts, front.places, &path) {
        return Over::Away;
    }
    match listed.chip.link(link).to {
        Node::Ni(ni) => {
            if path.len() <= sender.links_to(ni) {
                Over::Open { path }
            } else {
                Over::Away
            }
        }
        Node::Router(router) => {
            if passes(listed.chip, &front.path, router) || path.len() > sender.links_at(router) {
                return Over::Away;
            }
            let places = narrowed(listed.cuts, front.places, &path);
            Over::Onward {
                front: Front {
                    path,
                    router,
                    places,
                },
            }
        }
    }
}

/// The first open path that begins with a list and goes on over at most so many links.
pub(crate) fn open_below(listed: &Listed, sender: &Sender, front: &Front, left: u32) -> Option<Path>
    requires listed { IsListed listed.now }
    requires reach { IsReach listed.now.chip.now listed.now.trial.now sender.now.ni
        sender.now.most_to.items sender.now.most_at.items }
    requires sender { Contains listed.now.trial.now.from sender.now.ni }
    requires front { IsFront listed.now sender.now.ni front.now }
    requires room { length front.now.path + left ≡ max_path_links }
    ensures { result ≡ first_open listed.now.chip.now listed.now.trial.now listed.now.cuts.now
        (lists_below listed.now.chip.now.links left (Router front.now.router) front.now.path) }
{
    if left == 0 {
        return None;
    }
    for port in 0..MAX_PORTS as u8 {
        let Some(link) = listed.chip.exit(front.router, port) else {
            return None;
        };
        let found = match over_link(listed, sender, front, link, left - 1) {
            Over::Away => None,
            Over::Open { path } => Some(path),
            Over::Onward { front } => open_below(listed, sender, &front, left - 1),
        };
        if found.is_some() {
            return found;
        }
    }
    None
}

/// The first open path that begins with a link of a sender.
fn first_from(
    alloc: Global,
    listed: &Listed,
    ni: NiId,
    link: LinkId,
) -> Result<Option<Path>, NoMemory>
    requires listed { IsListed listed.now }
    requires sender { Contains listed.now.trial.now.from ni }
    requires link { Contains (links_from listed.now.chip.now.links (Ni ni)) link }
    ensures { IfOk result (λ found. found ≡ first_open listed.now.chip.now listed.now.trial.now
        listed.now.cuts.now (lists_below listed.now.chip.now.links (max_path_links - 1)
        (to_of listed.now.chip.now.links link) (link ∷ []))) }
{
    let path = with_link(&Path::empty(), link);
    let all = all_places(listed.cuts);
    if is_covered(listed.cuts, all, &path) {
        return Ok(None);
    }
    match listed.chip.link(link).to {
        Node::Ni(_) => Ok(None),
        Node::Router(router) => {
            let sender = Sender::new(alloc, listed.chip, listed.far, listed.trial, ni)?;
            let places = narrowed(listed.cuts, all, &path);
            let front = Front {
                path,
                router,
                places,
            };
            Ok(open_below(listed, &sender, &front, MAX_PATH_LINKS - 1))
        }
    }
}

/// The first open path.
pub(crate) fn first_open(alloc: Global, listed: &Listed) -> Result<Option<Path>, NoMemory>
    requires { IsListed listed.now }
    ensures { IfOk result (λ found. found ≡ slice_get
        (open_paths listed.now.chip.now listed.now.trial.now listed.now.cuts.now) 0) }
{
    for number in 0..listed.chip.links() {
        let link = LinkId(number);
        if let Node::Ni(ni) = listed.chip.link(link).from {
            if is_among(listed.trial.from(), ni) {
                let found = first_from(alloc, listed, ni, link)?;
                if found.is_some() {
                    return Ok(found);
                }
            }
        }
    }
    Ok(None)
}

// Paths as short lists of links.
ghost use Rattle.aeth_base.specs.Limits.{max_path_links};
ghost use Rattle.aeth_base.specs.declared.ids.LinkId.{LinkId};
ghost use Rattle.std.specs.Bool.{OnFalse, OnTrue};
ghost use Rattle.std.specs.Prelude.{◌≡◌, ◌<◌, ◌≤◌, ◌↔◌, ◌++◌, ◌∷◌, [], List, Some, length};
ghost use Rattle.std.specs.Prelude.{slice_get, IsTrue};

use crate::{LinkId, MAX_PATH_LINKS};
use std::marker::Model;

/// A list of at most 8 links, as a flit takes them one after the other.
#[derive(Clone, Copy)]
pub struct Path {
    links: [LinkId; MAX_PATH_LINKS as usize],
    len: u32,
}

impl Model for Path {
    ghost use Rattle.std.specs.Prelude.{List, take};
    ghost use Rattle.aeth_base.specs.declared.ids.LinkId.{LinkId};

    ghost Value = { List LinkId };

    ghost use Rattle.aeth_base.specs.PathLinks.{IsFilled, inside_of, inside_of-view};

    ghost view = { λ path. take path.len path.links };

    ghost invariant = { λ path. IsFilled path.links path.len };

    ghost inverse = { inside_of };

    ghost inverse_ok = { inside_of-view };
}

impl Path {
    /// The path without links.
    pub fn empty() -> Path
        ensures { result ≡ [] }
    {
        Path {
            links: [LinkId(0); MAX_PATH_LINKS as usize],
            len: 0,
        }
    }

    /// Puts a link at the end. False, and the path is as before, exactly where it has 8 links.
    pub fn push(&mut self, link: LinkId) -> bool
        ensures room { IsTrue result ↔ (length self.old < max_path_links) }
        ensures pushed { OnTrue result (self.new ≡ self.old ++ link ∷ []) }
        ensures kept { OnFalse result (self.new ≡ self.old) }
    {
        if self.len == MAX_PATH_LINKS {
            return false;
        }
        self.links[self.len as usize] = link;
        self.len += 1;
        true
    }

    /// The number of links.
    pub fn len(&self) -> u32
        ensures len { result ≡ length self.now }
        ensures most { result ≤ max_path_links }
    {
        self.len
    }

    /// Whether there is no link.
    pub fn is_empty(&self) -> bool
        ensures { IsTrue result ↔ (self.now ≡ []) }
    {
        self.len == 0
    }

    /// The link at a place, counted from 0.
    pub fn link(&self, i: u32) -> LinkId
        requires { i < length self.now }
        ensures { slice_get self.now i ≡ Some result }
    {
        self.links[i as usize]
    }
}

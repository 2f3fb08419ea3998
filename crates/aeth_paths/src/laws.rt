//! What the bound on the search's steps counts, over the definitions alone.
ghost use Rattle.std.specs.Bool.{Decides};
ghost use Rattle.std.specs.Prelude.{◌≡◌, [], ℕ, List, Option, sum_by};
ghost use Rattle.aeth_base.specs.Limits.{max_path_links};
ghost use Rattle.aeth_base.specs.declared.ids.LinkId.{LinkId};
ghost use Rattle.aeth_base.specs.declared.ids.NiId.{NiId};
ghost use Rattle.aeth_book.specs.Book.{BookData};
ghost use Rattle.aeth_chip.specs.LeastDistance.{link_ids};
ghost use Rattle.aeth_chip.specs.declared.node.Node.{Node};
ghost use Rattle.aeth_chip.specs.declared.node.Node.TheVariants.{Ni};
ghost use Rattle.aeth_paths.specs.Open.{open_steps};
ghost use Rattle.aeth_paths.specs.OpenLists.{IsOpenFor, is_open_list, leaving_links, lists_below};
ghost use Rattle.aeth_paths.specs.Task.{field};
ghost use Rattle.aeth_paths.specs.declared.request.Request.{Request};

/// The bound on the steps of a pair counts, over all lists of at most seven links of the chip, the
/// links that leave the end of a list that is open for the pair. A list is open where its links are
/// joined and end at distinct routers, its free starts have suitable slots unless it is empty, and
/// it is near enough to the goal.
pub fn open_lists()
    ensures open { (book : BookData) (prices : List ℕ) (ask : Request) (b : NiId) (most : ℕ)
        (least : Node → Option ℕ) (a : NiId) (path : List LinkId)
        → Decides (is_open_list book.links (field book prices ask b most) least (Ni a) [] path)
        (IsOpenFor book.links (field book prices ask b most) least a path) }
    ensures steps { (book : BookData) (prices : List ℕ) (ask : Request) (a b : NiId) (most : ℕ)
        (least : Node → Option ℕ)
        → open_steps (field book prices ask b most) least max_path_links (Ni a) []
        ≡ sum_by (leaving_links book.links (field book prices ask b most) least (Ni a) [])
        (lists_below max_path_links (link_ids book.links)) }
{}

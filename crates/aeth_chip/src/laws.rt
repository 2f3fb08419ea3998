// What holds of every chip and of its file, over the definitions alone.
ghost use Rattle.std.specs.Prelude.{◌≡◌, ◌<◌, ◌≤◌, ◌+◌, ◌*◌, ℕ, pos, List, Ok, Option, Some, length};
ghost use Rattle.std.specs.Prelude.{position, slice_get};
ghost use Rattle.std.specs.Str.{bytes_eq};
ghost use Rattle.aeth_base.specs.Limits.{max_link_delay, max_path_links, min_path_links};
ghost use Rattle.aeth_base.specs.declared.ids.LinkId.{LinkId};
ghost use Rattle.aeth_base.specs.declared.ids.NiId.{NiId};
ghost use Rattle.aeth_base.specs.declared.ids.RouterId.{RouterId};
ghost use Rattle.aeth_chip.specs.Chip.{ChipData, IsChip};
ghost use Rattle.aeth_chip.specs.ChipFile.{chip_of};
ghost use Rattle.aeth_chip.specs.LeastOnward.{least_onward};
ghost use Rattle.aeth_chip.specs.Nodes.{sends_on};
ghost use Rattle.aeth_chip.specs.Paths.{IsAdmissible, IsDistance, IsOnwardDistance, IsPath};
ghost use Rattle.aeth_chip.specs.Paths.{delay_of, offset};
ghost use Rattle.aeth_chip.specs.Told.{version_of};
ghost use Rattle.aeth_chip.specs.Versions.{in_version_2};
ghost use Rattle.aeth_chip.specs.Wires.{wire_at, wires_of};
ghost use Rattle.aeth_chip.specs.declared.node.Link.{Link};
ghost use Rattle.aeth_chip.specs.declared.node.Node.{Node};
ghost use Rattle.aeth_document.specs.Document.{document_of};
ghost use Rattle.toml.specs.Data.{Members};

/// A flit enters the first link of a path at once, and each further one after the delay of the link
/// before. A link of a chip delays it by 1 to 4 cycles, so the offset of a place is at most 4 times
/// the place.
pub fn offsets()
    ensures first { (links : List Link) (path : List LinkId) → offset links path 0 ≡ 0 }
    ensures more { (links : List Link) (path : List LinkId) (place : ℕ) (link : LinkId)
        → slice_get path place ≡ Some link
        → offset links path (place + 1) ≡ offset links path place + delay_of links link }
    ensures delay { (chip : ChipData) → IsChip chip → (link : LinkId)
        → link.0 < length chip.links
        → (1 ≤ delay_of chip.links link) × (delay_of chip.links link ≤ max_link_delay) }
    ensures most { (chip : ChipData) → IsChip chip → (path : List LinkId) (place : ℕ)
        → offset chip.links path place ≤ place * max_link_delay }
{}

/// The wires of a chip's links are below the number of wires, and no two are one.
pub fn wires()
    ensures below { (chip : ChipData) → IsChip chip → (link : LinkId) (place : ℕ)
        → link.0 < length chip.links → place < delay_of chip.links link
        → wire_at chip.links link.0 place < wires_of chip.links }
    ensures apart { (chip : ChipData) → IsChip chip → (link other : LinkId) (place behind : ℕ)
        → link.0 < length chip.links → other.0 < length chip.links
        → place < delay_of chip.links link → behind < delay_of chip.links other
        → wire_at chip.links link.0 place ≡ wire_at chip.links other.0 behind
        → (link.0 ≡ other.0) × (place ≡ behind) }
{}

/// The network interface of an interface's name is that interface.
pub fn names()
    ensures { (chip : ChipData) → IsChip chip → (ni : ℕ) (name : List ℕ)
        → slice_get chip.nis ni ≡ Some name
        → position (bytes_eq name) chip.nis ≡ Some ni }
{}

/// A link has one port.
pub fn ports()
    ensures { (links : List Link) (node : Node) (port other link : ℕ)
        → slice_get (sends_on node links) port ≡ Some link
        → slice_get (sends_on node links) other ≡ Some link → port ≡ other }
{}

/// A shortest path of at most 8 links is admissible, whatever the detour; and an admissible path
/// has 2 to 8 links.
pub fn admissible_paths()
    ensures shortest { (links : List Link) (detour : ℕ) (a b : NiId) (path : List LinkId)
        → IsPath links a b path → IsDistance links a b (Some (length path))
        → length path ≤ max_path_links → IsAdmissible links detour a b path }
    ensures links { (links : List Link) (detour : ℕ) (a b : NiId) (path : List LinkId)
        → IsAdmissible links detour a b path
        → (min_path_links ≤ length path) × (length path ≤ max_path_links) }
{}

/// The least number of links from a router to an interface as a function is the one of the paths, and
/// no other number is.
pub fn least_onward()
    ensures least { (chip : ChipData) → IsChip chip → (router : RouterId) (ni : NiId)
        → IsOnwardDistance chip.links router ni (least_onward chip router ni) }
    ensures only { (chip : ChipData) → IsChip chip → (router : RouterId) (ni : NiId)
        (least : Option ℕ) → IsOnwardDistance chip.links router ni least
        → least ≡ least_onward chip router ni }
{}

/// Where a text of version 1 tells a chip, the same document with `version = 2` tells the equal
/// chip.
pub fn versions()
    ensures { (old new : List ℕ) (root : Members) (chip : ChipData)
        → document_of old ≡ Some root → document_of new ≡ Some (in_version_2 root)
        → version_of root ≡ pos 1 → chip_of old ≡ Ok chip → chip_of new ≡ Ok chip }
{}

/// What the bytes of a file tell is a chip.
pub fn files()
    ensures { (bytes : List ℕ) (chip : ChipData) → chip_of bytes ≡ Ok chip → IsChip chip }
{}

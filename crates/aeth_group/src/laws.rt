//! What holds of chains of smooth pairs, and of the links that grants occupy, over the definitions
//! alone.
ghost use Rattle.std.specs.Prelude.{ℕ, ◌<◌, ◌↔◌, Bool, IsTrue, List, length};
ghost use Rattle.aeth_app.specs.App.{UseData, is_smooth};
ghost use Rattle.aeth_chip.specs.declared.node.Link.{Link};
ghost use Rattle.aeth_group.specs.Chains.{SameGroup};
ghost use Rattle.aeth_group.specs.Conflict.{Conflict, IsHeldTwice};
ghost use Rattle.aeth_group.specs.declared.grant.Grant.{Grant};
ghost use Rattle.aeth_group.specs.Groups.{in_one_group};
ghost use Rattle.aeth_group.specs.Marks.{IsTransitive};
ghost use Rattle.aeth_group.specs.Members.{GroupsData};
ghost use Rattle.aeth_group.specs.Occupation.{Occupies, occupies};

/// Being in one group is the least equivalence that joins smooth pairs, and `in_one_group` tests it.
pub fn same_group()
    ensures itself { (uses : List UseData) → (u : ℕ) → SameGroup uses u u }
    ensures back { (uses : List UseData) → (u v : ℕ) → u < length uses → SameGroup uses u v
        → SameGroup uses v u }
    ensures onward { (uses : List UseData) → (u w v : ℕ) → SameGroup uses u w
        → SameGroup uses w v → SameGroup uses u v }
    ensures smooth { (uses : List UseData) → (u v : ℕ) → v < length uses
        → IsTrue (is_smooth uses u v) → SameGroup uses u v }
    ensures least { (uses : List UseData) → (test : ℕ → ℕ → Bool)
        → ((u : ℕ) → IsTrue (test u u)) → IsTransitive test
        → ((u v : ℕ) → v < length uses → IsTrue (is_smooth uses u v) → IsTrue (test u v))
        → (u v : ℕ) → SameGroup uses u v → IsTrue (test u v) }
    ensures tested { (uses : List UseData) → (u v : ℕ)
        → IsTrue (in_one_group uses u v) ↔ SameGroup uses u v }
{}

/// The test of a grant at a slot of a link finds the places of its path and its starts that occupy it.
pub fn occupation()
    ensures { (links : List Link) → (grant : Grant) → (l s : ℕ)
        → IsTrue (occupies links grant l s) ↔ Occupies links grant l s }
{}

/// Grants conflict exactly where a use case has both at one slot of one link. A conflict is mutual.
pub fn conflicts()
    ensures held { (groups : GroupsData) → (links : List Link) → (a b : Grant)
        → Conflict groups links a b ↔ IsHeldTwice groups links a b }
    ensures mutual { (groups : GroupsData) → (links : List Link) → (a b : Grant)
        → Conflict groups links a b → Conflict groups links b a }
{}

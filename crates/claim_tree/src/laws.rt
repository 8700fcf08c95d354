//! What the definitions say together. Each law holds for every value.
ghost use Rattle.std.specs.Prelude.{◌≡◌, ◌≢◌, ◌≤◌, ◌↔◌, ℕ, List, Some};
ghost use Rattle.serde_json.specs.Read.{read as value_of_text};
ghost use Rattle.sd_outside.specs.Limits.{json_depth_max};
ghost use Rattle.claim_tree.specs.Tree.{Tree, IsRanged, IsOrdered, depth};
ghost use Rattle.claim_tree.specs.JsonText.{data_of, json_text, Reads};
ghost use Rattle.claim_tree.specs.Path.{pointer_text};
ghost use Rattle.claim_tree.specs.PointerRefusals.{IsNoPointer};

/// The compact JSON text of a tree reads to this tree.
pub fn read_of_written()
    ensures { (t : Tree) → IsRanged t → IsOrdered t → depth t ≤ json_depth_max
        → value_of_text (json_text t) ≡ Some (data_of t) }
{}

/// A text reads to at most one tree.
pub fn one_tree()
    ensures { (bytes : List ℕ) (t u : Tree) → Reads bytes t → Reads bytes u → t ≡ u }
{}

/// A pointer is that of one path, so that a printed path is read as itself and no other.
pub fn one_path()
    ensures { (p q : List (List ℕ)) → pointer_text p ≡ pointer_text q → p ≡ q }
{}

/// A text is no pointer exactly where it is that of no path.
pub fn no_path()
    ensures { (text : List ℕ) →
        IsNoPointer text ↔ ((path : List (List ℕ)) → text ≢ pointer_text path) }
{}

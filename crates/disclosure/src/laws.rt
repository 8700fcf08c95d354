//! Laws about the definitions. Each law holds for every value.
ghost use Rattle.std.specs.Prelude.{◌≡◌, ◌≢◌, ℕ, List, Option};
ghost use Rattle.claim_tree.specs.Tree.{Tree};
ghost use Rattle.disclosure.specs.Disclosure.{IsDisclosure};
ghost use Rattle.disclosure.specs.DisclosureRefusals.{IsDisclosureRefused};
ghost use Rattle.disclosure.specs.declared.errors.DisclosureError.{DisclosureError};
ghost use Rattle.disclosure.specs.declared.errors.DisclosureError.TheVariants.{Memory};

/// A text is the disclosure of one salt, of one name or none, and of one value.
pub fn one_disclosure()
    ensures { (text : List ℕ) (salt s : Tree) (name n : Option (List ℕ)) (value v : Tree)
        → IsDisclosure text salt name value → IsDisclosure text s n v
        → (salt ≡ s) × (name ≡ n) × (value ≡ v) }
{}

/// A disclosure is not refused, and a text that is refused has one cause, want of memory aside.
pub fn one_verdict()
    ensures not_both { (text : List ℕ) (salt : Tree) (name : Option (List ℕ)) (value : Tree)
        (error : DisclosureError) → IsDisclosure text salt name value
        → IsDisclosureRefused text error → error ≡ Memory }
    ensures one_cause { (text : List ℕ) (error other : DisclosureError)
        → IsDisclosureRefused text error → IsDisclosureRefused text other → error ≢ Memory
        → other ≢ Memory → error ≡ other }
{}

//! What the definitions say together. Each law holds for every value.
ghost use Rattle.std.specs.Prelude.{◌≡◌, ℕ, List};
ghost use Rattle.claim_tree.specs.Tree.{Tree, Members};
ghost use Rattle.jws_part.specs.declared.header.Header.{Header};
ghost use Rattle.jws_part.specs.Part.{IsBody, IsNoObject};
ghost use Rattle.jws_part.specs.Header.{IsHeader, IsHeaderCritical, IsHeaderUnreadable};

/// A protected header, with an outer one, is read as one header, is critical or
/// is unreadable, and never two of these.
pub fn one_header()
    ensures one { (protected : List ℕ) (outer : Members) (header other : Header) →
        IsHeader protected outer header → IsHeader protected outer other → header ≡ other }
    ensures readable { (protected : List ℕ) (outer : Members) (header : Header) →
        IsHeader protected outer header → IsHeaderUnreadable protected outer → ⊥ }
    ensures plain { (protected : List ℕ) (outer : Members) (header : Header) →
        IsHeader protected outer header → IsHeaderCritical protected outer → ⊥ }
    ensures critical { (protected : List ℕ) (outer : Members) →
        IsHeaderCritical protected outer → IsHeaderUnreadable protected outer → ⊥ }
{}

/// A payload carries one object, or none.
pub fn one_body()
    ensures one { (payload : List ℕ) (t other : Tree) →
        IsBody payload t → IsBody payload other → t ≡ other }
    ensures none { (payload : List ℕ) (t : Tree) → IsBody payload t → IsNoObject payload → ⊥ }
{}

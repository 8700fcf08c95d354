//! What the definitions of keys say. Each law holds for every value.
ghost use Rattle.std.specs.Prelude.{◌≡◌, ℕ, List};
ghost use Rattle.claim_tree.specs.Tree.{Tree};
ghost use Rattle.hmac_sign.specs.Hmac.{hmac, key_block};
ghost use Rattle.hmac_sign.specs.declared.alg.Alg.{Alg};
ghost use Rattle.hmac_sign.specs.Keys.{IsKeySet};
ghost use Rattle.hmac_sign.specs.KeyRefusals.{IsNoKeySet, KeyNotBase64At, KeyShortAt};
ghost use Rattle.hmac_sign.specs.declared.key_set.NamedKey.{NamedKey};

/// A key and the block made of it are one key.
pub fn one_key()
    ensures { (alg : Alg) (key text : List ℕ)
        → hmac alg (key_block alg key) text ≡ hmac alg key text }
{}

/// A tree is one key set, and none of its refusals holds of it.
pub fn one_key_set()
    ensures one { (t : Tree) (keys others : List NamedKey) → IsKeySet t keys → IsKeySet t others
        → keys ≡ others }
    ensures a_set { (t : Tree) (keys : List NamedKey) → IsKeySet t keys → IsNoKeySet t → ⊥ }
    ensures codes { (t : Tree) (keys : List NamedKey) (place : ℕ) → IsKeySet t keys
        → KeyNotBase64At t place → ⊥ }
    ensures long { (t : Tree) (keys : List NamedKey) (place : ℕ) → IsKeySet t keys
        → KeyShortAt t place → ⊥ }
{}
